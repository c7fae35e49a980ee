//! The nearest of the operations around an operation of which a test holds.
ghost use Rattle.std.specs.Prelude.{◌↔◌, IsSome, IfSome, IsTrue};
ghost use Rattle.ir_queries.specs.Ancestors.{AnswersNearest};
ghost use Rattle.ir_program.specs.Program.{Program, operation_at};
ghost use Rattle.ir_program.specs.declared.handles.IRNode.TheVariants.{Operation as OperationNode};
ghost use Rattle.ir_program.specs.declared.handles.Operation.{Operation};
ghost use Rattle.ir_program.specs.declared.handles.Ptr.{Ptr};

use ir_context::{TypeTable, TypedProgram};
use ir_program::{IRNode, Operation, Ptr};

/// A test of operations.
pub(crate) trait OperationTest<O, B, T: TypeTable> {
    /// What it tests of an operation.
    ghost holds: { Self → Program O B → Ptr Operation → Type 0 };

    /// Whether it holds of an operation.
    fn is_met(&self, ctx: &TypedProgram<O, B, T>, op: Ptr<Operation>) -> bool
        requires { IsSome (operation_at ctx.now.program op) }
        ensures { IsTrue result ↔ holds self.now ctx.now.program op };
}

/// The first of an operation and the operations that hold it, from the inside out, of which a test holds.
pub(crate) fn nearest_operation<O, B, T: TypeTable, P: OperationTest<O, B, T>>(
    ctx: &TypedProgram<O, B, T>,
    op: Ptr<Operation>,
    test: &P,
) -> Option<Ptr<Operation>>
    requires { IsSome (operation_at ctx.now.program op) }
    ensures nearest { AnswersNearest OperationNode ctx.now.program (OperationNode op)
        (P.holds test.now ctx.now.program) result }
    ensures live { IfSome result (λ x. IsSome (operation_at ctx.now.program x)) }
{
    for node in ctx.program().nodes_around(IRNode::Operation(op)) {
        if let IRNode::Operation(holder) = node {
            if test.is_met(ctx, holder) {
                return Some(holder);
            }
        }
    }
    None
}
