//! Verifying a program.
ghost use Rattle.std.specs.Prelude.{◌≡◌, ◌↔◌, ◌∷◌, [], IsOk, IsSome};
ghost use Rattle.ir_types.specs.Interned.{IsKnown};
ghost use Rattle.ir_program.specs.declared.handles.Ptr.{Ptr};
ghost use Rattle.ir_program.specs.declared.handles.Operation.{Operation};
ghost use Rattle.ir_program.specs.declared.handles.IRNode.TheVariants.{Operation as OperationNode};
ghost use Rattle.ir_program.specs.Program.{operation_at};
ghost use Rattle.ir_program.specs.Lists.{IsLiveNode, StandsInside};
ghost use Rattle.ir_core.specs.verification.Tests.{of_op, of_attr, of_type, operation_tests_inside};
ghost use Rattle.ir_core.specs.verification.Verified.{own_answer, AnswersOwn, AnswersVerify, IsVerified};

use crate::verification::asking::{ask_inside, ask_operations_inside};
use crate::verification::blocks::some_has_flaw;
use crate::verification::nodes::know_inside;
use crate::verification::{BasicBlockVerifyErr, Verifiers, VerifyErr};
use ir_context::Context;
use ir_names::TypeHandle;
use ir_program::{IRNode, Operation, Ptr};
use ir_types::DialectTables;
use std::fmt::Debug;

/// A fault of a test, as the answer of a verifier.
pub(crate) fn own<F: Debug + Drop>(answer: Result<(), F>) -> Result<(), VerifyErr<F>>
    ensures { result ≡ own_answer answer }
{
    match answer {
        Ok(()) => Ok(()),
        Err(fault) => Err(VerifyErr::Own(fault)),
    }
}

/// The test of an operation, and of each that stands inside it. No memory is asked for.
///
/// # Errors
/// The fault of the first that isn't accepted, an operation before what stands in it.
pub fn verify_op<D: DialectTables, V: Verifiers<D>>(
    op: Ptr<Operation>,
    ctx: &Context<D>,
    verifiers: &V,
) -> Result<(), VerifyErr<V::Fault>>
    requires { IsSome (operation_at ctx.now.program op) }
    ensures accepted { IsOk result ↔ ((inner : Ptr Operation)
        → StandsInside ctx.now.program (OperationNode op) (OperationNode inner)
        → V.accepts verifiers.now ctx.now (of_op inner)) }
    ensures first { AnswersOwn (V.accepts verifiers.now ctx.now) (V.answers verifiers.now ctx.now)
        (operation_tests_inside ctx.now.program (OperationNode op)) result }
{
    know_inside(IRNode::Operation(op), ctx);
    own(ask_operations_inside(IRNode::Operation(op), ctx, verifiers))
}

/// Whether the blocks inside an entity end as they have to, and all tests of it and of what stands inside it accept.
pub(crate) fn verify_node<D: DialectTables, V: Verifiers<D>>(
    node: IRNode,
    ctx: &Context<D>,
    verifiers: &V,
) -> Result<(), VerifyErr<V::Fault>>
    requires { IsLiveNode ctx.now.program node }
    ensures accepted { IsOk result ↔ IsVerified D.op_has (V.accepts verifiers.now ctx.now) ctx.now.program node }
    ensures answer { AnswersVerify D.op_has (V.accepts verifiers.now ctx.now)
        (V.answers verifiers.now ctx.now) ctx.now.program node result }
{
    know_inside(node, ctx);
    if some_has_flaw(BasicBlockVerifyErr::MissingTerminator, node, ctx) {
        return Err(VerifyErr::Block(BasicBlockVerifyErr::MissingTerminator));
    }
    if some_has_flaw(BasicBlockVerifyErr::TerminatorNotLast, node, ctx) {
        return Err(VerifyErr::Block(BasicBlockVerifyErr::TerminatorNotLast));
    }
    own(ask_inside(node, ctx, verifiers))
}

/// Whether each block inside an operation ends as it has to, and all tests of the operation and of what stands inside
/// it accept: of each operation its own, those of its attributes and of its results' types, and of each block those of
/// its attributes and of its arguments' types. No memory is asked for.
///
/// # Errors
/// A block without a terminator, else a block with a terminator that isn't its last operation, else the fault of the
/// first test that refuses, in the order of the program.
pub fn verify_operation<D: DialectTables, V: Verifiers<D>>(
    op: Ptr<Operation>,
    ctx: &Context<D>,
    verifiers: &V,
) -> Result<(), VerifyErr<V::Fault>>
    requires { IsSome (operation_at ctx.now.program op) }
    ensures accepted { IsOk result ↔ IsVerified D.op_has (V.accepts verifiers.now ctx.now) ctx.now.program
        (OperationNode op) }
    ensures answer { AnswersVerify D.op_has (V.accepts verifiers.now ctx.now)
        (V.answers verifiers.now ctx.now) ctx.now.program (OperationNode op) result }
{
    verify_node(IRNode::Operation(op), ctx, verifiers)
}

/// The test of an attribute alone.
///
/// # Errors
/// The test's fault, exactly where the attribute isn't accepted.
pub fn verify_attr<D: DialectTables, V: Verifiers<D>>(
    attr: &D::Attr,
    ctx: &Context<D>,
    verifiers: &V,
) -> Result<(), VerifyErr<V::Fault>>
    ensures accepted { IsOk result ↔ V.accepts verifiers.now ctx.now (of_attr attr.now) }
    ensures answer { AnswersOwn (V.accepts verifiers.now ctx.now) (V.answers verifiers.now ctx.now)
        (of_attr attr.now ∷ []) result }
{
    own(verifiers.verify_attr(attr, ctx))
}

/// The test of a type alone.
///
/// # Errors
/// The test's fault, exactly where the type isn't accepted.
pub fn verify_type<D: DialectTables, V: Verifiers<D>>(
    ty: TypeHandle,
    ctx: &Context<D>,
    verifiers: &V,
) -> Result<(), VerifyErr<V::Fault>>
    requires { IsKnown ctx.now.types ty }
    ensures accepted { IsOk result ↔ V.accepts verifiers.now ctx.now (of_type ty) }
    ensures answer { AnswersOwn (V.accepts verifiers.now ctx.now) (V.answers verifiers.now ctx.now)
        (of_type ty ∷ []) result }
{
    own(verifiers.verify_type(ty, ctx))
}
