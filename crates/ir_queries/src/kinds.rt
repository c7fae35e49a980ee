//! The operation around an operation that is of a kind, or implements an interface.
ghost use Rattle.std.specs.Prelude.{IsSome, IfSome};
ghost use Rattle.ir_queries.specs.Ancestors.{AnswersNearest, IsOtherOfKind};
ghost use Rattle.ir_program.specs.Program.{operation_at};
ghost use Rattle.ir_program.specs.declared.handles.IRNode.TheVariants.{Operation as OperationNode};

use crate::markers::{OpInterfaceMarker, OpMarker};
use crate::nearest::{OperationTest, nearest_operation};
use ir_context::{BlockNotes, Context, OperationCalls, OperationData};
use ir_program::{Operation, Ptr};
use ir_types::{DialectTables, Types};
use std::marker::PhantomData;

/// It is another operation than `op`, of the kind that `T` stands for.
#[derive_where(Clone, Copy)]
struct OtherOfType<T> {
    op: Ptr<Operation>,
    of: PhantomData<T>,
}

impl<D: DialectTables, T: OpMarker<D>> OperationTest<OperationData<D>, BlockNotes<D>, Types<D>>
    for OtherOfType<T> {
    ghost holds = { λ test c x. IsOtherOfKind (λ kind. D.OpKind.eq kind T.KIND) c test.op x };

    fn is_met(&self, ctx: &Context<D>, op: Ptr<Operation>) -> bool {
        if op == self.op {
            return false;
        }
        op.kind(ctx) == T::KIND
    }
}

/// It is another operation than `op`, and implements the interface that `I` stands for.
#[derive_where(Clone, Copy)]
struct OtherWithInterface<I> {
    op: Ptr<Operation>,
    of: PhantomData<I>,
}

impl<D: DialectTables, I: OpInterfaceMarker> OperationTest<
    OperationData<D>,
    BlockNotes<D>,
    Types<D>,
> for OtherWithInterface<I> {
    ghost holds = { λ test c x. IsOtherOfKind (λ kind. D.op_has kind I.INTERFACE) c test.op x };

    fn is_met(&self, ctx: &Context<D>, op: Ptr<Operation>) -> bool {
        if op == self.op {
            return false;
        }
        D::op_implements(op.kind(ctx), I::INTERFACE)
    }
}

/// The nearest of the operations that hold an operation, itself not counted, that is of the kind that `T` stands for;
/// `None` where none is.
pub fn find_ancestor_of_op_type<D: DialectTables, T: OpMarker<D>>(
    ctx: &Context<D>,
    op: Ptr<Operation>,
) -> Option<Ptr<Operation>>
    requires { IsSome (operation_at ctx.now.program op) }
    ensures nearest { AnswersNearest OperationNode ctx.now.program (OperationNode op)
        (IsOtherOfKind (λ kind. D.OpKind.eq kind T.KIND) ctx.now.program op) result }
    ensures live { IfSome result (λ x. IsSome (operation_at ctx.now.program x)) }
{
    let test = OtherOfType::<T> {
        op,
        of: PhantomData,
    };
    nearest_operation(ctx, op, &test)
}

/// The nearest of the operations that hold an operation, itself not counted, that implements the interface that `I`
/// stands for; `None` where none does.
pub fn find_ancestor_of_op_interface<D: DialectTables, I: OpInterfaceMarker>(
    ctx: &Context<D>,
    op: Ptr<Operation>,
) -> Option<Ptr<Operation>>
    requires { IsSome (operation_at ctx.now.program op) }
    ensures nearest { AnswersNearest OperationNode ctx.now.program (OperationNode op)
        (IsOtherOfKind (λ kind. D.op_has kind I.INTERFACE) ctx.now.program op) result }
    ensures live { IfSome result (λ x. IsSome (operation_at ctx.now.program x)) }
{
    let test = OtherWithInterface::<I> {
        op,
        of: PhantomData,
    };
    nearest_operation(ctx, op, &test)
}
