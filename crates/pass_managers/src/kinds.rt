//! Guards by the kinds of operations, and by the interfaces of kinds.
ghost use Rattle.std.specs.Prelude.{◌≡◌, Bool, IsSome};

use crate::guards::{Guard, GuardedPass};
use ir_context::{BlockNotes, OperationCalls, OperationData};
use ir_program::{Operation, Ptr};
use ir_queries::{OpInterfaceMarker, OpMarker, op_impls};
use ir_types::{DialectTables, Types};
use opt_dialect::Meanings;
use pass_analyses::{Verified, VerifiedContext};
use std::marker::PhantomData;

/// Allows the operations of the kind that `T` stands for.
#[derive_where(Default)]
#[derive(Drop)]
pub struct OpGuard<T> {
    of: PhantomData<T>,
}

impl<D, T: OpMarker<D>> Guard<D> for OpGuard<T>
where
    D: DialectTables
        + Meanings<Operation = OperationData<D>, Block = BlockNotes<D>>
        + Verified<Types = Types<D>>,
{
    ghost use Rattle.pass_managers.specs.Kinds.{is_of_kind};

    ghost allows = { λ g c op. is_of_kind (λ kind. D.OpKind.eq kind T.KIND) c.program op };

    fn is_allowed(&self, op: Ptr<Operation>, ctx: &VerifiedContext<D>) -> bool {
        op.kind(ctx) == T::KIND
    }
}

/// Allows the operations of the kinds that implement the interface that `I` stands for.
#[derive_where(Default)]
#[derive(Drop)]
pub struct OpInterfaceGuard<I> {
    of: PhantomData<I>,
}

impl<D, I: OpInterfaceMarker> Guard<D> for OpInterfaceGuard<I>
where
    D: DialectTables
        + Meanings<Operation = OperationData<D>, Block = BlockNotes<D>>
        + Verified<Types = Types<D>>,
{
    ghost use Rattle.pass_managers.specs.Kinds.{is_of_kind};

    ghost allows = { λ g c op. is_of_kind (λ kind. D.op_has kind I.INTERFACE) c.program op };

    fn is_allowed(&self, op: Ptr<Operation>, ctx: &VerifiedContext<D>) -> bool {
        op_impls::<D, I>(op.kind(ctx))
    }
}

/// A pass that runs at the operations of the kind that `T` stands for.
pub type OpPass<T, P> = GuardedPass<OpGuard<T>, P>;

/// A pass that runs at the operations of the kinds that implement the interface that `I` stands for.
pub type OpInterfacePass<I, P> = GuardedPass<OpInterfaceGuard<I>, P>;
