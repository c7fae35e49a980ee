//! What is around an operation inside a root.
ghost use Rattle.std.specs.Prelude.{◌≡◌, ◌↔◌, IfSome, IsSome, IsTrue};
ghost use Rattle.ir_program.specs.Program.{operation_at};
ghost use Rattle.kit_checks.specs.Reading.{IsInKind, IsOwner, OfSite};
ghost use Rattle.kit_checks.specs.World.{world_of};
ghost use Rattle.kit_ops.specs.declared.kinds.KitOp.TheVariants.{Module, Func};

use crate::reading::{is_function, is_module, kind_of};
use ir_context::{Context, OperationCalls};
use ir_program::{Operation, Ptr};
use kit::Kit;

/// The operation that owns the region that an operation is in; none for the root.
pub(crate) fn owner_of(
    ctx: &Context<Kit>,
    root: Ptr<Operation>,
    op: Ptr<Operation>,
) -> Option<Ptr<Operation>>
    requires { IsSome (operation_at ctx.now.program op) }
    ensures owner { OfSite ctx.now.program root op (λ s. IsOwner ctx.now.program s.around result) }
    ensures live { IfSome result (λ owner. IsSome (operation_at ctx.now.program owner)) }
{
    if op == root {
        return None;
    }
    op.get_parent_op(ctx)
}

/// Whether an operation is in a module that is inside the root.
pub fn is_in_module(ctx: &Context<Kit>, root: Ptr<Operation>, op: Ptr<Operation>) -> bool
    requires { IsSome (operation_at ctx.now.program op) }
    ensures { OfSite ctx.now.program root op (λ s. IsTrue result ↔ IsInKind (world_of ctx.now) s Module) }
{
    match owner_of(ctx, root, op) {
        Some(owner) => is_module(kind_of(ctx, owner)),
        None => false,
    }
}

/// Whether an operation is in a function that is inside the root.
pub(crate) fn is_in_function(ctx: &Context<Kit>, root: Ptr<Operation>, op: Ptr<Operation>) -> bool
    requires { IsSome (operation_at ctx.now.program op) }
    ensures { OfSite ctx.now.program root op (λ s. IsTrue result ↔ IsInKind (world_of ctx.now) s Func) }
{
    match owner_of(ctx, root, op) {
        Some(owner) => is_function(kind_of(ctx, owner)),
        None => false,
    }
}
