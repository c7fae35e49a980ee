//! What is read of an operation for the rules on names, whatever tree it stands for.
ghost use Rattle.std.specs.Prelude.{◌≡◌, IsSome, option_map};
ghost use Rattle.ir_program.specs.Program.{operation_at};
ghost use Rattle.kit_checks.specs.World.{world_of};
ghost use Rattle.kit_verifier.specs.Reading.{kind_at, text_under, type_under};

use ir_context::{Context, OperationCalls};
use ir_names::TypeHandle;
use ir_program::{Operation, Ptr};
use kit::Kit;
use kit_ops::{KitAttr, KitOp};

/// The kind of an operation.
pub(crate) fn kind_of(ctx: &Context<Kit>, op: Ptr<Operation>) -> KitOp
    requires { IsSome (operation_at ctx.now.program op) }
    ensures { kind_at (world_of ctx.now) ctx.now.program op ≡ Some result }
{
    op.kind(ctx)
}

/// The text of the identifier under a key of an operation's attributes, if there is one.
pub(crate) fn text_under<'a>(
    ctx: &'a Context<Kit>,
    op: Ptr<Operation>,
    key: &str,
) -> Option<&'a str>
    requires { IsSome (operation_at ctx.now.program op) }
    ensures { option_map (λ text. text.now) result ≡ text_under (world_of ctx.now) ctx.now.program key.now op }
{
    match op.deref(ctx).attributes.get(key) {
        Some(KitAttr::Identifier(id)) => Some(id.as_str()),
        _ => None,
    }
}

/// The type under a key of an operation's attributes, if there is one.
pub(crate) fn type_under(ctx: &Context<Kit>, op: Ptr<Operation>, key: &str) -> Option<TypeHandle>
    requires { IsSome (operation_at ctx.now.program op) }
    ensures { result ≡ type_under (world_of ctx.now) ctx.now.program key.now op }
{
    match op.deref(ctx).attributes.get(key) {
        Some(KitAttr::Type(ty)) => Some(*ty),
        _ => None,
    }
}
