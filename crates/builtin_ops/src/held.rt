//! What the attributes of an operation hold.
ghost use Rattle.std.specs.Prelude.{◌≡◌, IsSome, option_copied};
ghost use Rattle.ir_program.specs.Program.{operation_at};
ghost use Rattle.builtin_ops.specs.Asked.{attribute_under, held_under};

use builtin_tables::BuiltinDialect;
use ir_context::{Context, OperationCalls};
use ir_names::TypeHandle;
use ir_program::{Operation, Ptr};
use ir_types::DialectTables;

/// The attribute of the operation under a key.
pub(crate) fn attribute_under<'a, D: DialectTables>(
    op: Ptr<Operation>,
    ctx: &'a Context<D>,
    key: &str,
) -> Option<&'a D::Attr>
    requires { IsSome (operation_at ctx.now.program op) }
    ensures { option_copied result ≡ attribute_under ctx.now.program op key.now }
{
    op.deref(ctx).attributes.get(key)
}

/// The type that the attribute under a key holds.
pub(crate) fn type_under<D: BuiltinDialect>(
    op: Ptr<Operation>,
    ctx: &Context<D>,
    key: &str,
) -> Option<TypeHandle>
    requires { IsSome (operation_at ctx.now.program op) }
    ensures { result ≡ held_under ctx.now.program op D.held_type key.now }
{
    match attribute_under(op, ctx, key) {
        Some(attr) => D::as_type(attr),
        None => None,
    }
}
