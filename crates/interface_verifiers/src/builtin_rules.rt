//! What operations of the dialect `builtin` ask beside their interfaces.
ghost use Rattle.std.specs.Prelude.{◌≡◌, ◌↔◌, IfErr, IsSome, IsTrue, codes, option_copied};
ghost use Rattle.ir_program.specs.Program.{operation_at, results_at, type_in};
ghost use Rattle.builtin_ifaces.specs.Attributes.{attribute_under, held_under};
ghost use Rattle.op_ifaces.specs.Rules.{AcceptsExactly};
ghost use Rattle.interface_verifiers.specs.BuiltinRules.{HasFunctionType, HasTypedValue, IsBuiltin, MeetsBuiltinRule};
ghost use Rattle.interface_verifiers.specs.Faults.{IsBuiltinFault};

use crate::faults::BuiltinOpErr;
use crate::summary::Summarized;
use builtin_tables::BuiltinDialect;
use ir_context::{Context, OperationCalls, ResultCalls};
use ir_names::{TypeHandle, TypeInterface};
use ir_program::{Operation, Ptr};

/// The key of a function's type.
const FUNCTION_TYPE: &str = "builtin_func_type";

/// The key of a constant's value.
const CONSTANT_VALUE: &str = "builtin_constant_value";

/// Whether the operation is of the kind of the dialect `builtin` that has this name.
fn is_builtin<D: BuiltinDialect>(op: Ptr<Operation>, ctx: &Context<D>, name: &str) -> bool
    requires { IsSome (operation_at ctx.now.program op) }
    ensures { IsTrue result ↔ IsBuiltin ⟦<D as Summarized>⟧.summary ctx.now.program ctx.now.types op name.now }
{
    let id = op.get_opid(ctx);
    id.dialect.as_str() == "builtin" && id.name.as_str() == name
}

/// The attribute of the operation under a key.
fn attribute_under<'a, D: BuiltinDialect>(
    op: Ptr<Operation>,
    ctx: &'a Context<D>,
    key: &str,
) -> Option<&'a D::Attr>
    requires { IsSome (operation_at ctx.now.program op) }
    ensures { option_copied result ≡ attribute_under ctx.now.program op key.now }
{
    op.deref(ctx).attributes.get(key)
}

/// The type that the attribute under a key holds.
fn type_under<D: BuiltinDialect>(
    op: Ptr<Operation>,
    ctx: &Context<D>,
    key: &str,
) -> Option<TypeHandle>
    requires { IsSome (operation_at ctx.now.program op) }
    ensures { result ≡ held_under ctx.now.program op D.held_type key.now }
{
    match attribute_under(op, ctx, key) {
        Some(attr) => D::as_type(attr),
        None => None,
    }
}

/// The type of the first result, if there is one.
fn result_type<D: BuiltinDialect>(op: Ptr<Operation>, ctx: &Context<D>) -> Option<TypeHandle>
    requires { IsSome (operation_at ctx.now.program op) }
    ensures { result ≡ type_in (results_at ctx.now.program op) 0 }
{
    if op.get_num_results(ctx) == 0 {
        return None;
    }
    Some(ctx.program().result_type(op, 0))
}

/// Whether an attribute holds the type of a function, and this is a type of functions.
fn verify_function<D: BuiltinDialect>(
    op: Ptr<Operation>,
    ctx: &Context<D>,
) -> Result<(), BuiltinOpErr>
    requires { IsSome (operation_at ctx.now.program op) }
    ensures exact { AcceptsExactly result (IsBuiltin ⟦<D as Summarized>⟧.summary ctx.now.program ctx.now.types op
        (codes "func")
        → HasFunctionType ⟦<D as Summarized>⟧.summary ctx.now.program ctx.now.types op) }
    ensures fault { IfErr result (IsBuiltinFault ⟦<D as Summarized>⟧.summary ctx.now.program ctx.now.types op) }
{
    if !is_builtin(op, ctx, "func") {
        return Ok(());
    }
    let Some(ty) = type_under(op, ctx, FUNCTION_TYPE) else {
        return Err(BuiltinOpErr::FunctionTypeMissing);
    };
    if ctx.types().implements(ty, TypeInterface::FunctionType) {
        return Ok(());
    }
    Err(BuiltinOpErr::NotAFunctionType)
}

/// Whether a constant has a value, this has a type, and it is that of the result.
fn verify_constant<D: BuiltinDialect>(
    op: Ptr<Operation>,
    ctx: &Context<D>,
) -> Result<(), BuiltinOpErr>
    requires { IsSome (operation_at ctx.now.program op) }
    ensures exact { AcceptsExactly result (IsBuiltin ⟦<D as Summarized>⟧.summary ctx.now.program ctx.now.types op
        (codes "constant")
        → HasTypedValue ⟦<D as Summarized>⟧.summary ctx.now.program ctx.now.types op) }
    ensures fault { IfErr result (IsBuiltinFault ⟦<D as Summarized>⟧.summary ctx.now.program ctx.now.types op) }
{
    if !is_builtin(op, ctx, "constant") {
        return Ok(());
    }
    let Some(value) = attribute_under(op, ctx, CONSTANT_VALUE) else {
        return Err(BuiltinOpErr::ValueMissing);
    };
    let Some(ty) = D::type_of(value) else {
        return Err(BuiltinOpErr::ValueNotTyped);
    };
    if result_type(op, ctx) == Some(ty) {
        return Ok(());
    }
    Err(BuiltinOpErr::ResultTypeMismatch)
}

/// Whether the operation is no forward reference.
fn verify_forward_ref<D: BuiltinDialect>(
    op: Ptr<Operation>,
    ctx: &Context<D>,
) -> Result<(), BuiltinOpErr>
    requires { IsSome (operation_at ctx.now.program op) }
    ensures exact { AcceptsExactly result (IsBuiltin ⟦<D as Summarized>⟧.summary ctx.now.program ctx.now.types op
        (codes "forward_ref") → ⊥) }
    ensures fault { IfErr result (IsBuiltinFault ⟦<D as Summarized>⟧.summary ctx.now.program ctx.now.types op) }
{
    if is_builtin(op, ctx, "forward_ref") {
        return Err(BuiltinOpErr::ForwardRef);
    }
    Ok(())
}

/// Whether the operation is as its kind wants it, if this is one of the dialect `builtin`: a function, a constant or a forward
/// reference. A module and each operation of another dialect are accepted.
pub(crate) fn verify_builtin<D: BuiltinDialect>(
    op: Ptr<Operation>,
    ctx: &Context<D>,
) -> Result<(), BuiltinOpErr>
    requires { IsSome (operation_at ctx.now.program op) }
    ensures exact { AcceptsExactly result (MeetsBuiltinRule ⟦<D as Summarized>⟧.summary ctx.now.program
        ctx.now.types op) }
    ensures fault { IfErr result (IsBuiltinFault ⟦<D as Summarized>⟧.summary ctx.now.program ctx.now.types op) }
{
    verify_forward_ref(op, ctx)?;
    verify_function(op, ctx)?;
    verify_constant(op, ctx)?;
    Ok(())
}
