//! Types of functions.
ghost use Rattle.std.specs.Prelude.{◌≡◌, IsOk, Some, option_map};
ghost use Rattle.ir_names.specs.declared.interfaces.TypeInterface.TheVariants as interface;
ghost use Rattle.builtin_ifaces.specs.Types.{IsFunctionType, signature_at};

use builtin_tables::BuiltinDialect;
use ir_context::Context;
use ir_names::{TypeHandle, TypeInterface};
use ir_queries::TypeInterfaceMarker;
use std::convert::Infallible;

/// The type is that of a function.
pub struct FunctionTypeInterface;

impl TypeInterfaceMarker for FunctionTypeInterface {
    ghost INTERFACE = { interface.FunctionType };

    const INTERFACE: TypeInterface = TypeInterface::FunctionType;
}

/// The types of what a function of this type takes, and of what it gives back.
fn signature<'a, D: BuiltinDialect>(
    ty: TypeHandle,
    ctx: &'a Context<D>,
) -> (&'a [TypeHandle], &'a [TypeHandle])
    requires { IsFunctionType ctx.now.types D.type_has ty }
    ensures { signature_at ctx.now.types D.signature ty ≡ Some (result.0.now, result.1.now) }
{
    match ctx.type_key(ty) {
        Some(key) => match D::function_type(key) {
            Some(sides) => sides,
            None => unreachable!(),
        },
        None => unreachable!(),
    }
}

impl FunctionTypeInterface {
    /// Each type is accepted.
    pub fn verify<D: BuiltinDialect>(_ty: TypeHandle, _ctx: &Context<D>) -> Result<(), Infallible>
        ensures { IsOk result }
    {
        Ok(())
    }

    /// The types of what a function of this type takes, in order.
    pub fn arg_types<D: BuiltinDialect>(ty: TypeHandle, ctx: &Context<D>) -> &[TypeHandle]
        requires { IsFunctionType ctx.now.types D.type_has ty }
        ensures { option_map (λ sides. sides.0) (signature_at ctx.now.types D.signature ty) ≡ Some result.now }
    {
        let (arguments, _) = signature(ty, ctx);
        arguments
    }

    /// The types of what it gives back, in order.
    pub fn res_types<D: BuiltinDialect>(ty: TypeHandle, ctx: &Context<D>) -> &[TypeHandle]
        requires { IsFunctionType ctx.now.types D.type_has ty }
        ensures { option_map (λ sides. sides.1) (signature_at ctx.now.types D.signature ty) ≡ Some result.now }
    {
        let (_, results) = signature(ty, ctx);
        results
    }
}
