//! Types of functions.
ghost use Rattle.std.specs.Prelude.{◌≡◌, true, IfOk, OnErr, OnOk, Some};
ghost use Rattle.ir_base.specs.declared.types.TypeHandle.{TypeHandle};
ghost use Rattle.ir_names.specs.declared.interfaces.TypeInterface.TheVariants as interface;
ghost use Rattle.ir_types.specs.Interned.{KeepsTypes, handle_of, passes, with_type};
ghost use Rattle.builtin_types.specs.Got.{held_at};

use crate::BuiltinTypes;
use builtin_data::FunctionType;
use ir_context::Context;
use ir_names::TypeHandle;
use std::alloc::{AllocError, Global};

/// `FunctionType::get`.
pub trait GetFunctionType {
    /// The handle of the type of functions that take values of the first types and give back values of the second ones.
    ///
    /// Where the context has that type, nothing changes and no memory is asked for. A new type comes behind the others.
    ///
    /// # Errors
    /// Without memory nothing is changed.
    fn get<D: BuiltinTypes>(
        alloc: Global,
        ctx: &mut Context<D>,
        arguments: Vec<TypeHandle>,
        results: Vec<TypeHandle>,
    ) -> Result<TypeHandle, AllocError>
        ensures is { IfOk result (λ ty. held_at D.signature ctx.new.types ty ≡ Some (arguments.items, results.items)) }
        ensures function { IfOk result (λ ty.
            passes (λ key. D.type_has key interface.FunctionType) ctx.new.types ty ≡ true) }
        ensures only { IfOk result (λ ty. (other : TypeHandle)
            → held_at D.signature ctx.new.types other ≡ Some (arguments.items, results.items) → other ≡ ty) }
        ensures handle { IfOk result (λ ty. ty ≡ handle_of D.TypeKey.eq ctx.old.types
            (D.function_key (record { inputs = arguments; results = results }))) }
        ensures types { OnOk result (ctx.new.types ≡ with_type D.TypeKey.eq ctx.old.types
            (D.function_key (record { inputs = arguments; results = results }))) }
        ensures keeps { KeepsTypes ctx.old.types ctx.new.types }
        ensures program { ctx.new.program ≡ ctx.old.program }
        ensures err { OnErr result (ctx.new ≡ ctx.old) };
}

impl GetFunctionType for FunctionType {
    fn get<D: BuiltinTypes>(
        alloc: Global,
        ctx: &mut Context<D>,
        arguments: Vec<TypeHandle>,
        results: Vec<TypeHandle>,
    ) -> Result<TypeHandle, AllocError> {
        let key = D::from_function_type(FunctionType::new(arguments, results));
        ctx.instantiate_key(alloc, key)
    }
}
