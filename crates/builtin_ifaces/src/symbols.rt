//! Symbols: operations that have a name.
ghost use Rattle.std.specs.Prelude.{◌≡◌, IsSome, OnErr, OnOk, Some};
ghost use Rattle.ir_names.specs.Identifier.{text_of};
ghost use Rattle.ir_names.specs.declared.interfaces.OpInterface.TheVariants as interface;
ghost use Rattle.ir_program.specs.Edits.{EditsOperation, KeepsValues};
ghost use Rattle.ir_program.specs.Program.{operation_at};
ghost use Rattle.op_ifaces.specs.Rules.{AcceptsExactly};
ghost use Rattle.builtin_ifaces.specs.Attributes.{held_under};
ghost use Rattle.builtin_tables.specs.Keys.{symbol_name};
ghost use Rattle.builtin_ifaces.specs.Symbols.{IsNamedBy, NamesSymbol};

use crate::attributes::identifier_under;
use builtin_tables::{BuiltinDialect, keys};
use ir_context::{Context, OperationData};
use ir_names::{Identifier, OpInterface};
use ir_program::{Operation, Ptr};
use ir_queries::OpInterfaceMarker;
use std::alloc::{AllocError, Global};
use thiserror::Error;

/// The operation has no name.
#[derive(Clone, Copy, Debug, PartialEq, Eq, Error)]
#[error("no attribute builtin_sym_name holds a name")]
pub struct SymbolOpInterfaceErr;

/// Puts an attribute that holds the name among those of an operation.
fn put_name<D: BuiltinDialect>(
    alloc: Global,
    data: &mut OperationData<D>,
    name: Identifier,
) -> Result<(), AllocError>
    ensures named { OnOk result (IsNamedBy D.held_identifier data.old data.new (text_of name)) }
    ensures err { OnErr result (data.new ≡ data.old) }
{
    let key = Identifier::new(alloc, keys::SYMBOL_NAME)?;
    data.notes.attributes.set(key, D::from_identifier(name))?;
    Ok(())
}

/// The operation has a name that others refer to.
pub struct SymbolOpInterface;

impl OpInterfaceMarker for SymbolOpInterface {
    ghost INTERFACE = { interface.SymbolOp };

    const INTERFACE: OpInterface = OpInterface::SymbolOp;
}

impl SymbolOpInterface {
    /// Whether the attribute under the key for names of symbols holds an identifier.
    pub fn verify<D: BuiltinDialect>(
        op: Ptr<Operation>,
        ctx: &Context<D>,
    ) -> Result<(), SymbolOpInterfaceErr>
        requires { IsSome (operation_at ctx.now.program op) }
        ensures { AcceptsExactly result (IsSome (held_under ctx.now.program op D.held_identifier symbol_name)) }
    {
        match identifier_under(op, ctx, keys::SYMBOL_NAME) {
            Some(_) => Ok(()),
            None => Err(SymbolOpInterfaceErr),
        }
    }

    /// The name.
    pub fn get_symbol_name<D: BuiltinDialect>(op: Ptr<Operation>, ctx: &Context<D>) -> &Identifier
        requires operation { IsSome (operation_at ctx.now.program op) }
        requires rule { IsSome (held_under ctx.now.program op D.held_identifier symbol_name) }
        ensures { held_under ctx.now.program op D.held_identifier symbol_name ≡ Some (text_of result.now) }
    {
        match identifier_under(op, ctx, keys::SYMBOL_NAME) {
            Some(name) => name,
            None => unreachable!(),
        }
    }

    /// Gives the operation this name, in place of the one that it had.
    ///
    /// # Errors
    /// There may be no memory. The operation is as it was then.
    pub fn set_symbol_name<D: BuiltinDialect>(
        alloc: Global,
        op: Ptr<Operation>,
        ctx: &mut Context<D>,
        name: Identifier,
    ) -> Result<(), AllocError>
        requires { IsSome (operation_at ctx.old.program op) }
        ensures named { OnOk result (NamesSymbol D.held_identifier ctx.old.program ctx.new.program op (text_of name)) }
        ensures held { OnOk result (held_under ctx.new.program op D.held_identifier symbol_name
            ≡ Some (text_of name)) }
        ensures err { OnErr result (EditsOperation ctx.old.program ctx.new.program op (λ o. o)) }
        ensures values { KeepsValues ctx.old.program ctx.new.program }
        ensures types { ctx.new.types ≡ ctx.old.types }
    {
        put_name(alloc, ctx.payload_mut(op), name)?;
        Ok(())
    }
}
