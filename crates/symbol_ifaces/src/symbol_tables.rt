//! Operations that hold symbol tables.
ghost use Rattle.std.specs.Prelude.{IfErr, IsSome};
ghost use Rattle.ir_names.specs.declared.interfaces.OpInterface.TheVariants as interface;
ghost use Rattle.ir_program.specs.Program.{operation_at};
ghost use Rattle.ir_symbols.specs.Lookups.{IsFoundIn};
ghost use Rattle.op_ifaces.specs.Rules.{AcceptsExactly};
ghost use Rattle.ir_symbols.specs.Contents.{symbol_name};
ghost use Rattle.symbol_ifaces.specs.Symbols.{holds_table, used_symbol};
ghost use Rattle.symbol_ifaces.specs.Tables.{IsConsistent, IsRefusedBy};

use crate::used_symbols::{distinct_symbols, find_unknown};
use builtin_ifaces::BuiltinDialect;
use ir_context::{Context, OperationCalls};
use ir_names::OpInterface;
use ir_program::{Operation, Ptr};
use ir_queries::OpInterfaceMarker;
use ir_symbols::scan;
use std::alloc::Global;
use thiserror::Error;

/// Why the operations in a symbol table aren't as it wants them.
#[derive(Clone, Copy, Debug, PartialEq, Eq, Error)]
pub enum SymbolTableInterfaceErr {
    /// Two symbols have one name.
    #[error("two operations have one name")]
    SymbolRedefined,
    /// This operation uses a name that no symbol of the table has.
    #[error("an operation uses a name that no symbol of the table has")]
    UnknownSymbol(Ptr<Operation>),
}

/// The operation holds a symbol table: the symbols of its one block, by their names.
pub struct SymbolTableInterface;

impl OpInterfaceMarker for SymbolTableInterface {
    ghost INTERFACE = { interface.SymbolTable };

    const INTERFACE: OpInterface = OpInterface::SymbolTable;
}

impl SymbolTableInterface {
    /// Whether the symbols of the operation's block have distinct names, and what is used in the operation is among them, but
    /// for what is used in a table further in. An operation whose kind doesn't implement the interface is accepted.
    ///
    /// The names are put in order once, and each operation is looked at once. Where there is no memory for the names, the
    /// block is gone over for each of them.
    ///
    /// # Errors
    /// Refused by `SymbolRedefined` where two symbols have one name, else by `UnknownSymbol`.
    pub fn verify<D: BuiltinDialect>(
        alloc: Global,
        op: Ptr<Operation>,
        ctx: &Context<D>,
    ) -> Result<(), SymbolTableInterfaceErr>
        requires { IsSome (operation_at ctx.now.program op) }
        ensures exact { AcceptsExactly result (IsConsistent (symbol_name D.op_has D.held_identifier) (holds_table D.op_has)
            (used_symbol D.op_has D.held_identifier D.key_of_callee D.place_of_callee ctx.now.program)
            ctx.now.program op) }
        ensures fault { IfErr result (IsRefusedBy (symbol_name D.op_has D.held_identifier) (holds_table D.op_has)
            (used_symbol D.op_has D.held_identifier D.key_of_callee D.place_of_callee ctx.now.program)
            ctx.now.program op) }
    {
        if !D::op_implements(op.kind(ctx), OpInterface::SymbolTable) {
            return Ok(());
        }
        let symbols = distinct_symbols(alloc, op, ctx)?;
        match find_unknown(&symbols, op, ctx) {
            Some(user) => Err(SymbolTableInterfaceErr::UnknownSymbol(user)),
            None => Ok(()),
        }
    }

    /// The first operation of the operation's block that has the name; none where the operation hasn't one region with one
    /// block. It goes over the block, and asks for no memory.
    pub fn lookup<D: BuiltinDialect>(
        op: Ptr<Operation>,
        ctx: &Context<D>,
        name: &str,
    ) -> Option<Ptr<Operation>>
        requires { IsSome (operation_at ctx.now.program op) }
        ensures { IsFoundIn (symbol_name D.op_has D.held_identifier) ctx.now.program op name.now result }
    {
        scan(ctx, op, name)
    }
}
