//! Operations that use symbols.
ghost use Rattle.std.specs.Prelude.{◌≡◌, IfOk, IsOk, IsSome, OnErr, OnOk, map, option_map};
ghost use Rattle.std.specs.Option.{option_to_list};
ghost use Rattle.ir_names.specs.Identifier.{text_of};
ghost use Rattle.ir_names.specs.declared.interfaces.OpInterface.TheVariants as interface;
ghost use Rattle.ir_program.specs.Program.{operation_at};
ghost use Rattle.ir_symbols.specs.Contents.{symbol_name};
ghost use Rattle.symbol_ifaces.specs.Symbols.{holds_table, used_symbol};
ghost use Rattle.symbol_ifaces.specs.Users.{FindsItsSymbol, UsesUnknownSymbol};

use builtin_ifaces::{BuiltinDialect, CallOpCallable, CallOpInterface};
use ir_context::{Context, OperationCalls};
use ir_names::{Identifier, OpInterface};
use ir_program::{Operation, Ptr};
use ir_queries::OpInterfaceMarker;
use ir_symbols::lookup_symbol;
use ir_types::DialectTables;
use std::alloc::{AllocError, Global};
use std::convert::Infallible;
use thiserror::Error;

/// The operation uses a name that means nothing there.
#[derive(Clone, Copy, Debug, PartialEq, Eq, Error)]
#[error("no symbol has the name that the operation uses")]
pub struct SymbolUserOpInterfaceErr;

/// The name of the symbol that an operation uses, if it uses one.
pub(crate) fn used_symbol<'a, D: BuiltinDialect>(
    op: Ptr<Operation>,
    ctx: &'a Context<D>,
) -> Option<&'a Identifier>
    requires { IsSome (operation_at ctx.now.program op) }
    ensures { option_map (λ name. text_of name.now) result
        ≡ used_symbol D.op_has D.held_identifier D.key_of_callee D.place_of_callee ctx.now.program op }
{
    let kind = op.kind(ctx);
    if !D::op_implements(kind, OpInterface::SymbolUserOp) {
        return None;
    }
    if !D::op_implements(kind, OpInterface::CallOp) {
        return None;
    }
    match CallOpInterface::callee(op, ctx) {
        Some(CallOpCallable::Direct(name)) => Some(name),
        Some(CallOpCallable::Indirect(_)) => None,
        None => None,
    }
}

/// The operation uses symbols. One that is a call uses what it calls, if it calls that by name; what others use is a dialect's own.
pub struct SymbolUserOpInterface;

impl OpInterfaceMarker for SymbolUserOpInterface {
    ghost INTERFACE = { interface.SymbolUserOp };

    const INTERFACE: OpInterface = OpInterface::SymbolUserOp;
}

impl SymbolUserOpInterface {
    /// Each operation is accepted: what it uses is asked by the symbol table around it, or by `verify_symbol_uses`.
    pub fn verify<D: DialectTables>(
        _op: Ptr<Operation>,
        _ctx: &Context<D>,
    ) -> Result<(), Infallible>
        ensures { IsOk result }
    {
        Ok(())
    }

    /// Whether the nearest symbol table around the operation has a symbol of the name that it uses, if it uses one. It goes over
    /// the table's block, and asks for no memory.
    ///
    /// # Errors
    /// Refused where it uses a name, and no table is around it or the nearest one has no symbol of that name.
    pub fn verify_symbol_uses<D: BuiltinDialect>(
        op: Ptr<Operation>,
        ctx: &Context<D>,
    ) -> Result<(), SymbolUserOpInterfaceErr>
        requires { IsSome (operation_at ctx.now.program op) }
        ensures found { OnOk result (FindsItsSymbol (symbol_name D.op_has D.held_identifier) (holds_table D.op_has)
            (used_symbol D.op_has D.held_identifier D.key_of_callee D.place_of_callee ctx.now.program)
            ctx.now.program op) }
        ensures unknown { OnErr result (UsesUnknownSymbol (symbol_name D.op_has D.held_identifier)
            (holds_table D.op_has)
            (used_symbol D.op_has D.held_identifier D.key_of_callee D.place_of_callee ctx.now.program)
            ctx.now.program op) }
    {
        match used_symbol(op, ctx) {
            Some(name) => match lookup_symbol(ctx, op, name.as_str()) {
                Some(_) => Ok(()),
                None => Err(SymbolUserOpInterfaceErr),
            },
            None => Ok(()),
        }
    }

    /// The names of the symbols that the operation uses.
    ///
    /// # Errors
    /// There may be no memory for the list.
    pub fn used_symbols<D: BuiltinDialect>(
        alloc: Global,
        op: Ptr<Operation>,
        ctx: &Context<D>,
    ) -> Result<Vec<Identifier>, AllocError>
        requires { IsSome (operation_at ctx.now.program op) }
        ensures { IfOk result (λ names. map text_of names.items ≡ option_to_list
            (used_symbol D.op_has D.held_identifier D.key_of_callee D.place_of_callee ctx.now.program op)) }
    {
        let mut names = Vec::new(alloc);
        if let Some(name) = used_symbol(op, ctx) {
            names.push(name.try_clone()?)?;
        }
        Ok(names)
    }
}
