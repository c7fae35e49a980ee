//! Whether what is used in a symbol table is in it.
ghost use Rattle.std.specs.Prelude.{◌≡◌, ◌↔◌, IfErr, IfOk, IfSome, IsSome, IsTrue, MatchOption, OnErr, OnOk};
ghost use Rattle.ir_program.specs.Lists.{IsLiveNode};
ghost use Rattle.ir_program.specs.Program.{operation_at};
ghost use Rattle.ir_symbols.specs.Contents.{symbol_name};
ghost use Rattle.ir_symbols.specs.Symbols.{IsTable};
ghost use Rattle.ir_symbols.specs.Tables.{IsTableOf, SharesName};
ghost use Rattle.std.specs.declared.ops.ControlFlow.TheVariants.{Continue};
ghost use Rattle.ir_walks.specs.declared.results.WalkContinue.TheVariants.{Advance};
ghost use Rattle.ir_walks.specs.Turns.{IsKnown};
ghost use Rattle.symbol_ifaces.specs.Symbols.{holds_table, used_symbol};
ghost use Rattle.symbol_ifaces.specs.Tables.{IsServed, IsUnknownTo, Knows, KnowsAllUsed, Looks, Offers};
ghost use Rattle.symbol_ifaces.specs.declared.symbol_tables.SymbolTableInterfaceErr.TheVariants.{SymbolRedefined};

use crate::symbol_tables::SymbolTableInterfaceErr;
use crate::symbol_users::used_symbol;
use builtin_ifaces::BuiltinDialect;
use ir_context::{Context, OperationCalls, TypeTable, TypedProgram};
use ir_program::{IRNode, Operation, Program, Ptr};
use ir_symbols::{
    SymbolPayload, SymbolTable, SymbolTableErr, scan, single_block, walk_symbol_table,
};
use ir_walks::{WalkResult, walk_advance};
use std::alloc::Global;
use std::convert::Infallible;

/// The symbols of an operation's block by their names; none where the operation hasn't one region with one block, or where
/// there is no memory for them.
///
/// # Errors
/// Refused exactly where two have one name.
pub(crate) fn distinct_symbols<O: SymbolPayload, B, T: TypeTable>(
    alloc: Global,
    op: Ptr<Operation>,
    ctx: &TypedProgram<O, B, T>,
) -> Result<Option<SymbolTable>, SymbolTableInterfaceErr>
    requires live { IsSome (operation_at ctx.now.program op) }
    requires table { IsTable O.holds_table ctx.now.program op }
    ensures symbols { IfOk result (λ symbols. IfSome symbols
        (IsTableOf O.name_in O.holds_table ctx.now.program op)) }
    ensures distinct { OnOk result (SharesName O.name_in O.holds_table ctx.now.program op → ⊥) }
    ensures fault { IfErr result (λ fault. fault ≡ SymbolRedefined) }
    ensures shared { OnErr result (SharesName O.name_in O.holds_table ctx.now.program op) }
{
    if single_block(ctx, op).is_none() {
        return Ok(None);
    }
    match SymbolTable::new(alloc, ctx, op) {
        Ok(symbols) => Ok(Some(symbols)),
        Err(SymbolTableErr::Memory) => Ok(None),
        Err(SymbolTableErr::SymbolRedefined) => Err(SymbolTableInterfaceErr::SymbolRedefined),
        Err(_) => unreachable!(),
    }
}

/// Whether a symbol of the table has the name: one of these, or where they aren't given one that a scan finds.
fn knows<O: SymbolPayload, B, T: TypeTable>(
    symbols: &Option<SymbolTable>,
    table: Ptr<Operation>,
    ctx: &TypedProgram<O, B, T>,
    name: &str,
) -> bool
    requires { IsSome (operation_at ctx.now.program table) }
    ensures { IfSome symbols.now (IsTableOf O.name_in O.holds_table ctx.now.program table)
        → (IsTrue result ↔ Knows O.name_in ctx.now.program table name.now) }
{
    ctx.program().know_lists();
    match symbols {
        Some(symbols) => symbols.lookup(name).is_some(),
        None => scan(ctx, table, name).is_some(),
    }
}

/// Whether the table knows what an operation other than itself uses.
fn is_served<D: BuiltinDialect>(
    symbols: &Option<SymbolTable>,
    table: Ptr<Operation>,
    ctx: &Context<D>,
    user: Ptr<Operation>,
) -> bool
    requires table { IsSome (operation_at ctx.now.program table) }
    requires user { IsSome (operation_at ctx.now.program user) }
    ensures { IfSome symbols.now (IsTableOf (symbol_name D.op_has D.held_identifier) (holds_table D.op_has) ctx.now.program table)
        → (IsTrue result ↔ IsServed (symbol_name D.op_has D.held_identifier) (holds_table D.op_has)
        (used_symbol D.op_has D.held_identifier D.key_of_callee D.place_of_callee ctx.now.program)
        ctx.now.program table user) }
{
    if user == table {
        return true;
    }
    match used_symbol(user, ctx) {
        Some(name) => knows(symbols, table, ctx, name.as_str()),
        None => true,
    }
}

/// Looks at an operation of the table, unless one was found before that uses what the table doesn't know: if it is such a
/// one, it is found.
fn look_at<D: BuiltinDialect>(
    symbols: &Option<SymbolTable>,
    table: Ptr<Operation>,
    ctx: &Context<D>,
    unknown: &mut Option<Ptr<Operation>>,
    user: Ptr<Operation>,
)
    ensures { Offers (IsSome (operation_at ctx.now.program table) × IsSome (operation_at ctx.now.program user)
        × IfSome symbols.now (IsTableOf (symbol_name D.op_has D.held_identifier) (holds_table D.op_has) ctx.now.program table))
        (Looks (IsServed (symbol_name D.op_has D.held_identifier) (holds_table D.op_has)
        (used_symbol D.op_has D.held_identifier D.key_of_callee D.place_of_callee ctx.now.program)
        ctx.now.program table) unknown.old user unknown.new) }
{
    if unknown.is_some() || !table.is_live(ctx) || !user.is_live(ctx) {
        return;
    }
    if !is_served(symbols, table, ctx, user) {
        *unknown = Some(user);
    }
}

/// Lemma: what the program tells of the nodes in `root`. It does nothing.
fn know_inside<O, B>(program: &Program<O, B>, root: IRNode)
    requires { IsLiveNode program.now root }
    ensures { IsKnown program.now root }
{
    program.know_lists();
    let _nodes = program.nodes_inside(root);
}

/// An operation of the table that uses what the table doesn't know; none where there is no such operation. Each is looked at
/// once.
pub(crate) fn find_unknown<D: BuiltinDialect>(
    symbols: &Option<SymbolTable>,
    table: Ptr<Operation>,
    ctx: &Context<D>,
) -> Option<Ptr<Operation>>
    requires live { IsSome (operation_at ctx.now.program table) }
    requires symbols { IfSome symbols.now (IsTableOf (symbol_name D.op_has D.held_identifier) (holds_table D.op_has) ctx.now.program table) }
    ensures { MatchOption result
        (KnowsAllUsed (symbol_name D.op_has D.held_identifier) (holds_table D.op_has) (used_symbol D.op_has D.held_identifier D.key_of_callee D.place_of_callee ctx.now.program)
        ctx.now.program table)
        (IsUnknownTo (symbol_name D.op_has D.held_identifier) (holds_table D.op_has) (used_symbol D.op_has D.held_identifier D.key_of_callee D.place_of_callee ctx.now.program)
        ctx.now.program table) }
{
    know_inside(ctx.program(), IRNode::Operation(table));
    let mut unknown = None;
    let look = |_ctx: &Context<D>, unknown: &mut Option<Ptr<Operation>>, user: Ptr<
        Operation,
    >| -> WalkResult<Infallible>
        ensures looks { Offers (IsSome (operation_at ctx.entry.now.program table) × IsSome (operation_at ctx.entry.now.program user)
            × IfSome symbols.entry.now (IsTableOf (symbol_name D.op_has D.held_identifier) (holds_table D.op_has) ctx.entry.now.program table))
            (Looks (IsServed (symbol_name D.op_has D.held_identifier) (holds_table D.op_has)
            (used_symbol D.op_has D.held_identifier D.key_of_callee D.place_of_callee ctx.entry.now.program)
            ctx.entry.now.program table) unknown.old user unknown.new) }
        ensures goes_on { result ≡ Continue Advance }
        ensures symbols { symbols.exit ≡ symbols.entry }
        ensures ctx { ctx.exit ≡ ctx.entry }
    {
        look_at(symbols, table, ctx, unknown, user);
        walk_advance()
    };
    let _end: WalkResult<Infallible> = walk_symbol_table(ctx, &mut unknown, table, look);
    unknown
}
