//! Symbols that come, are renamed and go.
use crate::modules::{
    Items, NoTypes, PLAIN, append, change, erase, finish, insert, make, make_module, symbol, table,
    table_of,
};
use ir_context::{OperationCalls, TypedProgram};
use ir_program::{Operation, Ptr};
use ir_symbols::{SymbolTable, SymbolTableErr, lookup_symbol, nearest_symbol_table, scan};
use std::alloc::Global;
use std::process::Abort;
use std::test::Fail;

/// What a scan of an operation's block finds.
fn scanned(ctx: &Items, op: Ptr<Operation>, name: &str) -> Option<Ptr<Operation>> {
    if op.is_live(ctx) {
        return scan(ctx, op, name);
    }
    None
}

/// What a name means at an operation.
fn meant(ctx: &Items, op: Ptr<Operation>, name: &str) -> Option<Ptr<Operation>> {
    if op.is_live(ctx) {
        return lookup_symbol(ctx, op, name);
    }
    None
}

/// The nearest table around an operation.
fn nearest(ctx: &Items, op: Ptr<Operation>) -> Option<Ptr<Operation>> {
    if op.is_live(ctx) {
        return nearest_symbol_table(ctx, op);
    }
    None
}

/// Asserts what a table takes and refuses.
fn check_insertions(
    rt: &impl Abort,
    alloc: Global,
    ctx: &mut Items,
    names: &mut SymbolTable,
) -> Result<(), SymbolTableErr> {
    let f = make(alloc, ctx, symbol("f"))?;
    let g = make(alloc, ctx, symbol("g"))?;
    insert(names, ctx, f, None)?;
    insert(names, ctx, g, Some(f))?;
    assert!(rt; names.lookup("f") == Some(f));
    assert!(rt; names.lookup("g") == Some(g));
    assert!(rt; names.lookup("h").is_none());
    let other = make(alloc, ctx, symbol("f"))?;
    let again = insert(names, ctx, other, None);
    assert!(rt; again == Err(SymbolTableErr::SymbolRedefined));
    let plain = make(alloc, ctx, PLAIN)?;
    let unnamed = insert(names, ctx, plain, None);
    assert!(rt; unnamed == Err(SymbolTableErr::DoesNotImplementSymbolOpInterface));
    let nowhere = insert(names, ctx, g, Some(plain));
    assert!(rt; nowhere == Err(SymbolTableErr::WrongInsertionPoint));
    Ok(())
}

/// Asserts what a table has of a symbol that is renamed, taken out, put in again and erased.
fn check_changes(
    rt: &impl Abort,
    alloc: Global,
    ctx: &mut Items,
    names: &mut SymbolTable,
) -> Result<(), SymbolTableErr> {
    let op = make(alloc, ctx, symbol("old"))?;
    insert(names, ctx, op, None)?;
    change(ctx, op, symbol("new"));
    assert!(rt; names.lookup("old") == Some(op));
    assert!(rt; names.lookup("new").is_none());
    insert(names, ctx, op, None)?;
    assert!(rt; names.lookup("new") == Some(op));
    assert!(rt; names.remove(op));
    assert!(rt; names.lookup("old").is_none());
    assert!(rt; names.lookup("new").is_none());
    assert!(rt; !names.remove(op));
    insert(names, ctx, op, None)?;
    assert!(rt; scanned(ctx, names.op(), "new") == Some(op));
    assert!(rt; erase(names, ctx, op));
    assert!(rt; names.lookup("new").is_none());
    assert!(rt; !op.is_live(ctx));
    assert!(rt; names.lookup("f").is_some());
    Ok(())
}

/// Asserts which operations have no table, and what can't be put into one.
fn check_refusals(
    rt: &impl Abort,
    alloc: Global,
    ctx: &mut Items,
    names: &mut SymbolTable,
) -> Result<(), SymbolTableErr> {
    let (twice, body) = make_module(alloc, ctx, table("twice"))?;
    let first = make(alloc, ctx, symbol("a"))?;
    let second = make(alloc, ctx, symbol("a"))?;
    append(ctx, body, first)?;
    append(ctx, body, second)?;
    let repeats = table_of(alloc, ctx, twice).err();
    assert!(rt; repeats == Some(SymbolTableErr::SymbolRedefined));
    assert!(rt; scanned(ctx, twice, "a") == Some(first));
    let (holder, _) = make_module(alloc, ctx, symbol("holder"))?;
    let none = table_of(alloc, ctx, holder).err();
    assert!(rt; none == Some(SymbolTableErr::DoesNotImplementSymbolTableInterface));
    let elsewhere = insert(names, ctx, first, None);
    assert!(rt; elsewhere == Err(SymbolTableErr::WrongParent));
    Ok(())
}

/// Asserts what names mean in a table inside another.
fn check_nested(
    rt: &impl Abort,
    alloc: Global,
    ctx: &mut Items,
    names: &mut SymbolTable,
) -> Result<(), SymbolTableErr> {
    let (inner, body) = make_module(alloc, ctx, table("inner"))?;
    insert(names, ctx, inner, None)?;
    let plain = make(alloc, ctx, PLAIN)?;
    append(ctx, body, plain)?;
    assert!(rt; nearest(ctx, plain) == Some(inner));
    assert!(rt; nearest(ctx, inner) == Some(inner));
    assert!(rt; meant(ctx, plain, "f").is_none());
    let f = make(alloc, ctx, symbol("f"))?;
    append(ctx, body, f)?;
    assert!(rt; meant(ctx, plain, "f") == Some(f));
    assert!(rt; meant(ctx, names.op(), "inner") == Some(inner));
    Ok(())
}

/// Makes a module and asserts what its table does.
fn check(rt: &impl Abort, alloc: Global, ctx: &mut Items) -> Result<(), SymbolTableErr> {
    let (module, body) = make_module(alloc, ctx, table("module"))?;
    let mut names = table_of(alloc, ctx, module)?;
    assert!(rt; names.body() == body);
    check_insertions(rt, alloc, ctx, &mut names)?;
    check_changes(rt, alloc, ctx, &mut names)?;
    check_refusals(rt, alloc, ctx, &mut names)?;
    check_nested(rt, alloc, ctx, &mut names)
}

#[test]
fn tables_follow_their_blocks(rt: HostRuntime) -> Result<(), Fail> {
    let mut ctx: Items = TypedProgram::with_types(rt.alloc(), NoTypes);
    let outcome = check(&rt, rt.alloc(), &mut ctx);
    finish(ctx);
    assert!(rt; outcome.is_ok());
    Ok(())
}
