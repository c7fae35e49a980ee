//! Look-ups in tables that are kept.
use crate::modules::{
    Items, NoTypes, PLAIN, append, change, finish, make, make_module, symbol, table,
};
use ir_context::{OperationCalls, TypedProgram};
use ir_program::{BasicBlock, Operation, Ptr};
use ir_symbols::{SymbolTableCollection, SymbolTableErr, single_block};
use std::alloc::Global;
use std::process::Abort;
use std::test::Fail;

/// What a name means at an operation, by tables that are kept.
fn meant(
    tables: &mut SymbolTableCollection,
    ctx: &Items,
    op: Ptr<Operation>,
    name: &str,
) -> Result<Option<Ptr<Operation>>, SymbolTableErr> {
    if op.is_live(ctx) {
        return tables.lookup_symbol_in_nearest_table(ctx, op, name);
    }
    Err(SymbolTableErr::WrongParent)
}

/// The symbol of an operation's table, by tables that are kept.
fn found(
    tables: &mut SymbolTableCollection,
    ctx: &Items,
    op: Ptr<Operation>,
    name: &str,
) -> Result<Option<Ptr<Operation>>, SymbolTableErr> {
    if op.is_live(ctx) {
        return tables.lookup_symbol_in_table(ctx, op, name);
    }
    Err(SymbolTableErr::WrongParent)
}

/// The same, by the table itself.
fn has(
    tables: &mut SymbolTableCollection,
    ctx: &Items,
    op: Ptr<Operation>,
    name: &str,
) -> Result<bool, SymbolTableErr> {
    if op.is_live(ctx) {
        if let Some(_body) = single_block(ctx, op) {
            tables.make_symbol_table(ctx, op)?;
            return Ok(match tables.symbol_table(op) {
                Some(table) => table.lookup(name).is_some(),
                None => false,
            });
        }
    }
    Err(SymbolTableErr::WrongParent)
}

/// Asserts what names mean in a module inside another.
fn check_nested(
    rt: &impl Abort,
    alloc: Global,
    ctx: &mut Items,
    tables: &mut SymbolTableCollection,
    outer: (Ptr<Operation>, Ptr<BasicBlock>),
    inner: (Ptr<Operation>, Ptr<BasicBlock>),
) -> Result<(), SymbolTableErr> {
    let f = make(alloc, ctx, symbol("f"))?;
    append(ctx, outer.1, f)?;
    append(ctx, outer.1, inner.0)?;
    let own = make(alloc, ctx, symbol("f"))?;
    append(ctx, inner.1, own)?;
    let call = make(alloc, ctx, PLAIN)?;
    append(ctx, inner.1, call)?;
    assert!(rt; meant(tables, ctx, call, "f") == Ok(Some(own)));
    assert!(rt; meant(tables, ctx, f, "f") == Ok(Some(f)));
    assert!(rt; meant(tables, ctx, call, "inner") == Ok(None));
    assert!(rt; found(tables, ctx, outer.0, "inner") == Ok(Some(inner.0)));
    assert!(rt; has(tables, ctx, inner.0, "f") == Ok(true));
    // The tables are kept: what is changed beside them shows once they are forgotten.
    change(ctx, own, symbol("g"));
    assert!(rt; meant(tables, ctx, call, "f") == Ok(Some(own)));
    assert!(rt; tables.invalidate(inner.0));
    assert!(rt; !tables.invalidate(inner.0));
    assert!(rt; meant(tables, ctx, call, "f") == Ok(None));
    assert!(rt; meant(tables, ctx, call, "g") == Ok(Some(own)));
    Ok(())
}

/// Asserts that what has no table is refused, and none is kept of it.
fn check_refused(
    rt: &impl Abort,
    alloc: Global,
    ctx: &mut Items,
    tables: &mut SymbolTableCollection,
) -> Result<(), SymbolTableErr> {
    let (twice, body) = make_module(alloc, ctx, table("twice"))?;
    let first = make(alloc, ctx, symbol("a"))?;
    let second = make(alloc, ctx, symbol("a"))?;
    append(ctx, body, first)?;
    append(ctx, body, second)?;
    assert!(rt; meant(tables, ctx, first, "a") == Err(SymbolTableErr::SymbolRedefined));
    assert!(rt; tables.symbol_table(twice).is_none());
    change(ctx, second, symbol("b"));
    assert!(rt; meant(tables, ctx, first, "b") == Ok(Some(second)));
    assert!(rt; tables.symbol_table(twice).is_some());
    let none = found(tables, ctx, first, "a");
    assert!(rt; none == Err(SymbolTableErr::DoesNotImplementSymbolTableInterface));
    let empty = make(alloc, ctx, table("empty"))?;
    assert!(rt; found(tables, ctx, empty, "a") == Ok(None));
    assert!(rt; meant(tables, ctx, empty, "a") == Ok(None));
    let alone = make(alloc, ctx, PLAIN)?;
    assert!(rt; meant(tables, ctx, alone, "a") == Ok(None));
    Ok(())
}

/// Makes modules and asserts what is found in their tables.
fn check(rt: &impl Abort, alloc: Global, ctx: &mut Items) -> Result<(), SymbolTableErr> {
    let outer = make_module(alloc, ctx, table("outer"))?;
    let inner = make_module(alloc, ctx, table("inner"))?;
    let mut tables = SymbolTableCollection::new(alloc);
    check_nested(rt, alloc, ctx, &mut tables, outer, inner)?;
    check_refused(rt, alloc, ctx, &mut tables)
}

#[test]
fn tables_are_kept(rt: HostRuntime) -> Result<(), Fail> {
    let mut ctx: Items = TypedProgram::with_types(rt.alloc(), NoTypes);
    let outcome = check(&rt, rt.alloc(), &mut ctx);
    finish(ctx);
    assert!(rt; outcome.is_ok());
    Ok(())
}
