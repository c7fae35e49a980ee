//! Which operations walks over tables call.
use crate::modules::{Items, NoTypes, PLAIN, append, finish, make, make_module, symbol, table};
use ir_context::{OperationCalls, TypedProgram};
use ir_program::{Operation, Ptr};
use ir_symbols::{SymbolTableErr, walk_symbol_table};
use ir_walks::{WalkResult, walk_advance, walk_break, walk_skip};
use std::alloc::Global;
use std::process::Abort;
use std::test::Fail;

/// The operations that a walk calls, which is sent past what stands in one of them and ends at another.
fn called(
    alloc: Global,
    ctx: &Items,
    op: Ptr<Operation>,
    skipped: Ptr<Operation>,
    last: Ptr<Operation>,
) -> Vec<Ptr<Operation>> {
    let mut ops = Vec::new(alloc);
    let see = |_ctx: &Items, ops: &mut Vec<Ptr<Operation>>, op: Ptr<Operation>| {
        let _pushed = ops.push(op);
        if op == last {
            return walk_break(());
        }
        if op == skipped {
            return walk_skip();
        }
        walk_advance()
    };
    if op.is_live(ctx) {
        let _end: WalkResult<()> = walk_symbol_table(ctx, &mut ops, op, see);
    }
    ops
}

/// Makes a module that holds a function, a module and an operation with a body, and asserts what is called.
fn check(rt: &impl Abort, alloc: Global, ctx: &mut Items) -> Result<(), SymbolTableErr> {
    let outer = make_module(alloc, ctx, table("outer"))?;
    let f = make(alloc, ctx, symbol("f"))?;
    append(ctx, outer.1, f)?;
    let inner = make_module(alloc, ctx, table("inner"))?;
    append(ctx, outer.1, inner.0)?;
    let g = make(alloc, ctx, symbol("g"))?;
    append(ctx, inner.1, g)?;
    let holder = make_module(alloc, ctx, PLAIN)?;
    append(ctx, outer.1, holder.0)?;
    let x = make(alloc, ctx, PLAIN)?;
    append(ctx, holder.1, x)?;
    // Nothing that stands in a nested table is called, but the nested table is.
    let all = called(alloc, ctx, outer.0, g, g);
    assert!(rt; all.as_slice() == [outer.0, f, inner.0, holder.0, x].as_slice());
    let nested = called(alloc, ctx, inner.0, f, f);
    assert!(rt; nested.as_slice() == [inner.0, g].as_slice());
    let skips = called(alloc, ctx, outer.0, holder.0, g);
    assert!(rt; skips.as_slice() == [outer.0, f, inner.0, holder.0].as_slice());
    let breaks = called(alloc, ctx, outer.0, g, f);
    assert!(rt; breaks.as_slice() == [outer.0, f].as_slice());
    Ok(())
}

#[test]
fn nested_tables_are_called_from_outside(rt: HostRuntime) -> Result<(), Fail> {
    let mut ctx: Items = TypedProgram::with_types(rt.alloc(), NoTypes);
    let outcome = check(&rt, rt.alloc(), &mut ctx);
    finish(ctx);
    assert!(rt; outcome.is_ok());
    Ok(())
}
