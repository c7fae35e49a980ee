//! Making in a fresh context, whose numbers are all left: what is refused is refused for want of memory.
ghost use Rattle.std.specs.Prelude.{◌≡◌, IfOk, OnOk, IsSome};
ghost use Rattle.ir_program.specs.Program.{operation_at};

use ir_core::{
    BasicBlock, Context, GrowError, NewBlock, NewOperation, Operation, Ptr, Region, Room,
};
use ir_scripts::finish;
use ir_scripts::tiny::{Tiny, TinyOp};
use std::alloc::{AllocError, Global};
use std::test::Fail;

/// An operation without results, operands, successors and regions.
fn make_operation(alloc: Global, ctx: &mut Context<Tiny>) -> Result<Ptr<Operation>, AllocError>
    requires { ctx.old.program.counter ≡ 0 }
    ensures there { IfOk result (λ op. IsSome (operation_at ctx.new.program op)) }
    ensures numbers { OnOk result (ctx.new.program.counter ≡ 0) }
{
    match Operation::new(alloc, ctx, TinyOp::Def, &[], &[], &[], 0) {
        Ok(op) => Ok(op),
        Err(GrowError::Memory) => Err(AllocError),
        Err(GrowError::CounterFull) => unreachable!(),
    }
}

/// A region of an operation.
fn make_region(ctx: &mut Context<Tiny>, op: Ptr<Operation>) -> Result<Ptr<Region>, AllocError>
    requires op { IsSome (operation_at ctx.old.program op) }
    requires numbers { ctx.old.program.counter ≡ 0 }
    ensures numbers { OnOk result (ctx.new.program.counter ≡ 0) }
{
    ctx.add_region(op)
}

/// A block without a label and arguments.
fn make_block(alloc: Global, ctx: &mut Context<Tiny>) -> Result<Ptr<BasicBlock>, AllocError>
    requires { ctx.old.program.counter ≡ 0 }
    ensures numbers { OnOk result (ctx.new.program.counter ≡ 0) }
{
    match BasicBlock::new(alloc, ctx, None, &[]) {
        Ok(block) => Ok(block),
        Err(GrowError::Memory) => Err(AllocError),
        Err(GrowError::CounterFull) => unreachable!(),
    }
}

/// One thing of each sort after the other, in a context whose numbers are all left.
fn make_each(alloc: Global, ctx: &mut Context<Tiny>) -> Result<(), AllocError>
    requires { ctx.old.program.counter ≡ 0 }
{
    let op = make_operation(alloc, ctx)?;
    make_region(ctx, op)?;
    make_block(alloc, ctx)?;
    make_operation(alloc, ctx)?;
    Ok(())
}

#[test]
fn a_fresh_context_has_numbers(rt: HostRuntime) -> Result<(), Fail> {
    let mut ctx: Context<Tiny> = Context::new(rt.alloc());
    let outcome = make_each(rt.alloc(), &mut ctx);
    finish(ctx);
    assert!(rt; outcome.is_ok());
    Ok(())
}

/// Room for one thing of each sort.
fn make_room(ctx: &mut Context<Tiny>) -> Result<(), AllocError> {
    ctx.reserve(Room {
        operations: 1,
        regions: 1,
        blocks: 1,
        values: 1,
        operands: 1,
        successors: 1,
    })
}

#[test]
fn room_is_made_where_memory_is_ample(rt: HostRuntime) -> Result<(), Fail> {
    let mut ctx: Context<Tiny> = Context::new(rt.alloc());
    let made = make_room(&mut ctx);
    finish(ctx);
    assert!(rt; made.is_ok());
    Ok(())
}
