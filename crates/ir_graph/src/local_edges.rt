//! Whether the edges of the blocks of a region stay in it.
ghost use Rattle.std.specs.Prelude.{◌↔◌, Contains, IsSome, IsTrue};
ghost use Rattle.ir_program.specs.Program.{operation_at, block_at, region_at};
ghost use Rattle.ir_program.specs.Lists.{blocks_in};
ghost use Rattle.ir_program.specs.Order.{edges_listed};
ghost use Rattle.ir_program.specs.Uses.{AreBlockUses};
ghost use Rattle.ir_graph.specs.Regions.{IsOperationOf, LeadsInside, IsEnteredInside, IsTerminatorIfLeads, IsLeftInside, HasLocalEdges, IsBlockGraph};

use ir_context::Context;
use ir_program::{BasicBlock, Operation, Program, Ptr, Region};
use ir_queries::BlockEdges;
use ir_types::DialectTables;

/// Whether a block is one of the region's.
fn is_block_of<O, B>(program: &Program<O, B>, block: Ptr<BasicBlock>, region: Ptr<Region>) -> bool
    requires { IsSome (block_at program.now block) }
    ensures { IsTrue result ↔ Contains (blocks_in program.now region) block }
{
    program.know_lists();
    program.parent_region(block) == Some(region)
}

/// Whether an operation is in a block of the region.
fn is_operation_of<O, B>(program: &Program<O, B>, op: Ptr<Operation>, region: Ptr<Region>) -> bool
    requires { IsSome (operation_at program.now op) }
    ensures { IsTrue result ↔ IsOperationOf program.now region op }
{
    program.know_lists();
    match program.parent_block(op) {
        Some(block) => is_block_of(program, block, region),
        None => false,
    }
}

/// Whether the successors of an operation are blocks of the region.
fn leads_inside<O, B>(program: &Program<O, B>, op: Ptr<Operation>, region: Ptr<Region>) -> bool
    requires { IsSome (operation_at program.now op) }
    ensures { IsTrue result ↔ LeadsInside program.now region op }
{
    for i in 0..program.successor_count(op) {
        if !is_block_of(program, program.successor(op, i), region) {
            return false;
        }
    }
    true
}

/// Whether an operation of a block has successors only as its terminator.
fn is_terminator_if_leads<D: DialectTables>(
    ctx: &Context<D>,
    block: Ptr<BasicBlock>,
    op: Ptr<Operation>,
) -> bool
    requires block { IsSome (block_at ctx.now.program block) }
    requires operation { IsSome (operation_at ctx.now.program op) }
    ensures { IsTrue result ↔ IsTerminatorIfLeads D.op_has ctx.now.program block op }
{
    ctx.program().successor_count(op) == 0 || block.get_terminator(ctx) == Some(op)
}

/// Whether in a block only the terminator has successors, and these are blocks of the region.
fn is_left_inside<D: DialectTables>(
    ctx: &Context<D>,
    block: Ptr<BasicBlock>,
    region: Ptr<Region>,
) -> bool
    requires { IsSome (block_at ctx.now.program block) }
    ensures { IsTrue result ↔ IsLeftInside D.op_has ctx.now.program region block }
{
    let program = ctx.program();
    for op in program.operations(block) {
        if !is_terminator_if_leads(ctx, block, op) {
            return false;
        }
        if !leads_inside(program, op, region) {
            return false;
        }
    }
    true
}

/// Whether the operations that have a block as a successor are in blocks of the region.
fn is_entered_inside<O, B>(
    program: &Program<O, B>,
    block: Ptr<BasicBlock>,
    region: Ptr<Region>,
) -> bool
    requires { IsSome (block_at program.now block) }
    ensures entered { IsTrue result ↔ IsEnteredInside program.now region block }
    ensures listed { AreBlockUses program.now block (edges_listed program.now block) }
{
    for edge in program.block_uses(block) {
        if !is_operation_of(program, edge.user_op, region) {
            return false;
        }
    }
    true
}

/// Whether the blocks of a region are a graph of control flow: in the region only terminators have successors, these are
/// blocks of the region, and no operation outside has a block of the region as a successor.
///
/// In time linear in the operations of the region's blocks and the edges to these. It asks for no memory.
pub fn has_local_edges<D: DialectTables>(region: Ptr<Region>, ctx: &Context<D>) -> bool
    requires { IsSome (region_at ctx.now.program region) }
    ensures exact { IsTrue result ↔ HasLocalEdges D.op_has ctx.now.program region }
    ensures graph { IsTrue result → IsBlockGraph D.op_has ctx.now.program region }
{
    let program = ctx.program();
    program.know_lists();
    for block in program.blocks(region) {
        if !is_left_inside(ctx, block, region) {
            return false;
        }
        if !is_entered_inside(program, block, region) {
            return false;
        }
    }
    true
}
