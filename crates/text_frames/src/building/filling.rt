//! Regions that get blocks.
ghost use Rattle.std.specs.Prelude.{◌≡◌, length};
ghost use Rattle.text_dialect.specs.Seen.{seen};
ghost use Rattle.text_frames.specs.building.Kept.{GivesNumbers};
ghost use Rattle.text_frames.specs.building.Loose.{ListsAreApart, AreAllLoose, AreDistinctHandles, AreLooseBlocks, HasLooseHolder, IsLooseOperation, regions_of};
ghost use Rattle.text_frames.specs.building.Made.{FillsRegion, FillsRegions, lists_of};

use ir_context::{BlockLists, Context, OperationCalls};
use ir_program::{BasicBlock, Operation, Ptr, Region};
use ir_types::DialectTables;

/// Puts blocks that are in no region at the end of a region of an operation that is in no block, in their order.
fn fill_region<D: DialectTables>(
    ctx: &mut Context<D>,
    region: Ptr<Region>,
    blocks: &[Ptr<BasicBlock>],
)
    requires holder { HasLooseHolder (seen ctx.old) region }
    requires loose { AreLooseBlocks (seen ctx.old) blocks.now }
    requires distinct { AreDistinctHandles blocks.now }
    ensures filled { FillsRegion (seen ctx.old) (seen ctx.new) region blocks.now }
    ensures numbers { GivesNumbers ctx.old.program ctx.new.program 0 }
    ensures types { ctx.new.types ≡ ctx.old.types }
{
    for block in blocks {
        ctx.program().know_lists();
        block.insert_at_back(ctx, region);
    }
}

/// Puts the blocks of each list, which are in no region, at the end of the region at its index of an operation that
/// is in no block.
pub fn fill_regions<D: DialectTables>(
    ctx: &mut Context<D>,
    op: Ptr<Operation>,
    lists: &[Vec<Ptr<BasicBlock>>],
)
    requires op { IsLooseOperation (seen ctx.old) op }
    requires count { length (regions_of (seen ctx.old) op) ≡ length lists.now }
    requires loose { AreAllLoose (seen ctx.old) (lists_of lists.now) }
    requires apart { ListsAreApart (lists_of lists.now) }
    ensures filled { FillsRegions (seen ctx.old) (seen ctx.new) (regions_of (seen ctx.old) op) (lists_of lists.now) }
    ensures numbers { GivesNumbers ctx.old.program ctx.new.program 0 }
    ensures types { ctx.new.types ≡ ctx.old.types }
{
    for (index, blocks) in lists.iter().enumerate() {
        ctx.program().know_lists();
        let region = op.get_region(ctx, index);
        fill_region(ctx, region, blocks);
    }
}
