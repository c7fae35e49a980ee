//! Taking blocks out with all that is in them.
ghost use Rattle.std.specs.Prelude.{◌≡◌, true, IsSome};
ghost use Rattle.ir_program.specs.Lists.{IsLiveNode};
ghost use Rattle.ir_program.specs.Program.{block_at};
ghost use Rattle.ir_program.specs.declared.handles.BasicBlock.{BasicBlock};
ghost use Rattle.ir_program.specs.declared.handles.IRNode.TheVariants.{BasicBlock as BlockNode};
ghost use Rattle.ir_program.specs.declared.handles.Ptr.{Ptr};
ghost use Rattle.ir_trees.specs.Searched.{AreDistinct};
ghost use Rattle.opt_simplify.specs.Removed.{ArePickedApart, DecidesInsideBlock, DropsPickedBlocks, ErasesPickedBlocks, NamesNoneOfBlocks, NamesWithin, is_listed};

use ir_context::{BlockErasing, TypeTable, TypedProgram};
use ir_program::{BasicBlock, IRNode, Program, Ptr};

/// Tells that each operation, block and region is inside a block or isn't. It does nothing.
pub(crate) fn know_inside<O, B>(program: &Program<O, B>, block: Ptr<BasicBlock>)
    requires { IsSome (block_at program.now block) }
    ensures { DecidesInsideBlock program.now block }
{
    let _inside = program.nodes_inside(IRNode::BasicBlock(block));
}

/// Takes all operands and successors of all operations in these blocks away. No memory is asked for.
fn drop_uses<O, B, T: TypeTable>(ctx: &mut TypedProgram<O, B, T>, blocks: &[Ptr<BasicBlock>])
    requires { (b : Ptr BasicBlock) → is_listed blocks.now b ≡ true → IsLiveNode ctx.old.program (BlockNode b) }
    ensures dropped { DropsPickedBlocks ctx.old.program ctx.new.program (is_listed blocks.now) }
    ensures numbers { ctx.new.program.counter ≡ ctx.old.program.counter }
    ensures types { ctx.new.types ≡ ctx.old.types }
{
    for block in blocks {
        know_inside(ctx.program(), *block);
        block.drop_all_uses(ctx);
    }
}

/// Erases these blocks with all that is in them; none stands in another. No memory is asked for.
fn erase_all<O: Drop, B: Drop, T: TypeTable>(
    ctx: &mut TypedProgram<O, B, T>,
    blocks: &[Ptr<BasicBlock>],
)
    requires there { (b : Ptr BasicBlock) → is_listed blocks.now b ≡ true → IsLiveNode ctx.old.program (BlockNode b) }
    requires once { AreDistinct blocks.now }
    requires apart { ArePickedApart ctx.old.program (is_listed blocks.now) }
    requires unnamed { NamesNoneOfBlocks ctx.old.program (is_listed blocks.now) }
    ensures erased { ErasesPickedBlocks ctx.old.program ctx.new.program (is_listed blocks.now) }
    ensures numbers { ctx.new.program.counter ≡ ctx.old.program.counter }
    ensures types { ctx.new.types ≡ ctx.old.types }
{
    ctx.program().know_lists();
    for block in blocks {
        ctx.program().know_lists();
        know_inside(ctx.program(), *block);
        block.erase(ctx);
    }
}

/// Takes these blocks out with all that is in them, which is named there alone; none stands in another. No memory is asked
/// for.
pub(crate) fn remove_blocks<O: Drop, B: Drop, T: TypeTable>(
    ctx: &mut TypedProgram<O, B, T>,
    blocks: &[Ptr<BasicBlock>],
)
    requires there { (b : Ptr BasicBlock) → is_listed blocks.now b ≡ true → IsLiveNode ctx.old.program (BlockNode b) }
    requires once { AreDistinct blocks.now }
    requires apart { ArePickedApart ctx.old.program (is_listed blocks.now) }
    requires named { NamesWithin ctx.old.program (is_listed blocks.now) }
    ensures removed { ErasesPickedBlocks ctx.old.program ctx.new.program (is_listed blocks.now) }
    ensures numbers { ctx.new.program.counter ≡ ctx.old.program.counter }
    ensures types { ctx.new.types ≡ ctx.old.types }
{
    drop_uses(ctx, blocks);
    erase_all(ctx, blocks);
}
