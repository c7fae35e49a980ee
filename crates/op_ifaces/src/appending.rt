//! Putting operations into regions of one block.
ghost use Rattle.std.specs.Prelude.{◌≡◌, ◌<◌, IsSome, Some, length, slice_get};
ghost use Rattle.ir_program.specs.Edits.{KeepsValues};
ghost use Rattle.ir_program.specs.ListEdits.{PutsOperationLast};
ghost use Rattle.ir_program.specs.Lists.{IsUnlinkedOperation, StandsInOperation, StandsInRegion, StandsInside, blocks_in, regions_in};
ghost use Rattle.ir_program.specs.Program.{operation_at};
ghost use Rattle.ir_program.specs.declared.handles.BasicBlock.{BasicBlock};
ghost use Rattle.ir_program.specs.declared.handles.IRNode.TheVariants.{Operation as OperationNode, BasicBlock as BlockNode};
ghost use Rattle.ir_program.specs.declared.handles.Ptr.{Ptr};
ghost use Rattle.ir_program.specs.declared.handles.Region.{Region};
ghost use Rattle.op_ifaces.specs.Rules.{HasSingleBlocks};

use crate::single_blocks::SingleBlockRegionInterface;
use ir_context::{OperationCalls, OperationLists, RegionCalls, TypeTable, TypedProgram};
use ir_program::{BasicBlock, Operation, Ptr, Region};

/// Tells that an operation that isn't around another one isn't around a block of its regions. It does nothing.
fn lemma_apart<O, B, T: TypeTable>(
    op: Ptr<Operation>,
    region: Ptr<Region>,
    body: Ptr<BasicBlock>,
    outer: Ptr<Operation>,
    ctx: &TypedProgram<O, B, T>,
)
    requires region { StandsInOperation ctx.now.program region op }
    requires body { StandsInRegion ctx.now.program body region }
    requires apart { StandsInside ctx.now.program (OperationNode outer) (OperationNode op) → ⊥ }
    ensures { StandsInside ctx.now.program (OperationNode outer) (BlockNode body) → ⊥ }
{
    let _ = (op, region, body, outer);
    ctx.program().know_lists();
}

impl SingleBlockRegionInterface {
    /// Puts an operation that stands in no block behind those of the block of the region at an index.
    pub fn append_operation<O, B, T: TypeTable>(
        op: Ptr<Operation>,
        ctx: &mut TypedProgram<O, B, T>,
        appended: Ptr<Operation>,
        region: usize,
    )
        requires operation { IsSome (operation_at ctx.old.program op) }
        requires rule { HasSingleBlocks ctx.old.program op }
        requires within { region < length (regions_in ctx.old.program op) }
        requires appended { IsSome (operation_at ctx.old.program appended) }
        requires unlinked { IsUnlinkedOperation ctx.old.program appended }
        requires apart { StandsInside ctx.old.program (OperationNode appended) (OperationNode op) → ⊥ }
        ensures edited { (r : Ptr Region) (b : Ptr BasicBlock) → slice_get (regions_in ctx.old.program op) region ≡ Some r
            → slice_get (blocks_in ctx.old.program r) 0 ≡ Some b
            → PutsOperationLast ctx.old.program ctx.new.program b appended }
        ensures values { KeepsValues ctx.old.program ctx.new.program }
        ensures types { ctx.new.types ≡ ctx.old.types }
    {
        let container = op.get_region(ctx, region);
        let body = match container.get_entry_block(ctx) {
            Some(block) => block,
            None => unreachable!(),
        };
        lemma_apart(op, container, body, appended, ctx);
        appended.insert_at_back(ctx, body);
    }
}
