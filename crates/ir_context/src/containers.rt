//! What stands in blocks and in regions, in order.
ghost use Rattle.std.specs.Prelude.{◌≡◌, ◌≢◌, ◌↔◌, ◌-◌, IsTrue, IsSome, IfSome, All, length, slice_get};
ghost use Rattle.ir_program.specs.declared.handles.Ptr.{Ptr};
ghost use Rattle.ir_program.specs.declared.handles.Operation.{Operation};
ghost use Rattle.ir_program.specs.declared.handles.BasicBlock.{BasicBlock};
ghost use Rattle.ir_program.specs.declared.handles.Region.{Region};
ghost use Rattle.ir_program.specs.declared.handles.IRNode.TheVariants.{Operation as OperationNode, BasicBlock as BlockNode, Region as RegionNode};
ghost use Rattle.ir_program.specs.Program.{block_at, region_at};
ghost use Rattle.ir_program.specs.Lists.{operations_in, blocks_in, StandsInBlock, StandsInRegion, StandsInside, CanAppendOperations, CanAppendBlocks};
ghost use Rattle.ir_program.specs.Edits.{AppendsBlock, AppendsRegion, KeepsValues};

use crate::{TypeTable, TypedProgram};
use ir_program::{BasicBlock, Blocks, IRNode, Operation, Operations, Ptr, Region};

/// A block and the operations that stand in it.
pub trait ContainsOperations {
    /// The handle of the block.
    ghost block: { Self → Ptr BasicBlock };

    /// The first of its operations.
    fn get_head<O, B, T: TypeTable>(self, ctx: &TypedProgram<O, B, T>) -> Option<Ptr<Operation>>
        requires { IsSome (block_at ctx.now.program (block self)) }
        ensures first { result ≡ slice_get (operations_in ctx.now.program (block self)) 0 }
        ensures stands { IfSome result (λ op. StandsInBlock ctx.now.program op (block self)) };

    /// The last of its operations.
    fn get_tail<O, B, T: TypeTable>(self, ctx: &TypedProgram<O, B, T>) -> Option<Ptr<Operation>>
        requires { IsSome (block_at ctx.now.program (block self)) }
        ensures last { result ≡ slice_get (operations_in ctx.now.program (block self))
            (length (operations_in ctx.now.program (block self)) - 1) }
        ensures stands { IfSome result (λ op. StandsInBlock ctx.now.program op (block self)) };

    /// Its operations, first to last, to be taken from either end.
    fn iter<O, B, T: TypeTable>(self, ctx: &TypedProgram<O, B, T>) -> Operations<'_, O, B>
        requires { IsSome (block_at ctx.now.program (block self)) }
        ensures list { result ≡ operations_in ctx.now.program (block self) }
        ensures stand { All (λ op. StandsInBlock ctx.now.program op (block self))
            (operations_in ctx.now.program (block self)) };

    /// Whether all operations of `donor` can be moved behind its own: `donor` is another block, and this one is inside none of them.
    fn can_append<O, B, T: TypeTable>(
        self,
        ctx: &TypedProgram<O, B, T>,
        donor: Ptr<BasicBlock>,
    ) -> bool
        requires donee { IsSome (block_at ctx.now.program (block self)) }
        requires donor { IsSome (block_at ctx.now.program donor) }
        ensures { IsTrue result ↔ CanAppendOperations ctx.now.program (block self) donor };

    /// Moves all operations of `donor` behind its own.
    fn append_linked_list<O, B, T: TypeTable>(
        self,
        ctx: &mut TypedProgram<O, B, T>,
        donor: Ptr<BasicBlock>,
    )
        requires donee { IsSome (block_at ctx.old.program (block self)) }
        requires donor { IsSome (block_at ctx.old.program donor) }
        requires differ { block self ≢ donor }
        requires apart { (op : Ptr Operation) → StandsInBlock ctx.old.program op donor
            → StandsInside ctx.old.program (OperationNode op) (BlockNode (block self)) → ⊥ }
        ensures edited { AppendsBlock ctx.old.program ctx.new.program (block self) donor }
        ensures values { KeepsValues ctx.old.program ctx.new.program }
        ensures types { ctx.new.types ≡ ctx.old.types };
}

impl ContainsOperations for Ptr<BasicBlock> {
    ghost block = { λ p. p };

    fn get_head<O, B, T: TypeTable>(self, ctx: &TypedProgram<O, B, T>) -> Option<Ptr<Operation>> {
        ctx.program.first_operation(self)
    }

    fn get_tail<O, B, T: TypeTable>(self, ctx: &TypedProgram<O, B, T>) -> Option<Ptr<Operation>> {
        ctx.program.last_operation(self)
    }

    fn iter<O, B, T: TypeTable>(self, ctx: &TypedProgram<O, B, T>) -> Operations<'_, O, B> {
        ctx.program.operations(self)
    }

    fn can_append<O, B, T: TypeTable>(
        self,
        ctx: &TypedProgram<O, B, T>,
        donor: Ptr<BasicBlock>,
    ) -> bool {
        let (inner, outer) = (IRNode::BasicBlock(self), IRNode::BasicBlock(donor));
        !ctx.program.is_inside(inner, outer)
    }

    fn append_linked_list<O, B, T: TypeTable>(
        self,
        ctx: &mut TypedProgram<O, B, T>,
        donor: Ptr<BasicBlock>,
    ) {
        ctx.program.append_operations(self, donor);
    }
}

/// A region and the blocks that stand in it.
pub trait ContainsBlocks {
    /// The handle of the region.
    ghost region: { Self → Ptr Region };

    /// The first of its blocks.
    fn get_head<O, B, T: TypeTable>(self, ctx: &TypedProgram<O, B, T>) -> Option<Ptr<BasicBlock>>
        requires { IsSome (region_at ctx.now.program (region self)) }
        ensures first { result ≡ slice_get (blocks_in ctx.now.program (region self)) 0 }
        ensures stands { IfSome result (λ block. StandsInRegion ctx.now.program block (region self)) };

    /// The last of its blocks.
    fn get_tail<O, B, T: TypeTable>(self, ctx: &TypedProgram<O, B, T>) -> Option<Ptr<BasicBlock>>
        requires { IsSome (region_at ctx.now.program (region self)) }
        ensures last { result ≡ slice_get (blocks_in ctx.now.program (region self))
            (length (blocks_in ctx.now.program (region self)) - 1) }
        ensures stands { IfSome result (λ block. StandsInRegion ctx.now.program block (region self)) };

    /// Its blocks, first to last, to be taken from either end.
    fn iter<O, B, T: TypeTable>(self, ctx: &TypedProgram<O, B, T>) -> Blocks<'_, O, B>
        requires { IsSome (region_at ctx.now.program (region self)) }
        ensures list { result ≡ blocks_in ctx.now.program (region self) }
        ensures stand { All (λ block. StandsInRegion ctx.now.program block (region self))
            (blocks_in ctx.now.program (region self)) };

    /// Whether all blocks of `donor` can be moved behind its own: `donor` is another region, and this one is inside none of them.
    fn can_append<O, B, T: TypeTable>(self, ctx: &TypedProgram<O, B, T>, donor: Ptr<Region>) -> bool
        requires donee { IsSome (region_at ctx.now.program (region self)) }
        requires donor { IsSome (region_at ctx.now.program donor) }
        ensures { IsTrue result ↔ CanAppendBlocks ctx.now.program (region self) donor };

    /// Moves all blocks of `donor` behind its own.
    fn append_linked_list<O, B, T: TypeTable>(
        self,
        ctx: &mut TypedProgram<O, B, T>,
        donor: Ptr<Region>,
    )
        requires donee { IsSome (region_at ctx.old.program (region self)) }
        requires donor { IsSome (region_at ctx.old.program donor) }
        requires differ { region self ≢ donor }
        requires apart { (block : Ptr BasicBlock) → StandsInRegion ctx.old.program block donor
            → StandsInside ctx.old.program (BlockNode block) (RegionNode (region self)) → ⊥ }
        ensures edited { AppendsRegion ctx.old.program ctx.new.program (region self) donor }
        ensures values { KeepsValues ctx.old.program ctx.new.program }
        ensures types { ctx.new.types ≡ ctx.old.types };
}

impl ContainsBlocks for Ptr<Region> {
    ghost region = { λ p. p };

    fn get_head<O, B, T: TypeTable>(self, ctx: &TypedProgram<O, B, T>) -> Option<Ptr<BasicBlock>> {
        ctx.program.first_block(self)
    }

    fn get_tail<O, B, T: TypeTable>(self, ctx: &TypedProgram<O, B, T>) -> Option<Ptr<BasicBlock>> {
        ctx.program.last_block(self)
    }

    fn iter<O, B, T: TypeTable>(self, ctx: &TypedProgram<O, B, T>) -> Blocks<'_, O, B> {
        ctx.program.blocks(self)
    }

    fn can_append<O, B, T: TypeTable>(
        self,
        ctx: &TypedProgram<O, B, T>,
        donor: Ptr<Region>,
    ) -> bool {
        let (inner, outer) = (IRNode::Region(self), IRNode::Region(donor));
        !ctx.program.is_inside(inner, outer)
    }

    fn append_linked_list<O, B, T: TypeTable>(
        self,
        ctx: &mut TypedProgram<O, B, T>,
        donor: Ptr<Region>,
    ) {
        ctx.program.append_blocks(self, donor);
    }
}
