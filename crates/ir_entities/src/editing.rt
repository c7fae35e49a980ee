//! Changes of what stands where: operations in blocks, blocks in regions, regions in operations.

ghost use Rattle.std.specs.Prelude.{◌≡◌, ◌≢◌, ℕ, true, ◌++◌, ◌∷◌, [], map, IsSome, slice_set};
ghost use Rattle.ir_arena.specs.Arena.{get};
ghost use Rattle.ir_entities.specs.Links.{IsLinked, list_at, has, put_after, put_before, without};
ghost use Rattle.ir_entities.specs.Shape.{IsInside};
ghost use Rattle.ir_entities.specs.Forest.{IsRootOp, IsRootBlock, IsRootRegion, shape_of};
ghost use Rattle.ir_entities.specs.declared.forest.Place.TheVariants.{Op, Block, Region};

use crate::forest::Forest;
use ir_arena::Key;

impl<O, B, R> Forest<O, B, R> {
    /// Puts an operation before all others of a block.
    pub fn insert_op_at_front(&mut self, block: Key, op: Key)
        requires block { IsSome (get self.old.blocks block) }
        requires op { IsSome (get self.old.ops op) }
        requires root { IsRootOp self.old op }
        requires apart { IsInside (shape_of self.old) (Op op.slot) (Block block.slot) → ⊥ }
        ensures lists { self.new.in_blocks.lists ≡ slice_set self.old.in_blocks.lists block.slot
            (op.slot ∷ list_at self.old.in_blocks.lists block.slot) }
        ensures rest { self.new ≡ record self.old { in_blocks = self.new.in_blocks } }
    {
        self.in_blocks.insert_at_front(block.slot, op.slot);
    }

    /// Puts an operation after all others of a block.
    pub fn insert_op_at_back(&mut self, block: Key, op: Key)
        requires block { IsSome (get self.old.blocks block) }
        requires op { IsSome (get self.old.ops op) }
        requires root { IsRootOp self.old op }
        requires apart { IsInside (shape_of self.old) (Op op.slot) (Block block.slot) → ⊥ }
        ensures lists { self.new.in_blocks.lists ≡ slice_set self.old.in_blocks.lists block.slot
            (list_at self.old.in_blocks.lists block.slot ++ op.slot ∷ []) }
        ensures rest { self.new ≡ record self.old { in_blocks = self.new.in_blocks } }
    {
        self.in_blocks.insert_at_back(block.slot, op.slot);
    }

    /// Puts an operation right after `mark`.
    pub fn insert_op_after(&mut self, mark: Key, op: Key)
        requires mark { IsSome (get self.old.ops mark) }
        requires op { IsSome (get self.old.ops op) }
        requires linked { IsLinked self.old.in_blocks.lists mark.slot }
        requires root { IsRootOp self.old op }
        requires apart { IsInside (shape_of self.old) (Op op.slot) (Op mark.slot) → ⊥ }
        ensures lists { self.new.in_blocks.lists ≡ map (put_after mark.slot op.slot) self.old.in_blocks.lists }
        ensures rest { self.new ≡ record self.old { in_blocks = self.new.in_blocks } }
    {
        self.in_blocks.insert_after(mark.slot, op.slot);
    }

    /// Puts an operation right before `mark`.
    pub fn insert_op_before(&mut self, mark: Key, op: Key)
        requires mark { IsSome (get self.old.ops mark) }
        requires op { IsSome (get self.old.ops op) }
        requires linked { IsLinked self.old.in_blocks.lists mark.slot }
        requires root { IsRootOp self.old op }
        requires apart { IsInside (shape_of self.old) (Op op.slot) (Op mark.slot) → ⊥ }
        ensures lists { self.new.in_blocks.lists ≡ map (put_before mark.slot op.slot) self.old.in_blocks.lists }
        ensures rest { self.new ≡ record self.old { in_blocks = self.new.in_blocks } }
    {
        self.in_blocks.insert_before(mark.slot, op.slot);
    }

    /// Takes an operation out of the block it stands in, and leaves all that it holds in it.
    pub fn unlink_op(&mut self, op: Key)
        requires op { IsSome (get self.old.ops op) }
        requires linked { IsLinked self.old.in_blocks.lists op.slot }
        ensures lists { self.new.in_blocks.lists ≡ map (without op.slot) self.old.in_blocks.lists }
        ensures root { IsRootOp self.new op }
        ensures rest { self.new ≡ record self.old { in_blocks = self.new.in_blocks } }
    {
        self.in_blocks.unlink(op.slot);
    }

    /// Moves all operations of the block `donor` behind those of the block `donee`.
    pub fn append_ops(&mut self, donee: Key, donor: Key)
        requires donee { IsSome (get self.old.blocks donee) }
        requires donor { IsSome (get self.old.blocks donor) }
        requires differ { donee.slot ≢ donor.slot }
        requires apart { (i : ℕ) → has i (list_at self.old.in_blocks.lists donor.slot) ≡ true
            → IsInside (shape_of self.old) (Op i) (Block donee.slot) → ⊥ }
        ensures lists { self.new.in_blocks.lists ≡ slice_set
            (slice_set self.old.in_blocks.lists donee.slot
            (list_at self.old.in_blocks.lists donee.slot ++ list_at self.old.in_blocks.lists donor.slot))
            donor.slot [] }
        ensures rest { self.new ≡ record self.old { in_blocks = self.new.in_blocks } }
    {
        self.in_blocks.append(donee.slot, donor.slot);
    }

    /// Puts a block before all others of a region.
    pub fn insert_block_at_front(&mut self, region: Key, block: Key)
        requires region { IsSome (get self.old.regions region) }
        requires block { IsSome (get self.old.blocks block) }
        requires root { IsRootBlock self.old block }
        requires apart { IsInside (shape_of self.old) (Block block.slot) (Region region.slot) → ⊥ }
        ensures lists { self.new.in_regions.lists ≡ slice_set self.old.in_regions.lists region.slot
            (block.slot ∷ list_at self.old.in_regions.lists region.slot) }
        ensures rest { self.new ≡ record self.old { in_regions = self.new.in_regions } }
    {
        self.in_regions.insert_at_front(region.slot, block.slot);
    }

    /// Puts a block after all others of a region.
    pub fn insert_block_at_back(&mut self, region: Key, block: Key)
        requires region { IsSome (get self.old.regions region) }
        requires block { IsSome (get self.old.blocks block) }
        requires root { IsRootBlock self.old block }
        requires apart { IsInside (shape_of self.old) (Block block.slot) (Region region.slot) → ⊥ }
        ensures lists { self.new.in_regions.lists ≡ slice_set self.old.in_regions.lists region.slot
            (list_at self.old.in_regions.lists region.slot ++ block.slot ∷ []) }
        ensures rest { self.new ≡ record self.old { in_regions = self.new.in_regions } }
    {
        self.in_regions.insert_at_back(region.slot, block.slot);
    }

    /// Puts a block right after `mark`.
    pub fn insert_block_after(&mut self, mark: Key, block: Key)
        requires mark { IsSome (get self.old.blocks mark) }
        requires block { IsSome (get self.old.blocks block) }
        requires linked { IsLinked self.old.in_regions.lists mark.slot }
        requires root { IsRootBlock self.old block }
        requires apart { IsInside (shape_of self.old) (Block block.slot) (Block mark.slot) → ⊥ }
        ensures lists { self.new.in_regions.lists ≡ map (put_after mark.slot block.slot) self.old.in_regions.lists }
        ensures rest { self.new ≡ record self.old { in_regions = self.new.in_regions } }
    {
        self.in_regions.insert_after(mark.slot, block.slot);
    }

    /// Puts a block right before `mark`.
    pub fn insert_block_before(&mut self, mark: Key, block: Key)
        requires mark { IsSome (get self.old.blocks mark) }
        requires block { IsSome (get self.old.blocks block) }
        requires linked { IsLinked self.old.in_regions.lists mark.slot }
        requires root { IsRootBlock self.old block }
        requires apart { IsInside (shape_of self.old) (Block block.slot) (Block mark.slot) → ⊥ }
        ensures lists { self.new.in_regions.lists ≡ map (put_before mark.slot block.slot) self.old.in_regions.lists }
        ensures rest { self.new ≡ record self.old { in_regions = self.new.in_regions } }
    {
        self.in_regions.insert_before(mark.slot, block.slot);
    }

    /// Takes a block out of the region it stands in, and leaves all that it holds in it.
    pub fn unlink_block(&mut self, block: Key)
        requires block { IsSome (get self.old.blocks block) }
        requires linked { IsLinked self.old.in_regions.lists block.slot }
        ensures lists { self.new.in_regions.lists ≡ map (without block.slot) self.old.in_regions.lists }
        ensures root { IsRootBlock self.new block }
        ensures rest { self.new ≡ record self.old { in_regions = self.new.in_regions } }
    {
        self.in_regions.unlink(block.slot);
    }

    /// Moves all blocks of the region `donor` behind those of the region `donee`.
    pub fn append_blocks(&mut self, donee: Key, donor: Key)
        requires donee { IsSome (get self.old.regions donee) }
        requires donor { IsSome (get self.old.regions donor) }
        requires differ { donee.slot ≢ donor.slot }
        requires apart { (i : ℕ) → has i (list_at self.old.in_regions.lists donor.slot) ≡ true
            → IsInside (shape_of self.old) (Block i) (Region donee.slot) → ⊥ }
        ensures lists { self.new.in_regions.lists ≡ slice_set
            (slice_set self.old.in_regions.lists donee.slot
            (list_at self.old.in_regions.lists donee.slot ++ list_at self.old.in_regions.lists donor.slot))
            donor.slot [] }
        ensures rest { self.new ≡ record self.old { in_regions = self.new.in_regions } }
    {
        self.in_regions.append(donee.slot, donor.slot);
    }

    /// Puts a region after all others of an operation.
    pub fn insert_region_at_back(&mut self, op: Key, region: Key)
        requires op { IsSome (get self.old.ops op) }
        requires region { IsSome (get self.old.regions region) }
        requires root { IsRootRegion self.old region }
        requires apart { IsInside (shape_of self.old) (Region region.slot) (Op op.slot) → ⊥ }
        ensures lists { self.new.in_ops.lists ≡ slice_set self.old.in_ops.lists op.slot
            (list_at self.old.in_ops.lists op.slot ++ region.slot ∷ []) }
        ensures rest { self.new ≡ record self.old { in_ops = self.new.in_ops } }
    {
        self.in_ops.insert_at_back(op.slot, region.slot);
    }

    /// Takes a region out of the op it stands in, and leaves all that it holds in it.
    pub fn unlink_region(&mut self, region: Key)
        requires region { IsSome (get self.old.regions region) }
        requires linked { IsLinked self.old.in_ops.lists region.slot }
        ensures lists { self.new.in_ops.lists ≡ map (without region.slot) self.old.in_ops.lists }
        ensures root { IsRootRegion self.new region }
        ensures rest { self.new ≡ record self.old { in_ops = self.new.in_ops } }
    {
        self.in_ops.unlink(region.slot);
    }
}
