//! Putting operations into blocks and taking them out, and so for blocks in regions and regions in operations.
ghost use Rattle.std.specs.Prelude.{◌≡◌, ◌≢◌, ◌++◌, ◌∷◌, [], ℕ, Some, IsSome, slice_get, remove};
ghost use Rattle.ir_program.specs.declared.handles.Ptr.{Ptr};
ghost use Rattle.ir_program.specs.declared.handles.Operation.{Operation};
ghost use Rattle.ir_program.specs.declared.handles.BasicBlock.{BasicBlock};
ghost use Rattle.ir_program.specs.declared.handles.IRNode.{IRNode};
ghost use Rattle.ir_program.specs.declared.handles.IRNode.TheVariants.{Operation as OperationNode, BasicBlock as BlockNode, Region as RegionNode};
ghost use Rattle.ir_program.specs.Program.{operation_at, block_at, region_at};
ghost use Rattle.ir_program.specs.Lists.{regions_in, StandsInBlock, StandsInRegion, IsLinkedOperation, IsUnlinkedOperation, IsLinkedBlock, IsUnlinkedBlock, StandsInside};
ghost use Rattle.ir_program.specs.Edits.{EditsOperation, MovesRegion, AppendsBlock, AppendsRegion, KeepsValues};
ghost use Rattle.ir_program.specs.ListEdits.{PutsOperationAfter, PutsOperationBefore, TakesOutOperation, PutsOperationFirst, PutsOperationLast, PutsBlockAfter, PutsBlockBefore, TakesOutBlock, PutsBlockFirst, PutsBlockLast};

use crate::program::Program;
use crate::{BasicBlock, Operation, Ptr, Region};

impl<O, B> Program<O, B> {
    /// Puts an operation that stands in no block before all operations of a block.
    pub fn insert_operation_at_front(&mut self, block: Ptr<BasicBlock>, op: Ptr<Operation>)
        requires block { IsSome (block_at self.old block) }
        requires op { IsSome (operation_at self.old op) }
        requires unlinked { IsUnlinkedOperation self.old op }
        requires apart { StandsInside self.old (OperationNode op) (BlockNode block) → ⊥ }
        ensures edited { PutsOperationFirst self.old self.new block op }
        ensures values { KeepsValues self.old self.new }
    {
        self.know_listed();
        self.forest.insert_op_at_front(block.key, op.key);
    }

    /// Puts an operation that stands in no block after all operations of a block.
    pub fn insert_operation_at_back(&mut self, block: Ptr<BasicBlock>, op: Ptr<Operation>)
        requires block { IsSome (block_at self.old block) }
        requires op { IsSome (operation_at self.old op) }
        requires unlinked { IsUnlinkedOperation self.old op }
        requires apart { StandsInside self.old (OperationNode op) (BlockNode block) → ⊥ }
        ensures edited { PutsOperationLast self.old self.new block op }
        ensures values { KeepsValues self.old self.new }
    {
        self.know_listed();
        self.forest.insert_op_at_back(block.key, op.key);
    }

    /// Puts an operation that stands in no block right after `mark`, which stands in one.
    pub fn insert_operation_after(&mut self, mark: Ptr<Operation>, op: Ptr<Operation>)
        requires mark { IsLinkedOperation self.old mark }
        requires op { IsSome (operation_at self.old op) }
        requires unlinked { IsUnlinkedOperation self.old op }
        requires apart { StandsInside self.old (OperationNode op) (OperationNode mark) → ⊥ }
        ensures edited { PutsOperationAfter self.old self.new mark op }
        ensures values { KeepsValues self.old self.new }
    {
        self.know_listed();
        self.forest.insert_op_after(mark.key, op.key);
    }

    /// Puts an operation that stands in no block right before `mark`, which stands in one.
    pub fn insert_operation_before(&mut self, mark: Ptr<Operation>, op: Ptr<Operation>)
        requires mark { IsLinkedOperation self.old mark }
        requires op { IsSome (operation_at self.old op) }
        requires unlinked { IsUnlinkedOperation self.old op }
        requires apart { StandsInside self.old (OperationNode op) (OperationNode mark) → ⊥ }
        ensures edited { PutsOperationBefore self.old self.new mark op }
        ensures values { KeepsValues self.old self.new }
    {
        self.know_listed();
        self.forest.insert_op_before(mark.key, op.key);
    }

    /// Takes an operation out of the block that it stands in. It keeps all that it holds.
    pub fn unlink_operation(&mut self, op: Ptr<Operation>)
        requires { IsLinkedOperation self.old op }
        ensures edited { TakesOutOperation self.old self.new op }
        ensures unlinked { IsUnlinkedOperation self.new op }
        // Nothing stands inside what it did not stand in.
        ensures inside { (outer inner : IRNode) → StandsInside self.new outer inner
            → StandsInside self.old outer inner }
        ensures values { KeepsValues self.old self.new }
    {
        self.know_listed();
        self.forest.unlink_op(op.key);
    }

    /// Moves all operations of the block `donor` behind those of the block `donee`.
    pub fn append_operations(&mut self, donee: Ptr<BasicBlock>, donor: Ptr<BasicBlock>)
        requires donee { IsSome (block_at self.old donee) }
        requires donor { IsSome (block_at self.old donor) }
        requires differ { donee ≢ donor }
        requires apart { (op : Ptr Operation) → StandsInBlock self.old op donor
            → StandsInside self.old (OperationNode op) (BlockNode donee) → ⊥ }
        ensures edited { AppendsBlock self.old self.new donee donor }
        ensures values { KeepsValues self.old self.new }
    {
        self.know_listed();
        self.forest.append_ops(donee.key, donor.key);
    }

    /// Puts a block that stands in no region before all blocks of a region.
    pub fn insert_block_at_front(&mut self, region: Ptr<Region>, block: Ptr<BasicBlock>)
        requires region { IsSome (region_at self.old region) }
        requires block { IsSome (block_at self.old block) }
        requires unlinked { IsUnlinkedBlock self.old block }
        requires apart { StandsInside self.old (BlockNode block) (RegionNode region) → ⊥ }
        ensures edited { PutsBlockFirst self.old self.new region block }
        ensures values { KeepsValues self.old self.new }
    {
        self.know_listed();
        self.forest.insert_block_at_front(region.key, block.key);
    }

    /// Puts a block that stands in no region after all blocks of a region.
    pub fn insert_block_at_back(&mut self, region: Ptr<Region>, block: Ptr<BasicBlock>)
        requires region { IsSome (region_at self.old region) }
        requires block { IsSome (block_at self.old block) }
        requires unlinked { IsUnlinkedBlock self.old block }
        requires apart { StandsInside self.old (BlockNode block) (RegionNode region) → ⊥ }
        ensures edited { PutsBlockLast self.old self.new region block }
        ensures values { KeepsValues self.old self.new }
    {
        self.know_listed();
        self.forest.insert_block_at_back(region.key, block.key);
    }

    /// Puts a block that stands in no region right after `mark`, which stands in one.
    pub fn insert_block_after(&mut self, mark: Ptr<BasicBlock>, block: Ptr<BasicBlock>)
        requires mark { IsLinkedBlock self.old mark }
        requires block { IsSome (block_at self.old block) }
        requires unlinked { IsUnlinkedBlock self.old block }
        requires apart { StandsInside self.old (BlockNode block) (BlockNode mark) → ⊥ }
        ensures edited { PutsBlockAfter self.old self.new mark block }
        ensures values { KeepsValues self.old self.new }
    {
        self.know_listed();
        self.forest.insert_block_after(mark.key, block.key);
    }

    /// Puts a block that stands in no region right before `mark`, which stands in one.
    pub fn insert_block_before(&mut self, mark: Ptr<BasicBlock>, block: Ptr<BasicBlock>)
        requires mark { IsLinkedBlock self.old mark }
        requires block { IsSome (block_at self.old block) }
        requires unlinked { IsUnlinkedBlock self.old block }
        requires apart { StandsInside self.old (BlockNode block) (BlockNode mark) → ⊥ }
        ensures edited { PutsBlockBefore self.old self.new mark block }
        ensures values { KeepsValues self.old self.new }
    {
        self.know_listed();
        self.forest.insert_block_before(mark.key, block.key);
    }

    /// Takes a block out of the region that it stands in. It keeps all that it holds.
    pub fn unlink_block(&mut self, block: Ptr<BasicBlock>)
        requires { IsLinkedBlock self.old block }
        ensures edited { TakesOutBlock self.old self.new block }
        ensures unlinked { IsUnlinkedBlock self.new block }
        // Nothing stands inside what it did not stand in.
        ensures inside { (outer inner : IRNode) → StandsInside self.new outer inner
            → StandsInside self.old outer inner }
        ensures values { KeepsValues self.old self.new }
    {
        self.know_listed();
        self.forest.unlink_block(block.key);
    }

    /// Moves all blocks of the region `donor` behind those of the region `donee`.
    pub fn append_blocks(&mut self, donee: Ptr<Region>, donor: Ptr<Region>)
        requires donee { IsSome (region_at self.old donee) }
        requires donor { IsSome (region_at self.old donor) }
        requires differ { donee ≢ donor }
        requires apart { (block : Ptr BasicBlock) → StandsInRegion self.old block donor
            → StandsInside self.old (BlockNode block) (RegionNode donee) → ⊥ }
        ensures edited { AppendsRegion self.old self.new donee donor }
        ensures values { KeepsValues self.old self.new }
    {
        self.know_listed();
        self.forest.append_blocks(donee.key, donor.key);
    }

    /// Moves a region out of its operation, behind the regions of `op`, which may be the same operation.
    pub fn move_region(&mut self, region: Ptr<Region>, op: Ptr<Operation>)
        requires region { IsSome (region_at self.old region) }
        requires op { IsSome (operation_at self.old op) }
        requires apart { StandsInside self.old (RegionNode region) (OperationNode op) → ⊥ }
        ensures elsewhere { (from : Ptr Operation) (k : ℕ) → slice_get (regions_in self.old from) k ≡ Some region
            → from ≢ op → MovesRegion self.old self.new region from k op }
        ensures within { (k : ℕ) → slice_get (regions_in self.old op) k ≡ Some region
            → EditsOperation self.old self.new op (λ v. record v { regions = remove v.regions k ++ region ∷ [] }) }
        ensures values { KeepsValues self.old self.new }
    {
        self.know_listed();
        self.forest.unlink_region(region.key);
        self.forest.insert_region_at_back(op.key, region.key);
    }
}
