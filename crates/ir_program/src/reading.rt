//! What stands where: the operations of a block, the blocks of a region and the regions of an operation.
ghost use Rattle.std.specs.Prelude.{◌≡◌, ◌+◌, ◌-◌, ◌↔◌, ℕ, length, Some, None, IsSome, IfSome, IsTrue, MatchOption, option_map, slice_get};
ghost use Rattle.ir_arena.specs.Arena.{held};
ghost use Rattle.ir_entities.specs.Forest.{pointer_to};
ghost use Rattle.ir_program.specs.Handles.{handle};
ghost use Rattle.ir_program.specs.Program.{operation_at, block_at, region_at};
ghost use Rattle.ir_program.specs.declared.handles.Ptr.{Ptr};
ghost use Rattle.ir_program.specs.declared.handles.Operation.{Operation};
ghost use Rattle.ir_program.specs.declared.handles.BasicBlock.{BasicBlock};
ghost use Rattle.ir_program.specs.declared.handles.Region.{Region};
ghost use Rattle.ir_program.specs.declared.handles.IRNode.TheVariants.{Operation as OperationNode, BasicBlock as BlockNode, Region as RegionNode};
ghost use Rattle.ir_program.specs.Listed.{AreListed};
ghost use Rattle.ir_program.specs.Lists.{operations_in, blocks_in, regions_in, StandsInBlock, StandsInRegion, StandsInOperation, StandsInside, StandOnce, IsLiveNode, place_of_node, IsUnlinkedOperation, IsUnlinkedBlock};

use crate::program::Program;
use crate::{BasicBlock, IRNode, Operation, Ptr, Region};
use ir_entities::Place;

impl<O, B> Program<O, B> {
    /// Tells what the lists keep; it does nothing.
    pub(crate) fn know_listed(&self)
        ensures { AreListed self.now }
    {
        self.forest.know();
    }

    /// The handle of the operation in this slot.
    pub(crate) fn operation_in(&self, slot: usize) -> Ptr<Operation>
        requires { IsSome (held self.now.forest.ops slot) }
        ensures { result ≡ handle (pointer_to self.now.forest.ops slot) }
    {
        Ptr::new(self.forest.op_key(slot))
    }

    /// The handle of the operation in this slot, if there is one.
    fn operation_if(&self, slot: Option<usize>) -> Option<Ptr<Operation>>
        requires { IfSome slot (λ i. IsSome (held self.now.forest.ops i)) }
        ensures { result ≡ option_map (λ i. handle (pointer_to self.now.forest.ops i)) slot }
    {
        let slot = slot?;
        Some(self.operation_in(slot))
    }

    /// The handle of the block in this slot.
    pub(crate) fn block_in(&self, slot: usize) -> Ptr<BasicBlock>
        requires { IsSome (held self.now.forest.blocks slot) }
        ensures { result ≡ handle (pointer_to self.now.forest.blocks slot) }
    {
        Ptr::new(self.forest.block_key(slot))
    }

    /// The handle of the block in this slot, if there is one.
    fn block_if(&self, slot: Option<usize>) -> Option<Ptr<BasicBlock>>
        requires { IfSome slot (λ i. IsSome (held self.now.forest.blocks i)) }
        ensures { result ≡ option_map (λ i. handle (pointer_to self.now.forest.blocks i)) slot }
    {
        let slot = slot?;
        Some(self.block_in(slot))
    }

    /// The handle of the region in this slot.
    pub(crate) fn region_in(&self, slot: usize) -> Ptr<Region>
        requires { IsSome (held self.now.forest.regions slot) }
        ensures { result ≡ handle (pointer_to self.now.forest.regions slot) }
    {
        Ptr::new(self.forest.region_key(slot))
    }

    /// The handle of the region in this slot, if there is one.
    fn region_if(&self, slot: Option<usize>) -> Option<Ptr<Region>>
        requires { IfSome slot (λ i. IsSome (held self.now.forest.regions i)) }
        ensures { result ≡ option_map (λ i. handle (pointer_to self.now.forest.regions i)) slot }
    {
        let slot = slot?;
        Some(self.region_in(slot))
    }

    /// The first of a block's operations.
    pub fn first_operation(&self, block: Ptr<BasicBlock>) -> Option<Ptr<Operation>>
        requires { IsSome (block_at self.now block) }
        ensures first { result ≡ slice_get (operations_in self.now block) 0 }
        ensures stands { IfSome result (λ op. StandsInBlock self.now op block) }
    {
        self.know_listed();
        self.operation_if(self.forest.first_op(block.key))
    }

    /// The last of a block's operations.
    pub fn last_operation(&self, block: Ptr<BasicBlock>) -> Option<Ptr<Operation>>
        requires { IsSome (block_at self.now block) }
        ensures last { result ≡ slice_get (operations_in self.now block) (length (operations_in self.now block) - 1) }
        ensures stands { IfSome result (λ op. StandsInBlock self.now op block) }
    {
        self.know_listed();
        self.operation_if(self.forest.last_op(block.key))
    }

    /// The operation that stands right after this one in its block.
    pub fn next_operation(&self, op: Ptr<Operation>) -> Option<Ptr<Operation>>
        requires { IsSome (operation_at self.now op) }
        ensures next { (block : Ptr BasicBlock) (k : ℕ) → slice_get (operations_in self.now block) k ≡ Some op
            → result ≡ slice_get (operations_in self.now block) (k + 1) }
        ensures unlinked { IsUnlinkedOperation self.now op → result ≡ None }
        ensures live { IfSome result (λ next. IsSome (operation_at self.now next)) }
    {
        self.know_listed();
        self.operation_if(self.forest.next_op(op.key))
    }

    /// The operation that stands right before this one in its block.
    pub fn previous_operation(&self, op: Ptr<Operation>) -> Option<Ptr<Operation>>
        requires { IsSome (operation_at self.now op) }
        ensures previous { (block : Ptr BasicBlock) (k : ℕ)
            → slice_get (operations_in self.now block) (k + 1) ≡ Some op
            → result ≡ slice_get (operations_in self.now block) k }
        ensures first { (block : Ptr BasicBlock) → slice_get (operations_in self.now block) 0 ≡ Some op
            → result ≡ None }
        ensures unlinked { IsUnlinkedOperation self.now op → result ≡ None }
        ensures live { IfSome result (λ previous. IsSome (operation_at self.now previous)) }
    {
        self.know_listed();
        self.operation_if(self.forest.prev_op(op.key))
    }

    /// The block that an operation stands in.
    pub fn parent_block(&self, op: Ptr<Operation>) -> Option<Ptr<BasicBlock>>
        requires { IsSome (operation_at self.now op) }
        ensures parent { MatchOption result (IsUnlinkedOperation self.now op)
            (λ block. StandsInBlock self.now op block) }
        ensures only { (block : Ptr BasicBlock) → StandsInBlock self.now op block → result ≡ Some block }
    {
        self.know_listed();
        self.block_if(self.forest.block_of_op(op.key))
    }

    /// The first of a region's blocks.
    pub fn first_block(&self, region: Ptr<Region>) -> Option<Ptr<BasicBlock>>
        requires { IsSome (region_at self.now region) }
        ensures first { result ≡ slice_get (blocks_in self.now region) 0 }
        ensures stands { IfSome result (λ block. StandsInRegion self.now block region) }
    {
        self.know_listed();
        self.block_if(self.forest.first_block(region.key))
    }

    /// The last of a region's blocks.
    pub fn last_block(&self, region: Ptr<Region>) -> Option<Ptr<BasicBlock>>
        requires { IsSome (region_at self.now region) }
        ensures last { result ≡ slice_get (blocks_in self.now region) (length (blocks_in self.now region) - 1) }
        ensures stands { IfSome result (λ block. StandsInRegion self.now block region) }
    {
        self.know_listed();
        self.block_if(self.forest.last_block(region.key))
    }

    /// The block that stands right after this one in its region.
    pub fn next_block(&self, block: Ptr<BasicBlock>) -> Option<Ptr<BasicBlock>>
        requires { IsSome (block_at self.now block) }
        ensures next { (region : Ptr Region) (k : ℕ) → slice_get (blocks_in self.now region) k ≡ Some block
            → result ≡ slice_get (blocks_in self.now region) (k + 1) }
        ensures unlinked { IsUnlinkedBlock self.now block → result ≡ None }
        ensures live { IfSome result (λ next. IsSome (block_at self.now next)) }
    {
        self.know_listed();
        self.block_if(self.forest.next_block(block.key))
    }

    /// The block that stands right before this one in its region.
    pub fn previous_block(&self, block: Ptr<BasicBlock>) -> Option<Ptr<BasicBlock>>
        requires { IsSome (block_at self.now block) }
        ensures previous { (region : Ptr Region) (k : ℕ) → slice_get (blocks_in self.now region) (k + 1) ≡ Some block
            → result ≡ slice_get (blocks_in self.now region) k }
        ensures first { (region : Ptr Region) → slice_get (blocks_in self.now region) 0 ≡ Some block → result ≡ None }
        ensures unlinked { IsUnlinkedBlock self.now block → result ≡ None }
        ensures live { IfSome result (λ previous. IsSome (block_at self.now previous)) }
    {
        self.know_listed();
        self.block_if(self.forest.prev_block(block.key))
    }

    /// The region that a block stands in.
    pub fn parent_region(&self, block: Ptr<BasicBlock>) -> Option<Ptr<Region>>
        requires { IsSome (block_at self.now block) }
        ensures parent { MatchOption result (IsUnlinkedBlock self.now block)
            (λ region. StandsInRegion self.now block region) }
        ensures only { (region : Ptr Region) → StandsInRegion self.now block region → result ≡ Some region }
    {
        self.know_listed();
        self.region_if(self.forest.region_of_block(block.key))
    }

    /// The operation that a region stands in.
    pub fn parent_operation(&self, region: Ptr<Region>) -> Ptr<Operation>
        requires { IsSome (region_at self.now region) }
        ensures stands { StandsInOperation self.now region result }
        ensures only { (op : Ptr Operation) → StandsInOperation self.now region op → result ≡ op }
    {
        self.know_listed();
        match self.forest.op_of_region(region.key) {
            Some(slot) => self.operation_in(slot),
            None => unreachable!(),
        }
    }

    /// The region of an operation at an index, if there are so many.
    pub fn region(&self, op: Ptr<Operation>, index: usize) -> Option<Ptr<Region>>
        requires { IsSome (operation_at self.now op) }
        ensures region { result ≡ slice_get (regions_in self.now op) index }
        ensures stands { IfSome result (λ region. StandsInOperation self.now region op) }
    {
        self.know_listed();
        self.regions(op).nth(index)
    }

    /// How many regions an operation has.
    pub fn region_count(&self, op: Ptr<Operation>) -> usize
        requires { IsSome (operation_at self.now op) }
        ensures { result ≡ length (regions_in self.now op) }
    {
        self.know_listed();
        self.forest.know_short();
        self.regions(op).count()
    }

    /// The index of a region among those of its operation.
    pub fn region_index(&self, region: Ptr<Region>) -> usize
        requires { IsSome (region_at self.now region) }
        ensures { (op : Ptr Operation) (k : ℕ) → slice_get (regions_in self.now op) k ≡ Some region → result ≡ k }
    {
        self.know_listed();
        self.forest.know_short();
        let op = self.parent_operation(region);
        match self.regions(op).position(|other| other == region) {
            Some(index) => index,
            None => unreachable!(),
        }
    }

    /// Whether `inner` is `outer` or stands in it, however far down.
    pub fn is_inside(&self, inner: IRNode, outer: IRNode) -> bool
        requires inner { IsLiveNode self.now inner }
        requires outer { IsLiveNode self.now outer }
        ensures { IsTrue result ↔ StandsInside self.now outer inner }
    {
        self.know_listed();
        self.forest.is_inside(outer.place(), inner.place())
    }

    /// Tells that no operation, block or region stands in two lists, or twice in one; that what stands
    /// in one leads somewhere, as does what it stands in; and that nothing stands in what is inside it.
    /// It does nothing.
    pub fn know_lists(&self)
        ensures operations_once { StandOnce (operations_in self.now) }
        ensures blocks_once { StandOnce (blocks_in self.now) }
        ensures regions_once { StandOnce (regions_in self.now) }
        ensures operations { (block : Ptr BasicBlock) (k : ℕ) (op : Ptr Operation)
            → slice_get (operations_in self.now block) k ≡ Some op → StandsInBlock self.now op block }
        ensures blocks { (region : Ptr Region) (k : ℕ) (block : Ptr BasicBlock)
            → slice_get (blocks_in self.now region) k ≡ Some block → StandsInRegion self.now block region }
        ensures regions { (op : Ptr Operation) (k : ℕ) (region : Ptr Region)
            → slice_get (regions_in self.now op) k ≡ Some region → StandsInOperation self.now region op }
        ensures operation_apart { (op : Ptr Operation) (block : Ptr BasicBlock) → StandsInBlock self.now op block
            → StandsInside self.now (OperationNode op) (BlockNode block) → ⊥ }
        ensures block_apart { (block : Ptr BasicBlock) (region : Ptr Region) → StandsInRegion self.now block region
            → StandsInside self.now (BlockNode block) (RegionNode region) → ⊥ }
        ensures region_apart { (region : Ptr Region) (op : Ptr Operation) → StandsInOperation self.now region op
            → StandsInside self.now (RegionNode region) (OperationNode op) → ⊥ }
    {
        self.know_listed();
    }
}

impl IRNode {
    /// The slot of an operation, a region or a block.
    pub(crate) fn place(self) -> Place
        ensures { result ≡ place_of_node self }
    {
        match self {
            IRNode::Operation(op) => Place::Op(op.key.slot()),
            IRNode::Region(region) => Place::Region(region.key.slot()),
            IRNode::BasicBlock(block) => Place::Block(block.key.slot()),
        }
    }
}
