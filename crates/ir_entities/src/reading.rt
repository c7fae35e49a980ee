//! What is where, read only, and the data of operations and blocks.

ghost use Rattle.std.specs.Prelude.{◌≡◌, ◌<◌, ◌^◌, ℕ, length, true, Some, None, IsSome, IsNone, IfSome, is_some};
ghost use Rattle.std.specs.Borrow.{sem};
ghost use Rattle.ir_arena.specs.Arena.{get, held};
ghost use Rattle.ir_entities.specs.Links.{AreApart, AreDistinctNumbers, first_or, has, items_between, items_from, last_or, list_at, next_in, prev_in};
ghost use Rattle.ir_entities.specs.declared.forest.Place.{Place};
ghost use Rattle.ir_entities.specs.Shape.{IsIn, IsInside};
ghost use Rattle.ir_entities.specs.Forest.{IsForest, IsRootOp, IsRootBlock, IsRootRegion, shape_of};

use crate::forest::Forest;
use crate::siblings::{Forward, Walk};
use ir_arena::Key;

impl<O, B, R> Forest<O, B, R> {
    ghost use Rattle.ir_entities.specs.Lent.{lends_op, lends_block};

    /// What every forest keeps: what stands in something is in use, and so is what holds it; it stands once, and in
    /// one thing only; and nothing holds itself, however far down.
    pub fn know(&self)
        ensures forest { IsForest self.now }
        ensures ops_apart { AreApart self.now.in_blocks.lists }
        ensures blocks_apart { AreApart self.now.in_regions.lists }
        ensures regions_apart { AreApart self.now.in_ops.lists }
        ensures ops_once { (c : ℕ) → AreDistinctNumbers (list_at self.now.in_blocks.lists c) }
        ensures blocks_once { (c : ℕ) → AreDistinctNumbers (list_at self.now.in_regions.lists c) }
        ensures regions_once { (c : ℕ) → AreDistinctNumbers (list_at self.now.in_ops.lists c) }
        ensures no_cycle { (e d : Place) → IsIn (shape_of self.now) e d → IsInside (shape_of self.now) e d → ⊥ }
    {
        self.in_blocks.know_apart();
        self.in_regions.know_apart();
        self.in_ops.know_apart();
        self.in_blocks.know_members();
        self.in_regions.know_members();
        self.in_ops.know_members();
    }

    /// Tells that the number of an operation's regions fits; it does nothing.
    pub fn know_short(&self)
        ensures { (c : ℕ) → length (list_at self.now.in_ops.lists c) < 2 ^ 64 }
    {
        self.in_ops.know_members();
        let _nodes = self.in_ops.nodes();
    }

    /// The data of an operation.
    pub fn op(&self, op: Key) -> &O
        requires { IsSome (get self.now.ops op) }
        ensures { Some result.now ≡ get self.now.ops op }
    {
        self.ops.deref(op)
    }

    /// Whether the key leads to an operation.
    pub fn has_op(&self, op: Key) -> bool
        ensures { result ≡ is_some (get self.now.ops op) }
    {
        self.ops.is_live(op)
    }

    /// The key of the operation that is in a slot now.
    pub fn op_key(&self, slot: usize) -> Key
        requires { IsSome (held self.now.ops slot) }
        ensures slot { result.slot ≡ slot }
        ensures live { IsSome (get self.now.ops result) }
    {
        self.ops.key_of(slot)
    }

    /// The first of a block's operations.
    pub fn first_op(&self, block: Key) -> Option<usize>
        requires { IsSome (get self.now.blocks block) }
        ensures { result ≡ first_or None (list_at self.now.in_blocks.lists block.slot) }
    {
        let _blocks = &self.blocks;
        self.in_blocks.head(block.slot)
    }

    /// The last of a block's operations.
    pub fn last_op(&self, block: Key) -> Option<usize>
        requires { IsSome (get self.now.blocks block) }
        ensures { result ≡ last_or None (list_at self.now.in_blocks.lists block.slot) }
    {
        let _blocks = &self.blocks;
        self.in_blocks.tail(block.slot)
    }

    /// The operation that stands next, where this one stands in a block.
    pub fn next_op(&self, op: Key) -> Option<usize>
        requires { IsSome (get self.now.ops op) }
        ensures next { (c : ℕ) → has op.slot (list_at self.now.in_blocks.lists c) ≡ true
            → result ≡ next_in op.slot (list_at self.now.in_blocks.lists c) }
        ensures root { IsRootOp self.now op → result ≡ None }
    {
        let _block = self.block_of_op(op)?;
        self.in_blocks.next(op.slot)
    }

    /// The operation that stands before, where this one stands in a block.
    pub fn prev_op(&self, op: Key) -> Option<usize>
        requires { IsSome (get self.now.ops op) }
        ensures prev { (c : ℕ) → has op.slot (list_at self.now.in_blocks.lists c) ≡ true
            → result ≡ prev_in op.slot (list_at self.now.in_blocks.lists c) }
        ensures root { IsRootOp self.now op → result ≡ None }
    {
        let _block = self.block_of_op(op)?;
        self.in_blocks.prev(op.slot)
    }

    /// The block that an operation stands in.
    pub fn block_of_op(&self, op: Key) -> Option<usize>
        requires { IsSome (get self.now.ops op) }
        ensures linked { IfSome result (λ c. has op.slot (list_at self.now.in_blocks.lists c) ≡ true) }
        ensures only { (c : ℕ) → has op.slot (list_at self.now.in_blocks.lists c) ≡ true → result ≡ Some c }
        ensures root { IsNone result → IsRootOp self.now op }
    {
        let _ops = &self.ops;
        self.in_blocks.know_apart();
        self.in_blocks.list(op.slot)
    }

    /// The slots of a block's operations, first to last.
    pub fn ops_forward(&self, block: Key) -> Forward
        requires { IsSome (get self.now.blocks block) }
        ensures { items_from result.at (list_at result.siblings.now.lists result.list)
            ≡ list_at self.now.in_blocks.lists block.slot }
    {
        let _blocks = &self.blocks;
        self.in_blocks.forward(block.slot)
    }

    /// The slots of a block's operations, to be taken from either end.
    pub fn ops_walk(&self, block: Key) -> Walk
        requires { IsSome (get self.now.blocks block) }
        ensures { items_between result.left (list_at result.siblings.now.lists result.list)
            ≡ list_at self.now.in_blocks.lists block.slot }
    {
        let _blocks = &self.blocks;
        self.in_blocks.walk(block.slot)
    }

    /// Lends the data of an operation, to be changed.
    pub fn op_mut(&mut self, op: Key) -> &mut O
        requires { IsSome (get self.old.ops op) }
        ensures* lends { sem 𝓛 (lends_op O.row B.row R.row self.entry op result) }
        ensures value { get self.old.ops op ≡ Some result.now }
    {
        self.ops.deref_mut(op)
    }

    /// The data of a block.
    pub fn block(&self, block: Key) -> &B
        requires { IsSome (get self.now.blocks block) }
        ensures { Some result.now ≡ get self.now.blocks block }
    {
        self.blocks.deref(block)
    }

    /// Whether the key leads to a block.
    pub fn has_block(&self, block: Key) -> bool
        ensures { result ≡ is_some (get self.now.blocks block) }
    {
        self.blocks.is_live(block)
    }

    /// The key of the block that is in a slot now.
    pub fn block_key(&self, slot: usize) -> Key
        requires { IsSome (held self.now.blocks slot) }
        ensures slot { result.slot ≡ slot }
        ensures live { IsSome (get self.now.blocks result) }
    {
        self.blocks.key_of(slot)
    }

    /// The first of a region's blocks.
    pub fn first_block(&self, region: Key) -> Option<usize>
        requires { IsSome (get self.now.regions region) }
        ensures { result ≡ first_or None (list_at self.now.in_regions.lists region.slot) }
    {
        let _regions = &self.regions;
        self.in_regions.head(region.slot)
    }

    /// The last of a region's blocks.
    pub fn last_block(&self, region: Key) -> Option<usize>
        requires { IsSome (get self.now.regions region) }
        ensures { result ≡ last_or None (list_at self.now.in_regions.lists region.slot) }
    {
        let _regions = &self.regions;
        self.in_regions.tail(region.slot)
    }

    /// The block that stands next, where this one stands in a region.
    pub fn next_block(&self, block: Key) -> Option<usize>
        requires { IsSome (get self.now.blocks block) }
        ensures next { (c : ℕ) → has block.slot (list_at self.now.in_regions.lists c) ≡ true
            → result ≡ next_in block.slot (list_at self.now.in_regions.lists c) }
        ensures root { IsRootBlock self.now block → result ≡ None }
    {
        let _region = self.region_of_block(block)?;
        self.in_regions.next(block.slot)
    }

    /// The block that stands before, where this one stands in a region.
    pub fn prev_block(&self, block: Key) -> Option<usize>
        requires { IsSome (get self.now.blocks block) }
        ensures prev { (c : ℕ) → has block.slot (list_at self.now.in_regions.lists c) ≡ true
            → result ≡ prev_in block.slot (list_at self.now.in_regions.lists c) }
        ensures root { IsRootBlock self.now block → result ≡ None }
    {
        let _region = self.region_of_block(block)?;
        self.in_regions.prev(block.slot)
    }

    /// The region that a block stands in.
    pub fn region_of_block(&self, block: Key) -> Option<usize>
        requires { IsSome (get self.now.blocks block) }
        ensures linked { IfSome result (λ c. has block.slot (list_at self.now.in_regions.lists c) ≡ true) }
        ensures only { (c : ℕ) → has block.slot (list_at self.now.in_regions.lists c) ≡ true → result ≡ Some c }
        ensures root { IsNone result → IsRootBlock self.now block }
    {
        let _blocks = &self.blocks;
        self.in_regions.know_apart();
        self.in_regions.list(block.slot)
    }

    /// The slots of a region's blocks, first to last.
    pub fn blocks_forward(&self, region: Key) -> Forward
        requires { IsSome (get self.now.regions region) }
        ensures { items_from result.at (list_at result.siblings.now.lists result.list)
            ≡ list_at self.now.in_regions.lists region.slot }
    {
        let _regions = &self.regions;
        self.in_regions.forward(region.slot)
    }

    /// The slots of a region's blocks, to be taken from either end.
    pub fn blocks_walk(&self, region: Key) -> Walk
        requires { IsSome (get self.now.regions region) }
        ensures { items_between result.left (list_at result.siblings.now.lists result.list)
            ≡ list_at self.now.in_regions.lists region.slot }
    {
        let _regions = &self.regions;
        self.in_regions.walk(region.slot)
    }

    /// Lends the data of a block, to be changed.
    pub fn block_mut(&mut self, block: Key) -> &mut B
        requires { IsSome (get self.old.blocks block) }
        ensures* lends { sem 𝓛 (lends_block O.row B.row R.row self.entry block result) }
        ensures value { get self.old.blocks block ≡ Some result.now }
    {
        self.blocks.deref_mut(block)
    }

    /// The data of a region.
    pub fn region(&self, region: Key) -> &R
        requires { IsSome (get self.now.regions region) }
        ensures { Some result.now ≡ get self.now.regions region }
    {
        self.regions.deref(region)
    }

    /// Whether the key leads to a region.
    pub fn has_region(&self, region: Key) -> bool
        ensures { result ≡ is_some (get self.now.regions region) }
    {
        self.regions.is_live(region)
    }

    /// The key of the region that is in a slot now.
    pub fn region_key(&self, slot: usize) -> Key
        requires { IsSome (held self.now.regions slot) }
        ensures slot { result.slot ≡ slot }
        ensures live { IsSome (get self.now.regions result) }
    {
        self.regions.key_of(slot)
    }

    /// The first of an operation's regions.
    pub fn first_region(&self, op: Key) -> Option<usize>
        requires { IsSome (get self.now.ops op) }
        ensures { result ≡ first_or None (list_at self.now.in_ops.lists op.slot) }
    {
        let _ops = &self.ops;
        self.in_ops.head(op.slot)
    }

    /// The last of an operation's regions.
    pub fn last_region(&self, op: Key) -> Option<usize>
        requires { IsSome (get self.now.ops op) }
        ensures { result ≡ last_or None (list_at self.now.in_ops.lists op.slot) }
    {
        let _ops = &self.ops;
        self.in_ops.tail(op.slot)
    }

    /// The region that stands next, where this one stands in an operation.
    pub fn next_region(&self, region: Key) -> Option<usize>
        requires { IsSome (get self.now.regions region) }
        ensures next { (c : ℕ) → has region.slot (list_at self.now.in_ops.lists c) ≡ true
            → result ≡ next_in region.slot (list_at self.now.in_ops.lists c) }
        ensures root { IsRootRegion self.now region → result ≡ None }
    {
        let _op = self.op_of_region(region)?;
        self.in_ops.next(region.slot)
    }

    /// The region that stands before, where this one stands in an operation.
    pub fn prev_region(&self, region: Key) -> Option<usize>
        requires { IsSome (get self.now.regions region) }
        ensures prev { (c : ℕ) → has region.slot (list_at self.now.in_ops.lists c) ≡ true
            → result ≡ prev_in region.slot (list_at self.now.in_ops.lists c) }
        ensures root { IsRootRegion self.now region → result ≡ None }
    {
        let _op = self.op_of_region(region)?;
        self.in_ops.prev(region.slot)
    }

    /// The operation that a region stands in.
    pub fn op_of_region(&self, region: Key) -> Option<usize>
        requires { IsSome (get self.now.regions region) }
        ensures linked { IfSome result (λ c. has region.slot (list_at self.now.in_ops.lists c) ≡ true) }
        ensures only { (c : ℕ) → has region.slot (list_at self.now.in_ops.lists c) ≡ true → result ≡ Some c }
        ensures root { IsNone result → IsRootRegion self.now region }
    {
        let _regions = &self.regions;
        self.in_ops.know_apart();
        self.in_ops.list(region.slot)
    }

    /// The slots of an operation's regions, first to last.
    pub fn regions_forward(&self, op: Key) -> Forward
        requires { IsSome (get self.now.ops op) }
        ensures { items_from result.at (list_at result.siblings.now.lists result.list)
            ≡ list_at self.now.in_ops.lists op.slot }
    {
        let _ops = &self.ops;
        self.in_ops.forward(op.slot)
    }

    /// The slots of an operation's regions, to be taken from either end.
    pub fn regions_walk(&self, op: Key) -> Walk
        requires { IsSome (get self.now.ops op) }
        ensures { items_between result.left (list_at result.siblings.now.lists result.list)
            ≡ list_at self.now.in_ops.lists op.slot }
    {
        let _ops = &self.ops;
        self.in_ops.walk(op.slot)
    }
}
