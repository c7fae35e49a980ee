//! Making operations, blocks and regions, and taking them out.

ghost use Rattle.std.specs.Prelude.{◌≡◌, ℕ, ◌<◌, ◌≤◌, length, [], Some, None, Err, IsSome, IfOk, OnOk, OnErr};
ghost use Rattle.ir_arena.specs.Arena.{get, ClearsSlot, IsSpent, KeepsSpent, SetsSlot, Updates};
ghost use Rattle.ir_entities.specs.Links.{list_at};
ghost use Rattle.ir_entities.specs.Forest.{IsRootOp, IsRootBlock, IsRootRegion};

use crate::forest::Forest;
use crate::siblings::Siblings;
use ir_arena::Key;
use std::alloc::AllocError;

impl<O, B, R> Forest<O, B, R> {
    /// Makes room for so many operations, blocks and regions more: the next so many calls of `new_op`, of `new_block` and
    /// of `new_region` ask for no memory.
    ///
    /// # Errors
    /// There may be no memory. Room that was made stays.
    pub fn reserve(&mut self, ops: usize, blocks: usize, regions: usize) -> Result<(), AllocError>
        ensures same { self.new ≡ self.old }
    {
        self.ops.reserve(ops)?;
        self.blocks.reserve(blocks)?;
        self.regions.reserve(regions)?;
        // What stands in a table is a node there, and what holds it has a list.
        self.in_blocks.reserve(ops, blocks)?;
        self.in_regions.reserve(blocks, regions)?;
        self.in_ops.reserve(regions, ops)
    }

    /// Makes an operation, which stands in no block and holds no region.
    pub fn new_op(&mut self, op: O) -> Result<Key, AllocError>
    where
        O: Drop,
        ensures fresh { IfOk result (λ p. get self.old.ops p ≡ None) }
        ensures unspent { IfOk result (λ p. IsSpent self.old.ops p → ⊥) }
        ensures updates { IfOk result (λ p. Updates self.old.ops self.new.ops p (Some op)) }
        ensures slot { IfOk result (λ p. SetsSlot self.old.ops self.new.ops p.slot op) }
        ensures root { IfOk result (λ p. IsRootOp self.new p) }
        ensures bare { IfOk result (λ p. list_at self.new.in_ops.lists p.slot ≡ []) }
        ensures spent { KeepsSpent self.old.ops self.new.ops }
        ensures in_blocks { self.new.in_blocks.lists ≡ self.old.in_blocks.lists }
        ensures in_ops { (c : ℕ) → list_at self.new.in_ops.lists c ≡ list_at self.old.in_ops.lists c }
        ensures in_regions { self.new.in_regions ≡ self.old.in_regions }
        ensures blocks { self.new.blocks ≡ self.old.blocks }
        ensures regions { self.new.regions ≡ self.old.regions }
        ensures err { OnErr result (self.new.ops ≡ self.old.ops) }
    {
        let slots = self.ops.slots();
        make_slot(&mut self.in_blocks, &mut self.in_ops, slots)?;
        self.ops.alloc(op)
    }

    /// Takes out an operation that stands in no block and holds no region. No memory is asked for.
    pub fn free_op(&mut self, op: Key) -> O
    where
        O: Drop,
        requires op { IsSome (get self.old.ops op) }
        requires root { IsRootOp self.old op }
        requires bare { list_at self.old.in_ops.lists op.slot ≡ [] }
        ensures value { Some result ≡ get self.old.ops op }
        ensures updates { Updates self.old.ops self.new.ops op None }
        ensures slot { ClearsSlot self.old.ops self.new.ops op.slot }
        ensures gone { IsSpent self.new.ops op }
        ensures spent { KeepsSpent self.old.ops self.new.ops }
        ensures rest { self.new ≡ record self.old { ops = self.new.ops } }
    {
        self.ops.erase(op)
    }

    /// Makes a block, which stands in no region and holds no operation.
    pub fn new_block(&mut self, block: B) -> Result<Key, AllocError>
    where
        B: Drop,
        ensures fresh { IfOk result (λ p. get self.old.blocks p ≡ None) }
        ensures unspent { IfOk result (λ p. IsSpent self.old.blocks p → ⊥) }
        ensures updates { IfOk result (λ p. Updates self.old.blocks self.new.blocks p (Some block)) }
        ensures slot { IfOk result (λ p. SetsSlot self.old.blocks self.new.blocks p.slot block) }
        ensures root { IfOk result (λ p. IsRootBlock self.new p) }
        ensures bare { IfOk result (λ p. list_at self.new.in_blocks.lists p.slot ≡ []) }
        ensures spent { KeepsSpent self.old.blocks self.new.blocks }
        ensures in_regions { self.new.in_regions.lists ≡ self.old.in_regions.lists }
        ensures in_blocks { (c : ℕ) → list_at self.new.in_blocks.lists c ≡ list_at self.old.in_blocks.lists c }
        ensures in_ops { self.new.in_ops ≡ self.old.in_ops }
        ensures ops { self.new.ops ≡ self.old.ops }
        ensures regions { self.new.regions ≡ self.old.regions }
        ensures err { OnErr result (self.new.blocks ≡ self.old.blocks) }
    {
        let slots = self.blocks.slots();
        make_slot(&mut self.in_regions, &mut self.in_blocks, slots)?;
        self.blocks.alloc(block)
    }

    /// Takes out a block that stands in no region and holds no operation. No memory is asked for.
    pub fn free_block(&mut self, block: Key) -> B
    where
        B: Drop,
        requires block { IsSome (get self.old.blocks block) }
        requires root { IsRootBlock self.old block }
        requires bare { list_at self.old.in_blocks.lists block.slot ≡ [] }
        ensures value { Some result ≡ get self.old.blocks block }
        ensures updates { Updates self.old.blocks self.new.blocks block None }
        ensures slot { ClearsSlot self.old.blocks self.new.blocks block.slot }
        ensures gone { IsSpent self.new.blocks block }
        ensures spent { KeepsSpent self.old.blocks self.new.blocks }
        ensures rest { self.new ≡ record self.old { blocks = self.new.blocks } }
    {
        self.blocks.erase(block)
    }

    /// Makes a region, which stands in no operation and holds no block.
    pub fn new_region(&mut self, region: R) -> Result<Key, AllocError>
    where
        R: Drop,
        ensures fresh { IfOk result (λ p. get self.old.regions p ≡ None) }
        ensures unspent { IfOk result (λ p. IsSpent self.old.regions p → ⊥) }
        ensures updates { IfOk result (λ p. Updates self.old.regions self.new.regions p (Some region)) }
        ensures slot { IfOk result (λ p. SetsSlot self.old.regions self.new.regions p.slot region) }
        ensures root { IfOk result (λ p. IsRootRegion self.new p) }
        ensures bare { IfOk result (λ p. list_at self.new.in_regions.lists p.slot ≡ []) }
        ensures spent { KeepsSpent self.old.regions self.new.regions }
        ensures in_ops { self.new.in_ops.lists ≡ self.old.in_ops.lists }
        ensures in_regions { (c : ℕ) → list_at self.new.in_regions.lists c ≡ list_at self.old.in_regions.lists c }
        ensures in_blocks { self.new.in_blocks ≡ self.old.in_blocks }
        ensures ops { self.new.ops ≡ self.old.ops }
        ensures blocks { self.new.blocks ≡ self.old.blocks }
        ensures err { OnErr result (self.new.regions ≡ self.old.regions) }
    {
        let slots = self.regions.slots();
        make_slot(&mut self.in_ops, &mut self.in_regions, slots)?;
        self.regions.alloc(region)
    }

    /// Takes out a region that stands in no operation and holds no block. No memory is asked for.
    pub fn free_region(&mut self, region: Key) -> R
    where
        R: Drop,
        requires region { IsSome (get self.old.regions region) }
        requires root { IsRootRegion self.old region }
        requires bare { list_at self.old.in_regions.lists region.slot ≡ [] }
        ensures value { Some result ≡ get self.old.regions region }
        ensures updates { Updates self.old.regions self.new.regions region None }
        ensures slot { ClearsSlot self.old.regions self.new.regions region.slot }
        ensures gone { IsSpent self.new.regions region }
        ensures spent { KeepsSpent self.old.regions self.new.regions }
        ensures rest { self.new ≡ record self.old { regions = self.new.regions } }
    {
        self.regions.erase(region)
    }
}

/// Makes a node and an empty list of this number, where there are none.
fn make_slot(nodes: &mut Siblings, lists: &mut Siblings, number: usize) -> Result<(), AllocError>
    requires node { number ≤ nodes.old.nodes }
    requires list { number ≤ length lists.old.lists }
    ensures same { nodes.new.lists ≡ nodes.old.lists }
    ensures kept { nodes.old.nodes ≤ nodes.new.nodes }
    ensures made { OnOk result (number < nodes.new.nodes) }
    ensures lists { (c : ℕ) → list_at lists.new.lists c ≡ list_at lists.old.lists c }
    ensures lists_kept { length lists.old.lists ≤ length lists.new.lists }
    ensures list_made { OnOk result (number < length lists.new.lists) }
    ensures nodes { lists.new.nodes ≡ lists.old.nodes }
{
    make_node(nodes, number)?;
    make_list(lists, number)
}

/// Makes a node of this number, if there is none.
fn make_node(siblings: &mut Siblings, number: usize) -> Result<(), AllocError>
    requires { number ≤ siblings.old.nodes }
    ensures lists { siblings.new.lists ≡ siblings.old.lists }
    ensures made { OnOk result (number < siblings.new.nodes) }
    ensures kept { siblings.old.nodes ≤ siblings.new.nodes }
{
    if siblings.nodes() == number {
        siblings.add_node()?;
    }
    Ok(())
}

/// Makes a list of this number, which is empty, if there is none.
fn make_list(siblings: &mut Siblings, number: usize) -> Result<(), AllocError>
    requires { number ≤ length siblings.old.lists }
    ensures lists { (c : ℕ) → list_at siblings.new.lists c ≡ list_at siblings.old.lists c }
    ensures made { OnOk result (number < length siblings.new.lists) }
    ensures kept { length siblings.old.lists ≤ length siblings.new.lists }
    ensures nodes { siblings.new.nodes ≡ siblings.old.nodes }
{
    if siblings.lists() == number {
        siblings.add_list()?;
    }
    Ok(())
}
