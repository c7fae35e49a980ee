//! Erasing operations, blocks and regions with all that stands in them.
ghost use Rattle.std.specs.Prelude.{◌≡◌, ◌↔◌, IsSome, IsTrue};
ghost use Rattle.ir_program.specs.declared.handles.IRNode.TheVariants.{Operation as OperationNode, BasicBlock as BlockNode, Region as RegionNode};
ghost use Rattle.ir_program.specs.Program.{operation_at, block_at, region_at};
ghost use Rattle.ir_program.specs.Lists.{IsLiveNode, IsLinkedBlock, IsLinkedOperation, IsUnlinkedBlock, IsUnlinkedOperation};
ghost use Rattle.ir_program.specs.Erased.{IsApart, Erases, ErasesBlock, ErasesOperation, ErasesRegion};

use crate::forgetting::forget_inside;
use crate::program::Program;
use crate::users::is_apart;
use crate::{BasicBlock, IRNode, Operation, Ptr, Region};
use ir_entities::Place;

impl<O, B> Program<O, B> {
    /// Whether an entity may be erased: no operation outside it takes a value or may go on to a block that is inside.
    /// No memory is asked for.
    pub fn can_erase(&self, node: IRNode) -> bool
        requires { IsLiveNode self.now node }
        ensures { IsTrue result ↔ IsApart self.now node }
    {
        self.know_listed();
        self.values.know_named();
        self.targets.know_named();
        is_apart(&self.forest, &self.values, &self.targets, node.place())
    }
}

impl<O: Drop, B: Drop> Program<O, B> {
    /// Erases an operation that stands in no block, with all that stands in it. No memory is asked for.
    fn erase_unlinked_operation(&mut self, op: Ptr<Operation>)
        requires operation { IsSome (operation_at self.old op) }
        requires unlinked { IsUnlinkedOperation self.old op }
        requires apart { IsApart self.old (OperationNode op) }
        ensures { Erases self.old self.new (OperationNode op) }
    {
        self.know_listed();
        let place = Place::Op(op.key.slot);
        self.drop_inside(place);
        self.forest.know_walk(place);
        self.forest.know_parents();
        self.values.know_named();
        self.targets.know_named();
        forget_inside(&self.forest, &mut self.values, &mut self.targets, place);
        self.forest.erase_tree(op.key);
    }

    /// Takes an operation out of the block that it stands in, and erases it.
    fn erase_linked_operation(&mut self, op: Ptr<Operation>)
        requires linked { IsLinkedOperation self.old op }
        requires apart { IsApart self.old (OperationNode op) }
        ensures { ErasesOperation self.old self.new op }
    {
        self.know_listed();
        self.unlink_operation(op);
        self.erase_unlinked_operation(op);
    }

    /// Erases an operation with all that stands in it: its handle, and those of all that stood in it, lead nowhere for
    /// good. No operation outside it takes a value or goes on to a block that is inside. No memory is asked for.
    pub fn erase_operation(&mut self, op: Ptr<Operation>)
        requires operation { IsSome (operation_at self.old op) }
        requires apart { IsApart self.old (OperationNode op) }
        ensures { ErasesOperation self.old self.new op }
    {
        self.know_listed();
        match self.parent_block(op) {
            Some(_) => self.erase_linked_operation(op),
            None => self.erase_unlinked_operation(op),
        }
    }

    /// Erases a block that stands in no region, with all that stands in it. No memory is asked for.
    fn erase_unlinked_block(&mut self, block: Ptr<BasicBlock>)
        requires block { IsSome (block_at self.old block) }
        requires unlinked { IsUnlinkedBlock self.old block }
        requires apart { IsApart self.old (BlockNode block) }
        ensures { Erases self.old self.new (BlockNode block) }
    {
        self.know_listed();
        let place = Place::Block(block.key.slot);
        self.drop_inside(place);
        self.forest.know_walk(place);
        self.forest.know_parents();
        self.values.know_named();
        self.targets.know_named();
        forget_inside(&self.forest, &mut self.values, &mut self.targets, place);
        self.forest.erase_block_tree(block.key);
    }

    /// Takes a block out of the region that it stands in, and erases it.
    fn erase_linked_block(&mut self, block: Ptr<BasicBlock>)
        requires linked { IsLinkedBlock self.old block }
        requires apart { IsApart self.old (BlockNode block) }
        ensures { ErasesBlock self.old self.new block }
    {
        self.know_listed();
        self.unlink_block(block);
        self.erase_unlinked_block(block);
    }

    /// Erases a block with all that stands in it: its handle, and those of all that stood in it, lead nowhere for
    /// good. No operation outside it takes a value or goes on to a block that is inside. No memory is asked for.
    pub fn erase_block(&mut self, block: Ptr<BasicBlock>)
        requires block { IsSome (block_at self.old block) }
        requires apart { IsApart self.old (BlockNode block) }
        ensures { ErasesBlock self.old self.new block }
    {
        self.know_listed();
        match self.parent_region(block) {
            Some(_) => self.erase_linked_block(block),
            None => self.erase_unlinked_block(block),
        }
    }

    /// Erases a region with all that stands in it; the operation that it stood in keeps its other regions. The handle of
    /// the region, and those of all that stood in it, lead nowhere for good. No operation outside it takes a value or goes
    /// on to a block that is inside. No memory is asked for.
    pub fn erase_region(&mut self, region: Ptr<Region>)
        requires region { IsSome (region_at self.old region) }
        requires apart { IsApart self.old (RegionNode region) }
        ensures { ErasesRegion self.old self.new region }
    {
        self.know_listed();
        let place = Place::Region(region.key.slot);
        self.drop_inside(place);
        self.forest.know_walk(place);
        self.values.know_named();
        self.targets.know_named();
        forget_inside(&self.forest, &mut self.values, &mut self.targets, place);
        // From here until the region is gone it stands in no operation.
        self.forest.unlink_region(region.key);
        self.forest.know_parents();
        self.forest.erase_region_tree(region.key);
    }
}
