//! The operations of a block, the blocks of a region and the regions of an operation, in order.
ghost use Rattle.std.specs.Prelude.{◌≡◌, IsSome, All};
ghost use Rattle.ir_program.specs.Program.{operation_at, block_at, region_at};
ghost use Rattle.ir_program.specs.Lists.{operations_in, blocks_in, regions_in, StandsInBlock, StandsInRegion, StandsInOperation};

use crate::program::Program;
use crate::{BasicBlock, Operation, Ptr, Region};
use ir_entities::Walk;
use std::marker::Model;

/// The operations of a block, first to last, to be taken from either end.
#[derive(Drop)]
pub struct Operations<'a, O, B> {
    program: &'a Program<O, B>,
    slots: Walk<'a>,
}

impl<'a, O, B> Model for Operations<'a, O, B> {
    ghost use Rattle.std.specs.Prelude.{List};
    ghost use Rattle.ir_entities.specs.Links.{items_between, list_at};
    ghost use Rattle.ir_program.specs.declared.handles.Ptr.{Ptr};
    ghost use Rattle.ir_program.specs.declared.handles.Operation.{Operation};
    ghost use Rattle.ir_program.specs.Program.{handles_of};
    ghost use Rattle.ir_program.specs.Listed.{AreHeld};

    ghost Value = { List (Ptr Operation) };

    ghost view = { λ s. handles_of s.program.now.forest.ops
        (items_between s.slots.left (list_at s.slots.siblings.now.lists s.slots.list)) };

    ghost invariant = { λ s. AreHeld s.program.now.forest.ops
        (items_between s.slots.left (list_at s.slots.siblings.now.lists s.slots.list)) };
}

impl<'a, O, B> Iterator for Operations<'a, O, B> {
    ghost use Rattle.std.specs.Iterator.{YieldsFirst, item_count};

    type Item = Ptr<Operation>;

    ghost next_gives = { YieldsFirst (λ s. s) };

    ghost remaining = { item_count (λ s. s) };

    fn next(&mut self) -> Option<Ptr<Operation>> {
        let slot = self.slots.next()?;
        Some(self.program.operation_in(slot))
    }
}

impl<'a, O, B> DoubleEndedIterator for Operations<'a, O, B> {
    ghost use Rattle.std.specs.Iterator.{YieldsLast};

    ghost next_back_gives = { YieldsLast (λ s. s) };

    fn next_back(&mut self) -> Option<Ptr<Operation>> {
        let slot = self.slots.next_back()?;
        Some(self.program.operation_in(slot))
    }
}

/// The blocks of a region, first to last, to be taken from either end.
#[derive(Drop)]
pub struct Blocks<'a, O, B> {
    program: &'a Program<O, B>,
    slots: Walk<'a>,
}

impl<'a, O, B> Model for Blocks<'a, O, B> {
    ghost use Rattle.std.specs.Prelude.{List};
    ghost use Rattle.ir_entities.specs.Links.{items_between, list_at};
    ghost use Rattle.ir_program.specs.declared.handles.Ptr.{Ptr};
    ghost use Rattle.ir_program.specs.declared.handles.BasicBlock.{BasicBlock};
    ghost use Rattle.ir_program.specs.Program.{handles_of};
    ghost use Rattle.ir_program.specs.Listed.{AreHeld};

    ghost Value = { List (Ptr BasicBlock) };

    ghost view = { λ s. handles_of s.program.now.forest.blocks
        (items_between s.slots.left (list_at s.slots.siblings.now.lists s.slots.list)) };

    ghost invariant = { λ s. AreHeld s.program.now.forest.blocks
        (items_between s.slots.left (list_at s.slots.siblings.now.lists s.slots.list)) };
}

impl<'a, O, B> Iterator for Blocks<'a, O, B> {
    ghost use Rattle.std.specs.Iterator.{YieldsFirst, item_count};

    type Item = Ptr<BasicBlock>;

    ghost next_gives = { YieldsFirst (λ s. s) };

    ghost remaining = { item_count (λ s. s) };

    fn next(&mut self) -> Option<Ptr<BasicBlock>> {
        let slot = self.slots.next()?;
        Some(self.program.block_in(slot))
    }
}

impl<'a, O, B> DoubleEndedIterator for Blocks<'a, O, B> {
    ghost use Rattle.std.specs.Iterator.{YieldsLast};

    ghost next_back_gives = { YieldsLast (λ s. s) };

    fn next_back(&mut self) -> Option<Ptr<BasicBlock>> {
        let slot = self.slots.next_back()?;
        Some(self.program.block_in(slot))
    }
}

/// The regions of an operation, first to last, to be taken from either end.
#[derive(Drop)]
pub struct Regions<'a, O, B> {
    program: &'a Program<O, B>,
    slots: Walk<'a>,
}

impl<'a, O, B> Model for Regions<'a, O, B> {
    ghost use Rattle.std.specs.Prelude.{List};
    ghost use Rattle.ir_entities.specs.Links.{items_between, list_at};
    ghost use Rattle.ir_program.specs.declared.handles.Ptr.{Ptr};
    ghost use Rattle.ir_program.specs.declared.handles.Region.{Region};
    ghost use Rattle.ir_program.specs.Program.{handles_of};
    ghost use Rattle.ir_program.specs.Listed.{AreHeld};

    ghost Value = { List (Ptr Region) };

    ghost view = { λ s. handles_of s.program.now.forest.regions
        (items_between s.slots.left (list_at s.slots.siblings.now.lists s.slots.list)) };

    ghost invariant = { λ s. AreHeld s.program.now.forest.regions
        (items_between s.slots.left (list_at s.slots.siblings.now.lists s.slots.list)) };
}

impl<'a, O, B> Iterator for Regions<'a, O, B> {
    ghost use Rattle.std.specs.Iterator.{YieldsFirst, item_count};

    type Item = Ptr<Region>;

    ghost next_gives = { YieldsFirst (λ s. s) };

    ghost remaining = { item_count (λ s. s) };

    fn next(&mut self) -> Option<Ptr<Region>> {
        let slot = self.slots.next()?;
        Some(self.program.region_in(slot))
    }
}

impl<'a, O, B> DoubleEndedIterator for Regions<'a, O, B> {
    ghost use Rattle.std.specs.Iterator.{YieldsLast};

    ghost next_back_gives = { YieldsLast (λ s. s) };

    fn next_back(&mut self) -> Option<Ptr<Region>> {
        let slot = self.slots.next_back()?;
        Some(self.program.region_in(slot))
    }
}

impl<O, B> Program<O, B> {
    /// The operations of a block, first to last.
    pub fn operations(&self, block: Ptr<BasicBlock>) -> Operations<'_, O, B>
        requires { IsSome (block_at self.now block) }
        ensures list { result ≡ operations_in self.now block }
        ensures stand { All (λ op. StandsInBlock self.now op block) (operations_in self.now block) }
    {
        self.know_listed();
        Operations {
            program: self,
            slots: self.forest.ops_walk(block.key),
        }
    }

    /// The blocks of a region, first to last.
    pub fn blocks(&self, region: Ptr<Region>) -> Blocks<'_, O, B>
        requires { IsSome (region_at self.now region) }
        ensures list { result ≡ blocks_in self.now region }
        ensures stand { All (λ block. StandsInRegion self.now block region) (blocks_in self.now region) }
    {
        self.know_listed();
        Blocks {
            program: self,
            slots: self.forest.blocks_walk(region.key),
        }
    }

    /// The regions of an operation, first to last.
    pub fn regions(&self, op: Ptr<Operation>) -> Regions<'_, O, B>
        requires { IsSome (operation_at self.now op) }
        ensures list { result ≡ regions_in self.now op }
        ensures stand { All (λ region. StandsInOperation self.now region op) (regions_in self.now op) }
    {
        self.know_listed();
        Regions {
            program: self,
            slots: self.forest.regions_walk(op.key),
        }
    }
}
