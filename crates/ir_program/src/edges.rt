//! Where blocks are used: the successors that are the block, as edges to it.
ghost use Rattle.std.specs.Prelude.{◌≡◌, ◌↔◌, ◌<◌, ◌^◌, ℕ, length, Some, IsSome, IsTrue};
ghost use Rattle.ir_entities.specs.Uses.{IsPlace, key_of};
ghost use Rattle.ir_program.specs.Program.{block_at};
ghost use Rattle.ir_program.specs.Order.{edges_listed};
ghost use Rattle.ir_program.specs.Spots.{successor_use};
ghost use Rattle.ir_program.specs.Uses.{HasPredecessor, IsPredecessorCount, AreBlockUses};

use crate::program::Program;
use crate::{BasicBlock, Ptr, Use};
use ir_entities::UsesOf;
use std::marker::Model;

/// The edges to a block, each once.
#[derive(Drop)]
pub struct BlockUses<'a, O, B> {
    program: &'a Program<O, B>,
    places: UsesOf<'a>,
}

impl<'a, O, B> Model for BlockUses<'a, O, B> {
    ghost use Rattle.std.specs.Prelude.{List, map};
    ghost use Rattle.ir_program.specs.declared.handles.Ptr.{Ptr};
    ghost use Rattle.ir_program.specs.declared.handles.BasicBlock.{BasicBlock};
    ghost use Rattle.ir_program.specs.declared.handles.Use.{Use};
    ghost use Rattle.ir_program.specs.Spots.{successor_use, ArePlaces};

    ghost Value = { List (Use (Ptr BasicBlock)) };

    ghost view = { λ s. map (successor_use s.program.now) s.places };

    ghost invariant = { λ s. ArePlaces s.program.now.targets s.places };
}

impl<'a, O, B> Iterator for BlockUses<'a, O, B> {
    ghost use Rattle.std.specs.Iterator.{YieldsFirst, item_count};

    type Item = Use<Ptr<BasicBlock>>;

    ghost next_gives = { YieldsFirst (λ s. s) };

    ghost remaining = { item_count (λ s. s) };

    fn next(&mut self) -> Option<Use<Ptr<BasicBlock>>> {
        let place = self.places.next()?;
        Some(self.program.successor_use(place))
    }
}

impl<O, B> Program<O, B> {
    /// How many edges lead to the block. An operation with two of them counts twice.
    pub fn predecessor_count(&self, block: Ptr<BasicBlock>) -> usize
        requires { IsSome (block_at self.now block) }
        ensures count { IsPredecessorCount self.now block result }
        ensures only { (n : ℕ) → IsPredecessorCount self.now block n → n ≡ result }
        ensures listed { result ≡ length (edges_listed self.now block) }
    {
        self.targets.know_named();
        self.targets.count(self.edge_thread(block))
    }

    /// Whether an edge leads to the block.
    pub fn has_predecessor(&self, block: Ptr<BasicBlock>) -> bool
        requires { IsSome (block_at self.now block) }
        ensures { IsTrue result ↔ HasPredecessor self.now block }
    {
        self.targets.know_named();
        self.targets.is_used(self.edge_thread(block))
    }

    /// The edges that lead to the block, each once, in an order that stays while the program does.
    pub fn block_uses(&self, block: Ptr<BasicBlock>) -> BlockUses<O, B>
        requires { IsSome (block_at self.now block) }
        ensures uses { AreBlockUses self.now block result }
        ensures order { result ≡ edges_listed self.now block }
        ensures fits { length result < 2 ^ 64 }
    {
        self.targets.know_named();
        BlockUses {
            program: self,
            places: self.targets.iter(self.edge_thread(block)),
        }
    }

    /// The edge at a place of successors.
    pub(crate) fn successor_use(&self, place: usize) -> Use<Ptr<BasicBlock>>
        requires { IsPlace self.now.targets place }
        ensures { result ≡ successor_use self.now place }
    {
        let spot = self.targets.spot(place);
        Use {
            user_op: self.operation_in(spot.user),
            index: spot.index,
            def: self.targets.key(self.targets.definition(place)),
        }
    }

    /// The number of the block's thread among the edges.
    pub(crate) fn edge_thread(&self, block: Ptr<BasicBlock>) -> usize
        requires { IsSome (block_at self.now block) }
        ensures { key_of self.now.targets result ≡ Some block }
    {
        self.forest.block(block.key).thread
    }
}
