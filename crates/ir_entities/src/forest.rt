//! Operations in blocks, blocks in regions, regions in operations, whatever their data is.

ghost use Rattle.std.specs.Prelude.{List, ◌≡◌, ◌≢◌, ℕ, Bool, true, false, ◌+◌, ◌<◌, ◌≤◌, ◌++◌, ◌∷◌, [], map, IfOk, OnOk, OnErr, IfSome, IfNone, IsNone, IsSome, IsTrue, ◌↔◌, MatchOption, length, Some, None};
ghost use Rattle.ir_arena.specs.declared.arena.Key.{Key};
ghost use Rattle.ir_arena.specs.Arena.{get, held, slot_at, IsVacant, ClearsSlot, Updates, KeepsSpent, IsSpent};
ghost use Rattle.ir_entities.specs.Links.{IsLinked, list_at, has};
ghost use Rattle.ir_entities.specs.Shape.{IsInside, IsIn};
ghost use Rattle.ir_entities.specs.Forest.{ops_in, blocks_in, regions_in, IsRootOp, HoldsInUse, shape_of};
ghost use Rattle.ir_entities.specs.declared.forest.Place.{Place};
ghost use Rattle.ir_entities.specs.declared.forest.Place.TheVariants.{Op, Block, Region};

use crate::siblings::Siblings;
use ir_arena::{Arena, Key};
use std::alloc::{AllocError, Global};
use std::marker::Model;

/// An operation, a block or a region, by the number of its slot.
#[derive(Clone, Copy)]
pub enum Place {
    Op(usize),
    Block(usize),
    Region(usize),
}

impl Place {
    /// Whether both are the same place.
    pub fn is(self, other: Place) -> bool
        ensures { IsTrue result ↔ (self ≡ other) }
    {
        match (self, other) {
            (Place::Op(i), Place::Op(j)) => i == j,
            (Place::Block(i), Place::Block(j)) => i == j,
            (Place::Region(i), Place::Region(j)) => i == j,
            _ => false,
        }
    }
}

/// Operations, blocks and regions.
#[derive(Drop)]
pub struct Forest<O, B, R> {
    pub(crate) ops: Arena<O>,
    pub(crate) blocks: Arena<B>,
    pub(crate) regions: Arena<R>,
    pub(crate) in_blocks: Siblings,
    pub(crate) in_regions: Siblings,
    pub(crate) in_ops: Siblings,
}

impl<O, B, R> Model for Forest<O, B, R> {
    ghost use Rattle.ir_entities.specs.Forest.{Forest as Trees, IsForest};

    ghost Value = { Trees O B R };

    ghost view = { λ f. record {
      ops = f.ops;
      blocks = f.blocks;
      regions = f.regions;
      in_blocks = f.in_blocks;
      in_regions = f.in_regions;
      in_ops = f.in_ops;
    } };

    ghost invariant = { λ f. IsForest
        (record {
          ops = f.ops;
          blocks = f.blocks;
          regions = f.regions;
          in_blocks = f.in_blocks;
          in_regions = f.in_regions;
          in_ops = f.in_ops;
        }) };
}

impl<O, B, R> Forest<O, B, R> {
    /// No operation, no block and no region.
    pub fn new(alloc: Global) -> Self
        ensures ops { result.ops ≡ [] }
        ensures blocks { result.blocks ≡ [] }
        ensures regions { result.regions ≡ [] }
    {
        Forest {
            ops: Arena::new(alloc),
            blocks: Arena::new(alloc),
            regions: Arena::new(alloc),
            in_blocks: Siblings::new(alloc),
            in_regions: Siblings::new(alloc),
            in_ops: Siblings::new(alloc),
        }
    }

    /// Whether there is no operation, no block and no region.
    pub fn is_vacant(&self) -> bool
        ensures { IsTrue result ↔ (IsVacant self.now.ops × IsVacant self.now.blocks × IsVacant self.now.regions) }
    {
        self.ops.is_vacant() && self.blocks.is_vacant() && self.regions.is_vacant()
    }

    /// What this place stands in.
    pub fn parent(&self, at: Place) -> Option<Place>
        requires { HoldsInUse self.now at }
        ensures { MatchOption result ((d : Place) → IsIn (shape_of self.now) at d
            → ⊥) (λ d. IsIn (shape_of self.now) at d × HoldsInUse self.now d
            × ((e : Place) → IsIn (shape_of self.now) at e → e ≡ d)) }
    {
        match at {
            Place::Op(i) => {
                self.in_blocks.know_apart();
                let c = self.in_blocks.list(i)?;
                Some(Place::Block(c))
            }
            Place::Block(i) => {
                self.in_regions.know_apart();
                let c = self.in_regions.list(i)?;
                Some(Place::Region(c))
            }
            Place::Region(i) => {
                self.in_ops.know_apart();
                let c = self.in_ops.list(i)?;
                Some(Place::Op(c))
            }
        }
    }

    /// Whether `c` is `x` or stands in it, however far down.
    pub fn is_inside(&self, x: Place, c: Place) -> bool
        requires { HoldsInUse self.now c }
        ensures { IsTrue result ↔ IsInside (shape_of self.now) x c }
    {
        let mut at = c;
        // How many operations can still stand above.
        let mut left = self.ops.slots();
        'up: while !at.is(x) {
            match self.parent(at) {
                None => return false,
                Some(up) => {
                    if let Place::Op(_) = up {
                        if left == 0 {
                            unreachable!();
                        }
                        left -= 1;
                    }
                    at = up;
                }
            }
        }
        true
    }
}
