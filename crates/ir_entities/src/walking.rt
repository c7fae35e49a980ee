//! Walking over all that stands in a place, by the links alone.

ghost use Rattle.std.specs.Prelude.{◌≡◌, ◌<◌, ◌^◌, ◌↔◌, List, ◌∷◌, length, IfSome, Some, None};
ghost use Rattle.ir_entities.specs.Shape.{IsIn, IsInside};
ghost use Rattle.ir_entities.specs.Forest.{HoldsInUse, shape_of};
ghost use Rattle.ir_entities.specs.Walk.{children, first_place, place_after, places_from, walk_of, ops_among, AreOnce, IsOneOf, StandInOne, IsRest};
ghost use Rattle.ir_entities.specs.declared.forest.Place.{Place};

use crate::forest::{Forest, Place};

impl<O, B, R> Forest<O, B, R> {
    /// Tells that no place stands in two, and none twice in one; it does nothing.
    pub fn know_parents(&self)
        ensures one { StandInOne (shape_of self.now) }
        ensures once { (e : Place) → AreOnce (children (shape_of self.now) e) }
    {
        self.in_blocks.know_apart();
        self.in_regions.know_apart();
        self.in_ops.know_apart();
        self.in_blocks.know_members();
        self.in_regions.know_members();
        self.in_ops.know_members();
    }

    /// What stands first in a place.
    pub fn first_child(&self, at: Place) -> Option<Place>
        requires { HoldsInUse self.now at }
        ensures { result ≡ first_place (children (shape_of self.now) at) }
    {
        match at {
            Place::Op(op) => self.in_ops.head(op).map(Place::Region),
            Place::Block(block) => self.in_blocks.head(block).map(Place::Op),
            Place::Region(region) => self.in_regions.head(region).map(Place::Block),
        }
    }

    /// What stands right after a place, in what holds it.
    pub fn next_sibling(&self, at: Place) -> Option<Place>
        requires { HoldsInUse self.now at }
        ensures { (d : Place) → IsIn (shape_of self.now) at d
            → result ≡ place_after at (children (shape_of self.now) d) }
    {
        match at {
            Place::Op(op) => {
                let next = self.in_blocks.next(op)?;
                Some(Place::Op(next))
            }
            Place::Block(block) => {
                let next = self.in_regions.next(block)?;
                Some(Place::Block(next))
            }
            Place::Region(region) => {
                let next = self.in_ops.next(region)?;
                Some(Place::Region(next))
            }
        }
    }

    /// What comes after all that is inside `at`, among the places inside `x`.
    fn next_after(&self, x: Place, at: Place) -> Option<Place>
        requires used { HoldsInUse self.now at }
        requires inside { IsInside (shape_of self.now) x at }
        ensures { (rest : List Place) → IsRest (shape_of self.now) x at rest → result ≡ first_place rest }
    {
        self.know_forest();
        self.know_parents();
        let mut from = at;
        // How many operations can still stand above.
        let mut left = self.ops.slots();
        'up: while !from.is(x) {
            if let Some(next) = self.next_sibling(from) {
                return Some(next);
            }
            let Some(holder) = self.parent(from) else {
                return None;
            };
            if let Place::Op(_) = holder {
                if left == 0 {
                    unreachable!();
                }
                left -= 1;
            }
            from = holder;
        }
        None
    }

    /// The place after `at` among the places inside `x`: a place comes before what it holds.
    pub fn next_inside(&self, x: Place, at: Place) -> Option<Place>
        requires used { HoldsInUse self.now at }
        requires inside { IsInside (shape_of self.now) x at }
        ensures rest { places_from (Some at) (walk_of self.now x) ≡ at ∷ places_from result (walk_of self.now x) }
        ensures inside { IfSome result (λ next. HoldsInUse self.now next × IsInside (shape_of self.now) x next) }
    {
        self.know_forest();
        self.know_parents();
        if let Some(child) = self.first_child(at) {
            return Some(child);
        }
        self.next_after(x, at)
    }

    /// Tells what the walk of a place is; it does nothing.
    pub fn know_walk(&self, x: Place)
        requires { HoldsInUse self.now x }
        ensures once { AreOnce (walk_of self.now x) }
        ensures all { (e : Place) → IsOneOf e (walk_of self.now x) ↔ IsInside (shape_of self.now) x e }
        ensures begins { places_from (Some x) (walk_of self.now x) ≡ walk_of self.now x }
        ensures short { length (ops_among (walk_of self.now x)) < 2 ^ 64 }
    {
        self.know_forest();
        self.know_parents();
        let _slots = self.ops.slots();
    }

    /// How many operations are inside `x`, itself counted.
    pub fn count_ops_inside(&self, x: Place) -> usize
        requires { HoldsInUse self.now x }
        ensures { result ≡ length (ops_among (walk_of self.now x)) }
    {
        self.know_walk(x);
        let mut count = 0;
        let mut at = Some(x);
        'places: while let Some(place) = at {
            let next = self.next_inside(x, place);
            if let Place::Op(_) = place {
                count += 1;
            }
            at = next;
        }
        count
    }
}
