//! What an operation, a region or a block stands in, and what that stands in.
ghost use Rattle.std.specs.Prelude.{◌≡◌, ◌∷◌, Some, IfSome};
ghost use Rattle.ir_entities.specs.Forest.{HoldsInUse};
ghost use Rattle.ir_program.specs.Lists.{IsLiveNode};
ghost use Rattle.ir_program.specs.Around.{climb_from, nodes_around, IsWayUp};

use crate::IRNode;
use crate::program::Program;
use ir_entities::Place;
use std::marker::Model;

/// What is left of an entity and all that it stands in, from the inside out. No memory is asked for.
#[derive(Drop)]
pub struct NodesAround<'a, O, B> {
    program: &'a Program<O, B>,
    at: Option<Place>,
}

impl<'a, O, B> Model for NodesAround<'a, O, B> {
    ghost use Rattle.std.specs.Prelude.{List, map};
    ghost use Rattle.std.specs.Option.{ForSome};
    ghost use Rattle.ir_entities.specs.Forest.{HoldsInUse};
    ghost use Rattle.ir_program.specs.Around.{climb_from};
    ghost use Rattle.ir_program.specs.Preorder.{node_at};
    ghost use Rattle.ir_program.specs.declared.handles.IRNode.{IRNode};

    ghost Value = { List IRNode };

    ghost view = { λ s. map (node_at s.program.now) (climb_from s.program.now.forest s.at) };

    ghost invariant = { λ s. ForSome s.at (λ at. HoldsInUse s.program.now.forest at) };
}

impl<'a, O, B> Iterator for NodesAround<'a, O, B> {
    ghost use Rattle.std.specs.Iterator.{YieldsFirst, item_count};

    type Item = IRNode;

    ghost next_gives = { YieldsFirst (λ s. s) };

    ghost remaining = { item_count (λ s. s) };

    fn next(&mut self) -> Option<IRNode> {
        let place = self.at?;
        let program = self.program;
        self.at = program.place_around(place);
        Some(program.node_in(place))
    }
}

impl<O, B> Program<O, B> {
    /// What stands around what is in this slot.
    fn place_around(&self, place: Place) -> Option<Place>
        requires { HoldsInUse self.now.forest place }
        ensures rest { climb_from self.now.forest (Some place) ≡ place ∷ climb_from self.now.forest result }
        ensures used { IfSome result (λ around. HoldsInUse self.now.forest around) }
    {
        self.know_listed();
        self.forest.know_parents();
        self.forest.parent(place)
    }

    /// An entity and all that it stands in, from the inside out: the entity, what it stands in, what that stands in,
    /// and so on. No memory is asked for.
    pub fn nodes_around(&self, inner: IRNode) -> NodesAround<'_, O, B>
        requires { IsLiveNode self.now inner }
        ensures list { result ≡ nodes_around self.now inner }
        ensures way { IsWayUp self.now inner (nodes_around self.now inner) }
    {
        self.know_listed();
        self.forest.know_parents();
        NodesAround {
            program: self,
            at: Some(inner.place()),
        }
    }
}
