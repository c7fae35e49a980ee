//! All that stands inside an operation, a region or a block.
ghost use Rattle.std.specs.Prelude.{◌≡◌, ◌∷◌, []};
ghost use Rattle.ir_entities.specs.Forest.{HoldsInUse};
ghost use Rattle.ir_program.specs.Lists.{IsLiveNode};
ghost use Rattle.ir_program.specs.Preorder.{node_at, nodes_inside, AreInside, IsPreorder, StandOnceEach};

use crate::IRNode;
use crate::program::Program;
use ir_entities::Place;
use std::marker::Model;

/// What is left of the entities inside one: each comes before what stands in it, and what stands in it comes from first
/// to last. No memory is asked for.
#[derive(Drop)]
pub struct NodesInside<'a, O, B> {
    program: &'a Program<O, B>,
    outer: Place,
    at: Option<Place>,
}

impl<'a, O, B> Model for NodesInside<'a, O, B> {
    ghost use Rattle.std.specs.Prelude.{List, map};
    ghost use Rattle.std.specs.Option.{ForSome};
    ghost use Rattle.ir_entities.specs.Forest.{HoldsInUse, shape_of};
    ghost use Rattle.ir_entities.specs.Shape.{IsInside};
    ghost use Rattle.ir_entities.specs.Walk.{places_from, walk_of};
    ghost use Rattle.ir_program.specs.Preorder.{node_at};
    ghost use Rattle.ir_program.specs.declared.handles.IRNode.{IRNode};

    ghost Value = { List IRNode };

    ghost view = { λ s. map (node_at s.program.now) (places_from s.at (walk_of s.program.now.forest s.outer)) };

    ghost invariant = { λ s. ForSome s.at (λ at. HoldsInUse s.program.now.forest at
        × IsInside (shape_of s.program.now.forest) s.outer at) };
}

impl<'a, O, B> Iterator for NodesInside<'a, O, B> {
    ghost use Rattle.std.specs.Iterator.{YieldsFirst, item_count};

    type Item = IRNode;

    ghost next_gives = { YieldsFirst (λ s. s) };

    ghost remaining = { item_count (λ s. s) };

    fn next(&mut self) -> Option<IRNode> {
        let place = self.at?;
        let program = self.program;
        self.at = program.forest.next_inside(self.outer, place);
        Some(program.node_in(place))
    }
}

impl<O, B> Program<O, B> {
    /// What is in this slot.
    pub(crate) fn node_in(&self, place: Place) -> IRNode
        requires { HoldsInUse self.now.forest place }
        ensures { result ≡ node_at self.now place }
    {
        match place {
            Place::Op(slot) => IRNode::Operation(self.operation_in(slot)),
            Place::Block(slot) => IRNode::BasicBlock(self.block_in(slot)),
            Place::Region(slot) => IRNode::Region(self.region_in(slot)),
        }
    }

    /// An entity and all that stands in it, however far down: each before what stands in it, and what stands in it
    /// from first to last. No memory is asked for.
    pub fn nodes_inside(&self, outer: IRNode) -> NodesInside<'_, O, B>
        requires { IsLiveNode self.now outer }
        ensures list { result ≡ nodes_inside self.now outer }
        ensures inside { AreInside self.now outer (nodes_inside self.now outer) }
        ensures once { StandOnceEach (nodes_inside self.now outer) }
        ensures order { IsPreorder self.now (outer ∷ []) (nodes_inside self.now outer) }
    {
        self.know_listed();
        let place = outer.place();
        self.forest.know_walk(place);
        NodesInside {
            program: self,
            outer: place,
            at: Some(place),
        }
    }
}
