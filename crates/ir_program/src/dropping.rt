//! Taking operands and successors away from all operations inside an entity.
ghost use Rattle.std.specs.Prelude.{◌≡◌, [], IsSome};
ghost use Rattle.ir_entities.specs.Forest.{HoldsInUse};
ghost use Rattle.ir_program.specs.Program.{operation_at};
ghost use Rattle.ir_program.specs.Edits.{EditsOperation};
ghost use Rattle.ir_program.specs.Lists.{IsLiveNode};
ghost use Rattle.ir_program.specs.Drops.{without_uses, DropsAt, DropsInside, DropsUses, KeepsFrame};

use crate::{IRNode, Operation, Program, Ptr};
use ir_entities::{Place, clear_row};

impl<O, B> Program<O, B> {
    /// Takes all operands of an operation away.
    fn clear_operands(&mut self, op: Ptr<Operation>)
        requires { IsSome (operation_at self.old op) }
        ensures cleared { EditsOperation self.old self.new op (λ o. record o { operands = [] }) }
        ensures frame { KeepsFrame self.old self.new }
    {
        let record = self.forest.op_mut(op.key);
        clear_row(&mut self.values, &mut record.operands);
    }

    /// Takes all successors of an operation away.
    fn clear_successors(&mut self, op: Ptr<Operation>)
        requires { IsSome (operation_at self.old op) }
        ensures cleared { EditsOperation self.old self.new op (λ o. record o { successors = [] }) }
        ensures frame { KeepsFrame self.old self.new }
    {
        let record = self.forest.op_mut(op.key);
        clear_row(&mut self.targets, &mut record.successors);
    }

    /// Takes all operands and successors of an operation away.
    fn clear_uses(&mut self, op: Ptr<Operation>)
        requires { IsSome (operation_at self.old op) }
        ensures cleared { EditsOperation self.old self.new op without_uses }
        ensures frame { KeepsFrame self.old self.new }
    {
        self.clear_operands(op);
        self.clear_successors(op);
    }

    /// Takes all operands and successors of an operation away, and leaves blocks and regions as they are.
    fn drop_at(&mut self, x: Place)
        requires { HoldsInUse self.old.forest x }
        ensures { DropsAt self.old self.new x }
    {
        if let Place::Op(slot) = x {
            let op = Ptr::new(self.forest.op_key(slot));
            self.clear_uses(op);
        }
    }

    /// Takes all operands and successors of all operations inside `x` away. No memory is asked for.
    pub(crate) fn drop_inside(&mut self, x: Place)
        requires { HoldsInUse self.old.forest x }
        ensures { DropsInside self.old self.new x }
    {
        self.forest.know_walk(x);
        let mut at = Some(x);
        'places: while let Some(place) = at {
            self.drop_at(place);
            at = self.forest.next_inside(x, place);
        }
    }

    /// Takes all operands and successors of all operations inside an entity away, itself counted. They keep all else,
    /// and so does the rest of the program. No memory is asked for.
    pub fn drop_all_uses(&mut self, node: IRNode)
        requires { IsLiveNode self.old node }
        ensures { DropsUses self.old self.new node }
    {
        self.know_listed();
        let place = node.place();
        self.forest.know_walk(place);
        self.drop_inside(place);
    }
}
