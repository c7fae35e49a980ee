//! The order of the operations inside a root.
ghost use Rattle.std.specs.Prelude.{◌≡◌, ◌↔◌, ◌<◌, IfOk, IsSome, IsTrue, OnOk, length};
ghost use Rattle.ir_program.specs.Program.{operation_at};
ghost use Rattle.ir_program.specs.declared.handles.Operation.{Operation};
ghost use Rattle.ir_program.specs.declared.handles.Ptr.{Ptr};
ghost use Rattle.kit_checks.specs.Naming.{AreInWalkOrder, GivesNumber, IsNumberedBelow, KeepsNumbers, NumbersEntity, number_in};

use crate::places::next;
use ir_program::{IRNode, Operation, Program, Ptr};
use std::alloc::{AllocError, Global};

/// A number for each operation inside a root: the later it comes in walk order, the greater. It is kept at the slot of
/// the operation, which no other one that is there has, so nothing is hashed and no list is searched.
#[derive(Drop)]
pub(crate) struct WalkOrder {
    numbers: Vec<usize>,
}

impl WalkOrder {
    /// The order in which no operation has a number.
    pub(crate) fn new(alloc: Global) -> WalkOrder
        ensures { (op : Ptr Operation) → number_in result op ≡ 0 }
    {
        WalkOrder {
            numbers: Vec::new(alloc),
        }
    }

    /// Numbers the operations inside a root, and the root itself, in walk order. Blocks and regions are counted too.
    ///
    /// # Errors
    /// No memory.
    pub(crate) fn inside<O, B>(
        alloc: Global,
        program: &Program<O, B>,
        root: Ptr<Operation>,
    ) -> Result<WalkOrder, AllocError>
        requires { IsSome (operation_at program.now root) }
        ensures { IfOk result (λ order. AreInWalkOrder program.now root order) }
    {
        let mut order = WalkOrder::new(alloc);
        let mut number = 0;
        for node in program.nodes_inside(IRNode::Operation(root)) {
            number = next(number)?;
            order.number_entity(node, number)?;
        }
        Ok(order)
    }

    /// Gives an entity this number, if it is an operation.
    pub(crate) fn number_entity(&mut self, node: IRNode, number: usize) -> Result<(), AllocError>
        ensures { OnOk result (NumbersEntity self.old self.new node number) }
    {
        match node {
            IRNode::Operation(op) => self.set_number(op, number),
            IRNode::BasicBlock(_) | IRNode::Region(_) => Ok(()),
        }
    }

    /// Gives an operation this number.
    fn set_number(&mut self, op: Ptr<Operation>, number: usize) -> Result<(), AllocError>
        ensures { OnOk result (GivesNumber self.old self.new op number) }
    {
        let slot = op.slot();
        self.make_room(slot)?;
        self.numbers[slot] = number;
        Ok(())
    }

    /// Makes room for the number of the operation at a slot.
    fn make_room(&mut self, slot: usize) -> Result<(), AllocError>
        ensures room { OnOk result (slot < length self.new.numbers.items) }
        ensures kept { OnOk result (KeepsNumbers self.old self.new) }
    {
        while self.numbers.len() <= slot {
            self.numbers.push(0)?;
        }
        Ok(())
    }

    /// The number of an operation; 0 if it has none.
    fn number_of(&self, op: Ptr<Operation>) -> usize
        ensures { result ≡ number_in self.now op }
    {
        match self.numbers.get(op.slot()) {
            Some(number) => *number,
            None => 0,
        }
    }

    /// Whether an operation has a number, and a smaller one than another operation.
    pub(crate) fn is_earlier(&self, op: Ptr<Operation>, other: Ptr<Operation>) -> bool
        ensures { IsTrue result ↔ IsNumberedBelow self.now op other }
    {
        let number = self.number_of(op);
        0 < number && number < self.number_of(other)
    }
}
