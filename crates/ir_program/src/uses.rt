//! Where values are used: the operands that are the value.
ghost use Rattle.std.specs.Prelude.{◌≡◌, ◌↔◌, ◌<◌, ◌^◌, ℕ, IsTrue, length};
ghost use Rattle.ir_entities.specs.Uses.{IsPlace};
ghost use Rattle.ir_program.specs.Program.{IsLiveValue};
ghost use Rattle.ir_program.specs.Few.{HasFewUses};
ghost use Rattle.ir_program.specs.Order.{uses_listed};
ghost use Rattle.ir_program.specs.Spots.{operand_use};
ghost use Rattle.ir_program.specs.Uses.{IsUsed, IsUseCount, AreUsesOf};

use crate::program::Program;
use crate::{Use, Value};
use ir_entities::UsesOf;
use std::marker::Model;

/// The uses of a value, each once.
#[derive(Drop)]
pub struct ValueUses<'a, O, B> {
    program: &'a Program<O, B>,
    places: UsesOf<'a>,
}

impl<'a, O, B> Model for ValueUses<'a, O, B> {
    ghost use Rattle.std.specs.Prelude.{List, map};
    ghost use Rattle.ir_program.specs.declared.handles.Use.{Use};
    ghost use Rattle.ir_program.specs.declared.handles.Value.{Value as Named};
    ghost use Rattle.ir_program.specs.Spots.{operand_use, ArePlaces};

    ghost Value = { List (Use Named) };

    ghost view = { λ s. map (operand_use s.program.now) s.places };

    ghost invariant = { λ s. ArePlaces s.program.now.values s.places };
}

impl<'a, O, B> Iterator for ValueUses<'a, O, B> {
    ghost use Rattle.std.specs.Iterator.{YieldsFirst, item_count};

    type Item = Use<Value>;

    ghost next_gives = { YieldsFirst (λ s. s) };

    ghost remaining = { item_count (λ s. s) };

    fn next(&mut self) -> Option<Use<Value>> {
        let place = self.places.next()?;
        Some(self.program.operand_use(place))
    }
}

impl<O, B> Program<O, B> {
    /// How many operands are the value. An operation that takes it twice counts twice.
    pub fn use_count(&self, value: Value) -> usize
        requires { IsLiveValue self.now value }
        ensures count { IsUseCount self.now value result }
        ensures only { (n : ℕ) → IsUseCount self.now value n → n ≡ result }
        ensures listed { result ≡ length (uses_listed self.now value) }
    {
        self.values.know_named();
        self.values.count(self.thread(value))
    }

    /// Whether some operation takes the value.
    pub fn is_used(&self, value: Value) -> bool
        requires { IsLiveValue self.now value }
        ensures { IsTrue result ↔ IsUsed self.now value }
    {
        self.values.know_named();
        self.values.is_used(self.thread(value))
    }

    /// The operands that are the value, each once, in an order that stays while the program does.
    pub fn uses_of(&self, value: Value) -> ValueUses<O, B>
        requires { IsLiveValue self.now value }
        ensures uses { AreUsesOf self.now value result }
        ensures order { result ≡ uses_listed self.now value }
        ensures fits { length result < 2 ^ 64 }
    {
        self.values.know_named();
        ValueUses {
            program: self,
            places: self.values.iter(self.thread(value)),
        }
    }

    /// Tells that the uses of values, of all of them together, can be counted. It does nothing.
    pub fn know_few_uses(&self)
        ensures { HasFewUses self.now }
    {
        self.values.know_few();
    }

    /// The use at a place of operands.
    pub(crate) fn operand_use(&self, place: usize) -> Use<Value>
        requires { IsPlace self.now.values place }
        ensures { result ≡ operand_use self.now place }
    {
        let spot = self.values.spot(place);
        Use {
            user_op: self.operation_in(spot.user),
            index: spot.index,
            def: self.values.key(self.values.definition(place)),
        }
    }
}
