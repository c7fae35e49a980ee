//! Another in place of what is used at each of several uses.
ghost use Rattle.std.specs.Prelude.{◌≡◌, IsSome};
ghost use Rattle.ir_program.specs.Program.{block_at, IsLiveValue};
ghost use Rattle.ir_program.specs.Rows.{operands_at, successors_at};
ghost use Rattle.ir_program.specs.Among.{is_among, AreUseIn};
ghost use Rattle.ir_program.specs.Edits.{KeepsValues};
ghost use Rattle.ir_program.specs.UseEdits.{ReplacesChosen, RetargetsChosen};

use crate::program::Program;
use crate::{BasicBlock, Ptr, Use, Value};

impl<O, B> Program<O, B> {
    /// Puts another value in place of the operand at each of these uses. No memory is asked for.
    pub fn replace_uses(&mut self, places: &[Use<Value>], other: Value)
        requires places { AreUseIn (operands_at self.old) places.now }
        requires other { IsLiveValue self.old other }
        ensures replaced { ReplacesChosen self.old self.new (is_among places.now) other }
        ensures values { KeepsValues self.old self.new }
    {
        for place in places {
            self.replace_operand(place.user_op, place.index, other);
        }
    }

    /// Makes each of these edges lead to another block. No memory is asked for.
    pub fn retarget_uses(&mut self, places: &[Use<Ptr<BasicBlock>>], other: Ptr<BasicBlock>)
        requires places { AreUseIn (successors_at self.old) places.now }
        requires other { IsSome (block_at self.old other) }
        ensures retargeted { RetargetsChosen self.old self.new (is_among places.now) other }
        ensures values { KeepsValues self.old self.new }
    {
        for place in places {
            self.replace_successor(place.user_op, place.index, other);
        }
    }
}
