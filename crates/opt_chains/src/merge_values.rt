//! Values in place of the arguments of blocks that are joined.
ghost use Rattle.std.specs.Prelude.{◌≡◌};
ghost use Rattle.ir_program.specs.Edits.{KeepsValues};
ghost use Rattle.ir_program.specs.Program.{IsLiveValue};
ghost use Rattle.ir_program.specs.UseEdits.{ReplacesValue};
ghost use Rattle.opt_chains.specs.MergedValues.{AreFinal, StandInsAreThere, TakesInstead, standing};

use ir_context::{TypeTable, TypedProgram, UseCalls};
use ir_program::Value;
use std::alloc::Global;

/// An argument, and the value that comes in its place.
#[derive(Clone, Copy)]
pub struct StandIn {
    /// The argument.
    pub argument: Value,
    /// The value.
    pub value: Value,
}

/// Puts a value in place of an argument, in all operations. No memory is asked for.
fn replace_argument<O, B, T: TypeTable>(
    alloc: Global,
    ctx: &mut TypedProgram<O, B, T>,
    stand_in: StandIn,
)
    requires argument { IsLiveValue ctx.old.program stand_in.argument }
    requires value { IsLiveValue ctx.old.program stand_in.value }
    ensures replaced { ReplacesValue ctx.old.program ctx.new.program stand_in.argument stand_in.value }
    ensures values { KeepsValues ctx.old.program ctx.new.program }
    ensures types { ctx.new.types ≡ ctx.old.types }
{
    let argument = stand_in.argument;
    // It always succeeds.
    let _done = argument.replace_all_uses_with(alloc, ctx, stand_in.value);
}

/// Puts values in place of arguments, in all operations. No memory is asked for.
pub(crate) fn replace_arguments<O, B, T: TypeTable>(
    alloc: Global,
    ctx: &mut TypedProgram<O, B, T>,
    stand_ins: &[StandIn],
)
    requires live { StandInsAreThere ctx.old.program stand_ins.now }
    requires fixed { AreFinal stand_ins.now }
    ensures replaced { TakesInstead ctx.old.program ctx.new.program (standing stand_ins.now) }
    ensures numbers { ctx.new.program.counter ≡ ctx.old.program.counter }
    ensures types { ctx.new.types ≡ ctx.old.types }
{
    for stand_in in stand_ins {
        replace_argument(alloc, ctx, *stand_in);
    }
}
