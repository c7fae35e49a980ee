//! Of a module that a text was read into.
ghost use Rattle.std.specs.Prelude.{[], ◌∷◌};
ghost use Rattle.ir_program.specs.declared.handles.IRNode.TheVariants.{Operation as OperationNode};
ghost use Rattle.irkit_running.specs.Known.{KitSeen};
ghost use Rattle.kit_ruled_passes.specs.Entering.{IsEnteredNowhere};
ghost use Rattle.kit_ruled_views.specs.Functions.{IsSelfContained};
ghost use Rattle.text_dialect.specs.Seen.{seen};
ghost use Rattle.text_frames.specs.Raised.{HoldsAllNew};

use ir_context::Context;
use ir_program::{Operation, Ptr};
use kit::Kit;

/// Tells of an operation that was read from a text that it stays apart: where all that has come since the context was
/// seen is inside it, no operation outside it leads to a block in it, or takes a value of it. It does nothing.
pub(crate) fn know_read_module(ctx: &Context<Kit>, root: Ptr<Operation>)
    ensures entered { (start : KitSeen) → HoldsAllNew start (seen ctx.now) (OperationNode root ∷ [])
        → IsEnteredNowhere ctx.now root }
    ensures contained { (start : KitSeen) → HoldsAllNew start (seen ctx.now) (OperationNode root ∷ [])
        → IsSelfContained ctx.now root }
{
    let program = ctx.program();
    program.know_lists();
    program.know_values();
}
