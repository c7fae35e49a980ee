//! From a reader to a module of a context.
ghost use Rattle.std.specs.Prelude.{◌≡◌, false, IfOk};
ghost use Rattle.ir_program.specs.Edits.{KeepsErased};
ghost use Rattle.text_frames.specs.building.Kept.{KeepsPayloads};
ghost use Rattle.irkit_streams.specs.Streams.{has_failed};
ghost use Rattle.irkit_running.specs.Known.{CanBeWritten, HasGrammar};
ghost use Rattle.irkit_running.specs.Outcomes.{EndsLoad, Understands};

use crate::apart::know_read_module;
use crate::knowing::know_holding;
use ir_context::Context;
use ir_program::{IRNode, Operation, Ptr};
use irkit_refusals::Refusal;
use irkit_streams::{Watched, decode, read_to_end};
use kit::Kit;
use kit_language::kit_can_print;
use kit_verifier::verify_module;
use kit_writable_trees::texts_are_writable;
use std::alloc::Global;
use std::io::Read;
use text_reading::{discard, top_level_parse};
use text_rereading::laws::trees_of_texts_are_closed;

/// At most so many calls read an input, so one that gives fewer bytes is read to its end.
const TURNS: u64 = 1 << 40;

/// Reads a module to the reader's end into the context, and tests its rules. Gives its root.
///
/// A refusal leaves what the context holds as it was, and says the first fault of the whole input: bytes that are no
/// UTF-8, a fault of the text by line and column, or a broken rule; or that a read failed, that the end wasn't met
/// in 2^40 reads, that memory was refused, or that the context has too few numbers left for the text's values.
pub fn load<R: Read>(
    alloc: Global,
    ctx: &mut Context<Kit>,
    reader: &mut Watched<R>,
) -> Result<Ptr<Operation>, Refusal>
    requires { has_failed reader.old ≡ false }
    ensures ends { EndsLoad R.remaining reader.old reader.new ctx.old ctx.new result }
    ensures writable { IfOk result (CanBeWritten ctx.new) }
    ensures grammar { IfOk result (λ _. HasGrammar) }
    ensures erased { KeepsErased ctx.old.program ctx.new.program }
    ensures payloads { KeepsPayloads ctx.old.program ctx.new.program }
{
    let bytes = read_to_end(alloc, reader, TURNS)?;
    understand(alloc, ctx, bytes)
}

/// The module that these bytes write, where it keeps the rules.
fn understand(
    alloc: Global,
    ctx: &mut Context<Kit>,
    bytes: Vec<u8>,
) -> Result<Ptr<Operation>, Refusal>
    ensures understands { Understands bytes.items ctx.old ctx.new result }
    ensures writable { IfOk result (CanBeWritten ctx.new) }
    ensures grammar { IfOk result (λ _. HasGrammar) }
    ensures erased { KeepsErased ctx.old.program ctx.new.program }
    ensures payloads { KeepsPayloads ctx.old.program ctx.new.program }
{
    let chars = decode(alloc, bytes)?;
    let root = top_level_parse(alloc, ctx, chars.as_text())?;
    know_holding(ctx, root);
    know_read_module(ctx, root);
    kit_can_print();
    trees_of_texts_are_closed::<Kit>();
    texts_are_writable();
    if let Err(fault) = verify_module(alloc, ctx, root) {
        discard(ctx, &[IRNode::Operation(root)]);
        return Err(Refusal::from(fault));
    }
    Ok(root)
}
