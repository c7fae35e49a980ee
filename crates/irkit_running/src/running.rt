//! From text through passes to text.
ghost use Rattle.std.specs.Prelude.{◌≡◌, false, map, Err, IfOk, OnOk};
ghost use Rattle.std.specs.String.{string_bytes};
ghost use Rattle.irkit_streams.specs.Streams.{has_failed};
ghost use Rattle.kit_ruled_passes.specs.Held.{HoldsModule};
ghost use Rattle.irkit_running.specs.Known.{CanBeWritten, HasGrammar};
ghost use Rattle.ir_base.specs.declared.growth.GrowError.TheVariants.{CounterFull};
ghost use Rattle.kit_optimiser.specs.Outside.{KeepsRest, StaysOutside};
ghost use Rattle.kit_optimiser.specs.Passed.{FillsUp, IsOptimised, pass_of};
ghost use Rattle.opt_inside.specs.Outside.{AddsNoneOutside};
ghost use Rattle.irkit_running.specs.Lists.{EndsPasses, HaveProgramsAfter, IsWrittenAs};
ghost use Rattle.irkit_running.specs.Outcomes.{EndsRun, GivesText};

use crate::knowing::{know_ordinary, know_own_text};
use crate::loading::load;
use ir_base::GrowError;
use ir_context::Context;
use ir_program::{Operation, Ptr};
use ir_trees::know_tree;
use irkit_refusals::Refusal;
use irkit_streams::{Watched, write_text};
use kit::{Kit, let_go};
use kit_language::kit_can_print;
use kit_optimiser::{KitPass, optimised_modules_have_programs, run_passes};
use kit_text_programs::texts_have_one_verdict;
use std::alloc::{AllocError, Global};
use std::io::{Read, Write};
use text_printing::print_module;

/// Reads a module, runs the passes over it, one after the other, and writes its text and a line end.
///
/// The whole text is formatted before the first write, so a refused call wrote nothing, but for `Write(b)`: then
/// exactly the first b bytes of the text were taken.
pub fn run<R: Read, W: Write>(
    alloc: Global,
    passes: &[KitPass],
    reader: &mut Watched<R>,
    writer: &mut Watched<W>,
) -> Result<(), Refusal>
    requires reader { has_failed reader.old ≡ false }
    requires writer { has_failed writer.old ≡ false }
    ensures { EndsRun R.remaining W.contents reader.old reader.new writer.old writer.new passes.now result }
{
    let mut ctx = Context::new(alloc);
    let outcome = run_in(alloc, &mut ctx, passes, reader, writer);
    let_go(ctx);
    outcome
}

/// As [`run`], where the module is read into a new context.
pub fn run_in<R: Read, W: Write>(
    alloc: Global,
    ctx: &mut Context<Kit>,
    passes: &[KitPass],
    reader: &mut Watched<R>,
    writer: &mut Watched<W>,
) -> Result<(), Refusal>
    requires reader { has_failed reader.old ≡ false }
    requires writer { has_failed writer.old ≡ false }
    requires counter { ctx.old.program.counter ≡ 0 }
    ensures { EndsRun R.remaining W.contents reader.old reader.new writer.old writer.new passes.now result }
{
    let text = text_after(alloc, ctx, passes, reader)?;
    Ok(write_text(writer, text.as_bytes())?)
}

/// The text of the module that the reader gives, after the passes, with its line end. It is read into a new context.
fn text_after<R: Read>(
    alloc: Global,
    ctx: &mut Context<Kit>,
    passes: &[KitPass],
    reader: &mut Watched<R>,
) -> Result<String, Refusal>
    requires unread { has_failed reader.old ≡ false }
    requires counter { ctx.old.program.counter ≡ 0 }
    ensures { GivesText R.remaining reader.old reader.new passes.now string_bytes result }
{
    let root = load(alloc, ctx, reader)?;
    let text = optimised_text(alloc, ctx, root, passes)?;
    Ok(text)
}

/// The text of a module after passes, one after the other, with its line end.
fn optimised_text(
    alloc: Global,
    ctx: &mut Context<Kit>,
    root: Ptr<Operation>,
    passes: &[KitPass],
) -> Result<String, GrowError>
    requires holds { HoldsModule ctx.old root }
    requires writable { CanBeWritten ctx.old root }
    requires grammar { HasGrammar }
    ensures { EndsPasses passes.now ctx.old root string_bytes result }
{
    optimise(alloc, ctx, root, passes)?;
    Ok(text_of(alloc, ctx, root)?)
}

/// Runs passes over a module that [`load`] gave, one after the other. What they leave is a module again, which can be
/// written by [`text_of`], and what stands outside the module stays as it is.
///
/// # Errors
/// `Memory`, and `CounterFull` where too few numbers of values are left for a pass: those before it are done then, and
/// a part of it may be.
pub fn optimise(
    alloc: Global,
    ctx: &mut Context<Kit>,
    root: Ptr<Operation>,
    passes: &[KitPass],
) -> Result<(), GrowError>
    requires holds { HoldsModule ctx.old root }
    requires writable { CanBeWritten ctx.old root }
    ensures passed { OnOk result (IsOptimised (map pass_of passes.now) ctx.old ctx.new root) }
    ensures programs { OnOk result (HaveProgramsAfter passes.now ctx.old ctx.new root) }
    ensures holds { OnOk result (HoldsModule ctx.new root) }
    ensures writable { OnOk result (CanBeWritten ctx.new root) }
    ensures full { result ≡ Err CounterFull → FillsUp (map pass_of passes.now) ctx.old root }
    ensures outside { KeepsRest ctx.old.program ctx.new.program root }
    ensures stays { OnOk result (StaysOutside ctx.old.program ctx.new.program root) }
    ensures none_come { OnOk result (AddsNoneOutside ctx.old.program ctx.new.program root) }
    ensures types { ctx.new.types ≡ ctx.old.types }
{
    know_tree(ctx.program(), root);
    know_ordinary(ctx, root);
    optimised_modules_have_programs();
    run_passes(alloc, ctx, root, passes)?;
    know_ordinary(ctx, root);
    Ok(())
}

/// The text of a module that [`load`] gave, as it is now, with its line end.
pub fn text_of(
    alloc: Global,
    ctx: &Context<Kit>,
    root: Ptr<Operation>,
) -> Result<String, AllocError>
    requires holds { HoldsModule ctx.now root }
    requires writable { CanBeWritten ctx.now root }
    requires grammar { HasGrammar }
    ensures { IfOk result (λ text. IsWrittenAs ctx.now root (string_bytes text)) }
{
    know_own_text(ctx, root);
    kit_can_print();
    texts_have_one_verdict();
    print_module(alloc, ctx, root)
}
