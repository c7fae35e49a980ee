//! The program on its words, whatever marks and sections its input has.
ghost use Rattle.std.specs.Prelude.{◌≡◌, Err, IfErr, IfOk, false, map};
ghost use Rattle.std.specs.String.{string_bytes};
ghost use Rattle.irkit_streams.specs.Streams.{has_failed};
ghost use Rattle.kit_ruled_passes.specs.Held.{HoldsModule};
ghost use Rattle.irkit_running.specs.Known.{CanBeWritten, HasGrammar};
ghost use Rattle.irkit_running.specs.Lists.{PassesGive};
ghost use Rattle.ir_base.specs.declared.growth.GrowError.TheVariants.{CounterFull};
ghost use Rattle.kit_optimiser.specs.Passed.{FillsUp, pass_of};
ghost use Rattle.irkit_outlines.specs.Outlined.{GivesPlain, IsBareText, IsRefusedAfter};

use crate::reading::{front_of, has_outlines, load};
use crate::writing::with_outlines;
use ir_base::GrowError;
use ir_context::Context;
use ir_program::{Operation, Ptr};
use irkit_driver::{serve_last, tell_refusal};
use irkit_refusals::Refusal;
use irkit_running::{optimise, text_of};
use irkit_streams::{Watched, read_to_end, write_text};
use irkit_words::{Parsed, Request, understand};
use kit::Kit;
use kit_ops::KitPass;
use std::alloc::Global;
use std::io::{Read, Write};
use std::mem::forget;

/// At most so many calls read an input, so one that gives fewer bytes is read to its end.
const TURNS: u64 = 1 << 40;

/// Tells a refusal, and gives the status.
fn refuse<F: Write>(alloc: Global, faults: &mut Watched<F>, refusal: &Refusal) -> u8 {
    tell_refusal(alloc, faults, refusal);
    1
}

/// The text of a module after passes.
#[derive(Drop)]
pub struct OptimisedText {
    /// Its operations alone, without names of values, marks and section.
    pub plain: String,
    /// The same with names, marks and section.
    pub text: String,
}

/// The text of a module after passes, without names, marks and section.
fn plain_after(
    alloc: Global,
    ctx: &mut Context<Kit>,
    root: Ptr<Operation>,
    passes: &[KitPass],
) -> Result<String, GrowError>
    requires holds { HoldsModule ctx.old root }
    requires writable { CanBeWritten ctx.old root }
    requires grammar { HasGrammar }
    ensures gives { IfOk result (λ plain. PassesGive passes.now ctx.old root (string_bytes plain)) }
    ensures full { result ≡ Err CounterFull → FillsUp (map pass_of passes.now) ctx.old root }
{
    optimise(alloc, ctx, root, passes)?;
    Ok(text_of(alloc, ctx, root)?)
}

/// The text of the module that a text says, after passes, with what stands beside its items. It is read into a new context.
///
/// # Errors
/// A refusal says the first fault of the text, or that memory is refused or numbers of values are too few. The context is of no use then.
pub fn optimised(
    alloc: Global,
    ctx: &mut Context<Kit>,
    text: &str,
    passes: &[KitPass],
) -> Result<OptimisedText, Refusal>
    ensures gives { IfOk result (λ written. GivesPlain passes.now text.now (string_bytes written.plain)) }
    ensures refused { IsBareText text.now → ctx.old.program.counter ≡ 0 → IfErr result (IsRefusedAfter passes.now text.now) }
{
    let module = load(alloc, ctx, text)?;
    let plain = plain_after(alloc, ctx, module.root, passes)?;
    let text = with_outlines(alloc, ctx, &module, plain.as_str())?;
    Ok(OptimisedText { plain, text })
}

/// Optimises a module, and writes it.
fn run<W: Write>(
    alloc: Global,
    text: &str,
    passes: &[KitPass],
    output: &mut Watched<W>,
) -> Result<(), Refusal>
    requires { has_failed output.old ≡ false }
{
    let mut ctx = Context::new(alloc);
    let outcome = optimised(alloc, &mut ctx, text, passes);
    forget(ctx);
    let written = outcome?;
    Ok(write_text(output, written.text.as_bytes())?)
}

/// Tests that a text with marks or a section says a module.
fn accept(alloc: Global, text: &str) -> Result<(), Refusal> {
    let mut ctx = Context::new(alloc);
    let outcome = load(alloc, &mut ctx, text);
    forget(ctx);
    outcome?;
    Ok(())
}

/// Makes the call for a request on the operations of a text alone, which is accepted.
fn serve_front<W: Write, F: Write>(
    alloc: Global,
    request: &Request,
    text: &str,
    output: &mut Watched<W>,
    faults: &mut Watched<F>,
) -> u8
    requires { has_failed output.old ≡ false }
{
    match front_of(alloc, text) {
        Ok(front) => serve_bytes(alloc, request, front.as_bytes(), output, faults),
        Err(_) => refuse(alloc, faults, &Refusal::Memory),
    }
}

/// Makes the call for a request on a text without marks and section.
fn serve_bytes<W: Write, F: Write>(
    alloc: Global,
    request: &Request,
    bytes: &[u8],
    output: &mut Watched<W>,
    faults: &mut Watched<F>,
) -> u8
    requires { has_failed output.old ≡ false }
{
    serve_last(alloc, request, &mut Watched::new(bytes), output, faults)
}

/// Makes the call for a request that writes no module on a text, which may have marks or a section.
fn serve_text<W: Write, F: Write>(
    alloc: Global,
    request: &Request,
    text: &str,
    output: &mut Watched<W>,
    faults: &mut Watched<F>,
) -> u8
    requires { has_failed output.old ≡ false }
{
    if !has_outlines(text) {
        return serve_bytes(alloc, request, text.as_bytes(), output, faults);
    }
    match accept(alloc, text) {
        Ok(()) => serve_front(alloc, request, text, output, faults),
        Err(refusal) => refuse(alloc, faults, &refusal),
    }
}

/// Optimises the module that a text says, and gives the status.
fn serve_passes<W: Write, F: Write>(
    alloc: Global,
    passes: &[KitPass],
    text: &str,
    output: &mut Watched<W>,
    faults: &mut Watched<F>,
) -> u8
    requires { has_failed output.old ≡ false }
{
    match run(alloc, text, passes, output) {
        Ok(()) => 0,
        Err(refusal) => refuse(alloc, faults, &refusal),
    }
}

/// Makes the call for a request on the bytes of an input. Bytes that aren't UTF-8 are refused as bytes of a bare text are.
fn serve_input<W: Write, F: Write>(
    alloc: Global,
    request: &Request,
    bytes: &[u8],
    output: &mut Watched<W>,
    faults: &mut Watched<F>,
) -> u8
    requires { has_failed output.old ≡ false }
{
    match std::str::from_utf8(bytes) {
        Ok(text) => match request {
            Request::Optimise(passes) => {
                serve_passes(alloc, passes.as_slice(), text, output, faults)
            }
            _ => serve_text(alloc, request, text, output, faults),
        },
        Err(_) => serve_bytes(alloc, request, bytes, output, faults),
    }
}

/// Makes the call for a request, tells how it ended, and gives the status: 0 where it is done, 1 where it is refused, 3 where a
/// function trapped, and 4 where its steps ran out. The program ends then.
pub fn serve<R: Read, W: Write, F: Write>(
    alloc: Global,
    request: &Request,
    input: &mut Watched<R>,
    output: &mut Watched<W>,
    faults: &mut Watched<F>,
) -> u8
    requires input { has_failed input.old ≡ false }
    requires output { has_failed output.old ≡ false }
{
    match read_to_end(alloc, input, TURNS) {
        Ok(bytes) => serve_input(alloc, request, bytes.as_slice(), output, faults),
        Err(fault) => refuse(alloc, faults, &Refusal::from(fault)),
    }
}

/// The program on its words, of which the first is its name. It gives the status: 0 done, or help or the version asked, 1 a fault,
/// 2 a mistake in the words, 3 a run that trapped, 4 one whose steps ran out.
pub fn drive<R: Read, W: Write, F: Write>(
    alloc: Global,
    words: Vec<String>,
    input: &mut Watched<R>,
    output: &mut Watched<W>,
    faults: &mut Watched<F>,
) -> u8
    requires input { has_failed input.old ≡ false }
    requires output { has_failed output.old ≡ false }
{
    match understand(alloc, words.as_slice()) {
        Parsed::Asked(request) => serve(alloc, &request, input, output, faults),
        _ => irkit_driver::drive(alloc, words, input, output, faults),
    }
}
