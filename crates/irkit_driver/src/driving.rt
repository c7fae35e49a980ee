//! The program on its words.
ghost use Rattle.std.specs.Prelude.{◌≡◌, false, map, string_bytes};
ghost use Rattle.irkit_streams.specs.Streams.{has_failed};
ghost use Rattle.irkit_driver.specs.Told.{TellsEnd, TellsRun};
ghost use Rattle.irkit_driver.specs.Works.{Answers, Drives, Executes, Serves, Shows, run_status, status_of};

use crate::checking::check_in;
use crate::executing::execute_in;
use crate::faults::{tell, tell_execution_fault, tell_fault, tell_refusal};
use ir_context::Context;
use irkit_refusals::{ExecutionFault, Refusal};
use irkit_running::run_in;
use irkit_streams::{Watched, write_text};
use irkit_words::{Execution, MEMORY_LINE, Parsed, Request, understand};
use kit::{Kit, let_go};
use kit_flat::Outcome;
use std::alloc::Global;
use std::io::{Read, Write};
use std::mem::forget;

/// The program on its words, of which the first is its name. It gives the status: 0 done, or help or the version asked,
/// 1 a fault, 2 a mistake in the words, 3 a run that trapped, 4 one whose steps ran out.
/// Help and the version go to the output, a fault's line to the faults; where that can't be written, the status stays.
///
/// Words that have no fault are served. For a mistake nothing is read or written on the output, and it is told. The same
/// is so where memory was refused while the words were read: status 1, and the line `error: memory` is told.
///
/// A program calls it once, and then ends: the memory of the module is left to the system, which frees it all at once.
/// A program that goes on calls [`serve`].
pub fn drive<R: Read, W: Write, F: Write>(
    alloc: Global,
    words: Vec<String>,
    input: &mut Watched<R>,
    output: &mut Watched<W>,
    faults: &mut Watched<F>,
) -> u8
    requires input { has_failed input.old ≡ false }
    requires output { has_failed output.old ≡ false }
    ensures { Drives R.remaining W.contents F.contents input.old input.new output.old output.new faults.old faults.new
        (map string_bytes words.items) result }
{
    let parsed = understand(alloc, words.as_slice());
    answer(alloc, &parsed, input, output, faults)
}

/// Does what the words come to, and gives the status.
fn answer<R: Read, W: Write, F: Write>(
    alloc: Global,
    parsed: &Parsed,
    input: &mut Watched<R>,
    output: &mut Watched<W>,
    faults: &mut Watched<F>,
) -> u8
    requires input { has_failed input.old ≡ false }
    requires output { has_failed output.old ≡ false }
    ensures { Answers R.remaining W.contents F.contents input.old input.new output.old output.new faults.old faults.new
        parsed.now result }
{
    match parsed {
        Parsed::Asked(request) => serve_last(alloc, request, input, output, faults),
        Parsed::Mistaken(line) => {
            tell(faults, line.as_bytes());
            2
        }
        Parsed::HelpWanted(text) => show(alloc, text.as_str(), output, faults),
        Parsed::VersionWanted(text) => show(alloc, text.as_str(), output, faults),
        Parsed::NoMemory => {
            tell(faults, MEMORY_LINE.as_bytes());
            1
        }
    }
}

/// Makes the call for a request, tells how it ended, and gives the status: 0 where it is done, 1 where it is refused, 3
/// where a function trapped, and 4 where its steps ran out.
pub fn serve<R: Read, W: Write, F: Write>(
    alloc: Global,
    request: &Request,
    input: &mut Watched<R>,
    output: &mut Watched<W>,
    faults: &mut Watched<F>,
) -> u8
    requires input { has_failed input.old ≡ false }
    requires output { has_failed output.old ≡ false }
    ensures { Serves R.remaining W.contents F.contents input.old input.new output.old output.new faults.old faults.new
        request.now result }
{
    let mut ctx = Context::new(alloc);
    let status = serve_in(alloc, &mut ctx, request, input, output, faults);
    let_go(ctx);
    status
}

/// As [`serve`], where the program ends then: to free each operation by itself would only take time.
pub fn serve_last<R: Read, W: Write, F: Write>(
    alloc: Global,
    request: &Request,
    input: &mut Watched<R>,
    output: &mut Watched<W>,
    faults: &mut Watched<F>,
) -> u8
    requires input { has_failed input.old ≡ false }
    requires output { has_failed output.old ≡ false }
    ensures { Serves R.remaining W.contents F.contents input.old input.new output.old output.new faults.old faults.new
        request.now result }
{
    let mut ctx = Context::new(alloc);
    let status = serve_in(alloc, &mut ctx, request, input, output, faults);
    forget(ctx);
    status
}

/// The same, where the module is read into a new context.
fn serve_in<R: Read, W: Write, F: Write>(
    alloc: Global,
    ctx: &mut Context<Kit>,
    request: &Request,
    input: &mut Watched<R>,
    output: &mut Watched<W>,
    faults: &mut Watched<F>,
) -> u8
    requires input { has_failed input.old ≡ false }
    requires output { has_failed output.old ≡ false }
    requires counter { ctx.old.program.counter ≡ 0 }
    ensures { Serves R.remaining W.contents F.contents input.old input.new output.old output.new faults.old faults.new
        request.now result }
{
    match request {
        Request::Check => {
            let outcome = check_in(alloc, ctx, input, output);
            status(alloc, faults, outcome)
        }
        Request::Optimise(passes) => {
            let outcome = run_in(alloc, ctx, passes.as_slice(), input, output);
            status(alloc, faults, outcome)
        }
        Request::Run(execution) => serve_run(alloc, ctx, execution, input, output, faults),
    }
}

/// Runs a function, and gives the status of the run.
fn serve_run<R: Read, W: Write, F: Write>(
    alloc: Global,
    ctx: &mut Context<Kit>,
    execution: &Execution,
    input: &mut Watched<R>,
    output: &mut Watched<W>,
    faults: &mut Watched<F>,
) -> u8
    requires input { has_failed input.old ≡ false }
    requires output { has_failed output.old ≡ false }
    requires counter { ctx.old.program.counter ≡ 0 }
    ensures { Executes R.remaining W.contents F.contents input.old input.new output.old output.new faults.old faults.new
        execution.now result }
{
    let outcome = execute_in(
        alloc,
        ctx,
        execution.path.as_str(),
        execution.arguments.as_slice(),
        execution.limit,
        input,
        output,
    );
    status_of_run(alloc, faults, outcome)
}

/// Writes a text that was asked for, and gives the status.
fn show<W: Write, F: Write>(
    alloc: Global,
    text: &str,
    output: &mut Watched<W>,
    faults: &mut Watched<F>,
) -> u8
    requires { has_failed output.old ≡ false }
    ensures { Shows F.contents faults.old faults.new W.contents output.old output.new text.now result }
{
    match write_text(output, text.as_bytes()) {
        Ok(()) => 0,
        Err(fault) => {
            tell_fault(alloc, faults, &fault);
            1
        }
    }
}

/// The status of a run. A fault is told.
fn status_of_run<F: Write>(
    alloc: Global,
    faults: &mut Watched<F>,
    outcome: Result<Outcome, ExecutionFault>,
) -> u8
    ensures tells { TellsRun F.contents faults.old faults.new outcome }
    ensures status { result ≡ run_status outcome }
{
    match outcome {
        Ok(Outcome::Ended(_, _)) => 0,
        Ok(Outcome::Trapped(_)) => 3,
        Ok(Outcome::Limit(_)) => 4,
        Err(fault) => {
            tell_execution_fault(alloc, faults, &fault);
            1
        }
    }
}

/// The status of a call. A refusal is told.
fn status<F: Write>(alloc: Global, faults: &mut Watched<F>, outcome: Result<(), Refusal>) -> u8
    ensures tells { TellsEnd F.contents faults.old faults.new outcome }
    ensures status { result ≡ status_of outcome }
{
    match outcome {
        Ok(()) => 0,
        Err(refusal) => {
            tell_refusal(alloc, faults, &refusal);
            1
        }
    }
}
