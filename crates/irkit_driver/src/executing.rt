//! Running a function of a module.
ghost use Rattle.std.specs.Prelude.{◌≡◌, ◌≢◌, List, false, map, IfOk, IsSome, MatchOption};
ghost use Rattle.ir_names.specs.Identifier.{text_of};
ghost use Rattle.ir_names.specs.declared.identifier.Identifier.{Identifier as Name};
ghost use Rattle.ir_program.specs.Program.{operation_at};
ghost use Rattle.kit_execution.specs.Obeying.{ObeysRules};
ghost use Rattle.irkit_streams.specs.Streams.{has_failed};
ghost use Rattle.irkit_running.specs.Outcomes.{EndsExecution, GivesOutcome};
ghost use Rattle.irkit_running.specs.Paths.{IsAnswerOfRun, SaysPath, names_in};

use crate::reporting::report;
use ir_context::Context;
use ir_names::{Identifier, IdentifierError};
use ir_program::{Operation, Ptr};
use irkit_refusals::ExecutionFault;
use irkit_running::load;
use irkit_streams::Watched;
use kit::{Kit, let_go};
use kit_execution::execute as run_function;
use kit_flat::Outcome;
use kit_interpreter::ExecFault;
use std::alloc::{AllocError, Global};
use std::io::{Read, Write};

/// Reads a module as [`load`] does, runs its function at this path on these numbers for at most so many steps, and
/// writes what the run did as [`report`] does. The path has the outermost name first, and `/` between names.
///
/// `WrongPath` where the path is none or leads to no function, and `WrongArguments` where the function takes another
/// number of arguments or one is too large for its type. Nothing is written then, nor at any refusal but `Write`.
pub fn execute<R: Read, W: Write>(
    alloc: Global,
    path: &str,
    arguments: &[u64],
    limit: u64,
    reader: &mut Watched<R>,
    writer: &mut Watched<W>,
) -> Result<Outcome, ExecutionFault>
    requires reader { has_failed reader.old ≡ false }
    requires writer { has_failed writer.old ≡ false }
    ensures { EndsExecution R.remaining W.contents reader.old reader.new writer.old writer.new
        path.now arguments.now limit result }
{
    let mut ctx = Context::new(alloc);
    let outcome = execute_in(alloc, &mut ctx, path, arguments, limit, reader, writer);
    let_go(ctx);
    outcome
}

/// The same, where the module is read into a new context.
pub(crate) fn execute_in<R: Read, W: Write>(
    alloc: Global,
    ctx: &mut Context<Kit>,
    path: &str,
    arguments: &[u64],
    limit: u64,
    reader: &mut Watched<R>,
    writer: &mut Watched<W>,
) -> Result<Outcome, ExecutionFault>
    requires reader { has_failed reader.old ≡ false }
    requires writer { has_failed writer.old ≡ false }
    requires counter { ctx.old.program.counter ≡ 0 }
    ensures { EndsExecution R.remaining W.contents reader.old reader.new writer.old writer.new
        path.now arguments.now limit result }
{
    let outcome = outcome_of(alloc, ctx, path, arguments, limit, reader)?;
    report(alloc, &outcome, writer)?;
    Ok(outcome)
}

/// What the run does of the module that the reader gives. It is read into a new context.
fn outcome_of<R: Read>(
    alloc: Global,
    ctx: &mut Context<Kit>,
    path: &str,
    arguments: &[u64],
    limit: u64,
    reader: &mut Watched<R>,
) -> Result<Outcome, ExecutionFault>
    requires unread { has_failed reader.old ≡ false }
    requires counter { ctx.old.program.counter ≡ 0 }
    ensures { GivesOutcome R.remaining reader.old reader.new path.now arguments.now limit result }
{
    let root = load(alloc, ctx, reader)?;
    let outcome = outcome_in(alloc, ctx, root, path, arguments, limit)?;
    Ok(outcome)
}

/// What the run does of a module of the context.
fn outcome_in(
    alloc: Global,
    ctx: &Context<Kit>,
    root: Ptr<Operation>,
    path: &str,
    arguments: &[u64],
    limit: u64,
) -> Result<Outcome, ExecFault>
    requires live { IsSome (operation_at ctx.now.program root) }
    requires obeys { ObeysRules ctx.now root }
    ensures { IsAnswerOfRun ctx.now root path.now arguments.now limit result }
{
    match names_of_path(alloc, path) {
        Ok(Some(names)) => run_function(alloc, ctx, root, names.as_slice(), arguments, limit),
        Ok(None) => Err(ExecFault::WrongPath),
        Err(_) => Err(ExecFault::Memory),
    }
}

/// The names of a path, outermost first, or nothing where one is empty or no identifier.
fn names_of_path(alloc: Global, path: &str) -> Result<Option<Vec<Identifier>>, AllocError>
    ensures { IfOk result (λ r. MatchOption r ((names : List Name) → SaysPath path.now names → ⊥)
        (λ v. SaysPath path.now v.items)) }
{
    let parts = parts_of(alloc, path)?;
    identifiers(alloc, parts.as_slice())
}

/// The parts of a path between slashes.
fn parts_of(alloc: Global, path: &str) -> Result<Vec<&str>, AllocError>
    ensures { IfOk result (λ v. map (λ part. part.now) v.items ≡ names_in path.now) }
{
    path.split('/').collect(alloc)
}

/// The identifiers with these texts, or nothing where one is none.
fn identifiers(alloc: Global, texts: &[&str]) -> Result<Option<Vec<Identifier>>, AllocError>
    ensures { let all = map (λ t. t.now) texts.now in
        IfOk result (λ r. MatchOption r ((names : List Name) → map text_of names ≢ all)
        (λ v. map text_of v.items ≡ all)) }
{
    let mut names = Vec::new(alloc);
    for text in texts {
        match Identifier::try_new(alloc, text) {
            Ok(name) => names.push(name)?,
            Err(IdentifierError::Invalid(_)) => return Ok(None),
            Err(IdentifierError::Memory) => return Err(AllocError),
        }
    }
    Ok(Some(names))
}
