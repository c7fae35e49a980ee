//! Running a function that a path leads to.
ghost use Rattle.std.specs.Prelude.{◌≡◌, ◌↔◌, ◌<◌, ◌^◌, Some, IsSome, IfOk, IsTrue, slice_get};
ghost use Rattle.ir_program.specs.Program.{TypedValue, operation_at, block_at, arguments_at, argument_count};
ghost use Rattle.ir_program.specs.Replacing.{same_value};
ghost use Rattle.ir_program.specs.declared.handles.Ptr.{Ptr};
ghost use Rattle.ir_program.specs.declared.handles.Operation.{Operation};
ghost use Rattle.kit_flat.specs.Machine.{run, start};
ghost use Rattle.kit_flat.specs.Shows.{OutcomeShows};
ghost use Rattle.kit_places.specs.Store.{function_named, width_at, module_code};
ghost use Rattle.kit_interpreter.specs.Lowering.{ModuleCanRun};
ghost use Rattle.kit_interpreter.specs.Running.{FitsWidth, AreFitting, TakesNumbers, PathCanRun, Runs};

use crate::functions::functions_of;
use crate::lowering::lower_module;
use ir_context::{ArgumentCalls, Context, ValueCalls};
use ir_names::Identifier;
use ir_program::{BasicBlock, Operation, Ptr};
use kit::Kit;
use kit_flat::Outcome;
use kit_machine::interpret;
use kit_places::{entry, find_place, width};
use std::alloc::{AllocError, AllocFailed, Global};

/// Why a function isn't run.
#[derive(Clone, Copy, Debug, PartialEq, Eq)]
pub enum ExecFault {
    Memory,
    /// There is no function at the path.
    WrongPath,
    /// The function takes another number of values, or one is too large for its type.
    WrongArguments,
}

impl From<AllocError> for ExecFault {
    ghost use Rattle.kit_interpreter.specs.declared.executing.ExecFault.TheVariants.{Memory};

    ghost from_gives = { λ _ e. e ≡ Memory };

    fn from(_error: AllocError) -> ExecFault {
        ExecFault::Memory
    }
}

impl<T: Drop> From<AllocFailed<T>> for ExecFault {
    ghost use Rattle.kit_interpreter.specs.declared.executing.ExecFault.TheVariants.{Memory};

    ghost from_gives = { λ _ e. e ≡ Memory };

    fn from(_error: AllocFailed<T>) -> ExecFault {
        ExecFault::Memory
    }
}

/// Whether a number is below 2 to the power of the width.
fn is_below_power(x: u64, width: u32) -> bool
    ensures { IsTrue result ↔ x < 2 ^ width }
{
    if width >= 64 { true } else { x < 1u64 << width }
}

/// The same where there is a width.
fn is_below(x: u64, width: Option<u32>) -> bool
    ensures { IsTrue result ↔ FitsWidth x width }
{
    match width {
        Some(width) => is_below_power(x, width),
        None => true,
    }
}

/// Whether a number is below 2 to the power of the width of a block's argument.
fn fits_argument(ctx: &Context<Kit>, block: Ptr<BasicBlock>, index: usize, x: u64) -> bool
    requires block { IsSome (block_at ctx.now.program block) }
    requires within { index < argument_count ctx.now.program block }
    ensures { IsTrue result ↔ ((t : TypedValue) → slice_get (arguments_at ctx.now.program block) index ≡ Some t
        → FitsWidth x (width_at ctx.now t.ty)) }
{
    let argument = block.get_argument(ctx, index);
    is_below(x, width(ctx, argument.get_type(ctx)))
}

/// Whether a block takes these numbers as its arguments.
fn are_fitting(ctx: &Context<Kit>, block: Ptr<BasicBlock>, numbers: &[u64]) -> bool
    requires { IsSome (block_at ctx.now.program block) }
    ensures { IsTrue result ↔ AreFitting ctx.now (arguments_at ctx.now.program block) numbers.now }
{
    if numbers.len() != block.get_num_arguments(ctx) {
        return false;
    }
    for i in 0..numbers.len() {
        if !fits_argument(ctx, block, i, numbers[i]) {
            return false;
        }
    }
    true
}

/// Whether a function takes these numbers.
fn takes(ctx: &Context<Kit>, function: Ptr<Operation>, numbers: &[u64]) -> bool
    requires { IsSome (operation_at ctx.now.program function) }
    ensures { IsTrue result ↔ TakesNumbers ctx.now function numbers.now }
{
    match entry(ctx, function) {
        Some(block) => are_fitting(ctx, block, numbers),
        None => false,
    }
}

/// What the function of a name in a module does with numbers, after at most `limit` steps.
fn run_function(
    alloc: Global,
    ctx: &Context<Kit>,
    within: Ptr<Operation>,
    name: &str,
    numbers: &[u64],
    limit: u64,
) -> Result<Outcome, AllocError>
    requires live { IsSome (operation_at ctx.now.program within) }
    requires named { IsSome (function_named ctx.now.program within name.now) }
    requires can_run { ModuleCanRun ctx.now within }
    ensures { IfOk result (λ outcome. (f : Ptr Operation) → function_named ctx.now.program within name.now ≡ Some f
        → OutcomeShows (run same_value (module_code ctx.now within) limit
        (start same_value (module_code ctx.now within) f numbers.now)) outcome) }
{
    ctx.program().know_lists();
    let functions = functions_of(alloc, ctx, within)?;
    let lowered = lower_module(alloc, ctx, &functions)?;
    match functions.number_of(name) {
        Some(number) => {
            let outcome = interpret(alloc, &lowered, number, numbers, limit)?;
            Ok(outcome)
        }
        None => unreachable!(),
    }
}

/// Runs the function that a path leads to in a module, on numbers, for at most `limit` steps.
///
/// The path has the names of the modules below `root` that the function is in, the outermost one first, and then its
/// own.
/// Each operation is a step. The time is linear in what is in the module of the function, and in the steps.
///
/// # Errors
/// `WrongPath` where there is no function at the path; else `WrongArguments` where it takes another number of values,
/// or
/// one is too large for its type; `Memory`.
pub fn exec(
    alloc: Global,
    ctx: &Context<Kit>,
    root: Ptr<Operation>,
    path: &[Identifier],
    arguments: &[u64],
    limit: u64,
) -> Result<Outcome, ExecFault>
    requires live { IsSome (operation_at ctx.now.program root) }
    requires can_run { PathCanRun ctx.now root path.now }
    ensures { Runs ctx.now root path.now arguments.now limit result }
{
    let place = match find_place(ctx, root, path) {
        Some(place) => place,
        None => return Err(ExecFault::WrongPath),
    };
    if !takes(ctx, place.function, arguments) {
        return Err(ExecFault::WrongArguments);
    }
    match run_function(
        alloc,
        ctx,
        place.within,
        path[path.len() - 1].as_str(),
        arguments,
        limit,
    ) {
        Ok(outcome) => Ok(outcome),
        Err(_) => Err(ExecFault::Memory),
    }
}
