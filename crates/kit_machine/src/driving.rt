//! Runs of at most so many steps.
ghost use Rattle.std.specs.Prelude.{◌<◌, length, nat_eq, IfOk};
ghost use Rattle.kit_flat.specs.Machine.{run, start};
ghost use Rattle.kit_flat.specs.View.{flat_code, state_view};
ghost use Rattle.kit_flat.specs.Sound.{FlatFunctionsFit, IsRunning};
ghost use Rattle.kit_flat.specs.Shows.{OutcomeShows};

use kit_flat::{FlatModule, Outcome, Running, Turn};
use std::alloc::{AllocError, Global};

/// At most `limit` steps.
fn drive(
    alloc: Global,
    code: &FlatModule,
    mut running: Running,
    limit: u64,
) -> Result<Outcome, AllocError>
    requires sound { FlatFunctionsFit code.now.functions.items }
    requires running { IsRunning code.now.functions.items running }
    ensures { IfOk result (OutcomeShows (run nat_eq (flat_code code.now.functions.items) limit (state_view running))) }
{
    let mut left = limit;
    while left > 0 {
        left -= 1;
        match running.step(alloc, code)? {
            Turn::On => {}
            Turn::Over(values) => return Ok(Outcome::Ended(values, running.emissions)),
            Turn::Failed => return Ok(Outcome::Trapped(running.emissions)),
            Turn::Lost => return Ok(Outcome::Limit(running.emissions)),
        }
    }
    Ok(Outcome::Limit(running.emissions))
}

/// What a function does with numbers, after at most `limit` steps of the machine.
///
/// # Errors
/// `AllocError` if there is no memory for the frames or for what was emitted.
pub fn interpret(
    alloc: Global,
    code: &FlatModule,
    function: usize,
    arguments: &[u64],
    limit: u64,
) -> Result<Outcome, AllocError>
    requires sound { FlatFunctionsFit code.now.functions.items }
    requires within { function < length code.now.functions.items }
    ensures { IfOk result (OutcomeShows (run nat_eq (flat_code code.now.functions.items) limit
        (start nat_eq (flat_code code.now.functions.items) function arguments.now))) }
{
    drive(
        alloc,
        code,
        Running::begin(alloc, code, function, arguments)?,
        limit,
    )
}
