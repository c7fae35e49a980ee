//! Faults are told where they can be.
ghost use Rattle.std.specs.Prelude.{Err};
ghost use Rattle.irkit_driver.specs.Told.{TellsEnd, TellsLine, TellsRun, Told};

use irkit_refusals::{ExecutionFault, Refusal};
use irkit_streams::{Watched, write_text};
use irkit_words::{MEMORY_LINE, line_of};
use std::alloc::Global;
use std::fmt::Display;
use std::io::Write;

/// Tells a text where that can be: nothing is written once a call of the stream has failed, and no write is tried again.
pub fn tell<F: Write>(faults: &mut Watched<F>, text: &[u8])
    ensures { Told F.contents faults.old faults.new text.now }
{
    if faults.has_failed() {
        return;
    }
    match write_text(faults, text) {
        Ok(()) => {}
        Err(_) => {}
    }
}

/// Tells the line of a fault, or that of refused memory where there is none for it.
pub fn tell_fault<F: Write, D: Display>(alloc: Global, faults: &mut Watched<F>, fault: &D)
    ensures { TellsLine F.contents faults.old faults.new }
{
    match line_of(alloc, fault) {
        Ok(line) => tell(faults, line.as_bytes()),
        Err(_) => tell(faults, MEMORY_LINE.as_bytes()),
    }
}

/// Tells why a call was refused.
pub fn tell_refusal<F: Write>(alloc: Global, faults: &mut Watched<F>, refusal: &Refusal)
    ensures { TellsEnd F.contents faults.old faults.new {X = Unit {0}} (Err refusal.now) }
{
    match refusal {
        Refusal::Memory => tell(faults, MEMORY_LINE.as_bytes()),
        other => tell_fault(alloc, faults, other),
    }
}

/// Tells why a function wasn't run, or what its run did wasn't written.
pub fn tell_execution_fault<F: Write>(
    alloc: Global,
    faults: &mut Watched<F>,
    fault: &ExecutionFault,
)
    ensures { TellsRun F.contents faults.old faults.new {X = Unit {0}} (Err fault.now) }
{
    match fault {
        ExecutionFault::Refused(refusal) => tell_refusal(alloc, faults, refusal),
        other => tell_fault(alloc, faults, other),
    }
}
