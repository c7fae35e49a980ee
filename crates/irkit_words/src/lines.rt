//! Lines that tell of faults.
ghost use Rattle.std.specs.Prelude.{IfOk};
ghost use Rattle.std.specs.String.{string_bytes};
ghost use Rattle.irkit_words.specs.Lines.{IsFaultLine};

use std::alloc::{AllocError, Global};
use std::fmt::Display;

/// The line that tells of refused memory.
pub const MEMORY_LINE: &str = "error: memory\n";

/// The line that tells of a fault: `error: `, what `Display` says of it, and a line end.
pub fn line_of<D: Display>(alloc: Global, fault: &D) -> Result<String, AllocError>
    ensures { IfOk result (λ line. IsFaultLine (string_bytes line)) }
{
    let said = format!(in alloc; "{fault}")?;
    line_saying(alloc, said.as_str())
}

/// The line of a fault of which this is said.
pub(crate) fn line_saying(alloc: Global, said: &str) -> Result<String, AllocError>
    ensures { IfOk result (λ line. IsFaultLine (string_bytes line)) }
{
    format!(in alloc; "error: {said}\n")
}
