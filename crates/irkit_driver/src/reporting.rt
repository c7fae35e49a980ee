//! Writing what a run did.
ghost use Rattle.std.specs.Prelude.{◌≡◌, ◌++◌, false, flat_map, IfOk, OnOk};
ghost use Rattle.std.specs.String.{string_bytes};
ghost use Rattle.irkit_streams.specs.Streams.{has_failed};
ghost use Rattle.irkit_running.specs.Outcomes.{EndsReport};
ghost use Rattle.irkit_running.specs.Reports.{emit_line, spaced, lines_of};

use irkit_refusals::Refusal;
use irkit_streams::{Watched, write_text};
use kit_flat::Outcome;
use std::alloc::{AllocError, Global};
use std::fmt::Write as _;
use std::io::Write;

/// A line for each number that was emitted.
fn put_emissions(text: &mut String, emissions: &[u64]) -> Result<(), AllocError>
    ensures { OnOk result (string_bytes text.new ≡ string_bytes text.old ++ flat_map emit_line emissions.now) }
{
    for number in emissions {
        writeln!(text, "emit {number}")?;
    }
    Ok(())
}

/// These numbers, with a space before each.
fn put_values(text: &mut String, values: &[u64]) -> Result<(), AllocError>
    ensures { OnOk result (string_bytes text.new ≡ string_bytes text.old ++ flat_map spaced values.now) }
{
    for number in values {
        write!(text, " {number}")?;
    }
    Ok(())
}

/// The lines of a run.
fn lines(alloc: Global, outcome: &Outcome) -> Result<String, AllocError>
    ensures { IfOk result (λ text. string_bytes text ≡ lines_of outcome.now) }
{
    let mut text = String::new(alloc);
    match outcome {
        Outcome::Ended(values, emissions) => {
            put_emissions(&mut text, emissions.as_slice())?;
            text.push_str("end")?;
            put_values(&mut text, values.as_slice())?;
            text.push_str("\n")?;
        }
        Outcome::Trapped(emissions) => {
            put_emissions(&mut text, emissions.as_slice())?;
            text.push_str("trap\n")?;
        }
        Outcome::Limit(emissions) => {
            put_emissions(&mut text, emissions.as_slice())?;
            text.push_str("limit\n")?;
        }
    }
    Ok(text)
}

/// Writes what a run did: a line `emit N` for each emission, and `end` with the values, `trap` or `limit`.
/// The whole text is made before the first write: it is written, or at `Write(b)` its first b bytes, or at `Memory`
/// nothing.
pub fn report<W: Write>(
    alloc: Global,
    outcome: &Outcome,
    writer: &mut Watched<W>,
) -> Result<(), Refusal>
    requires { has_failed writer.old ≡ false }
    ensures { EndsReport W.contents writer.old writer.new outcome.now result }
{
    let text = lines(alloc, outcome)?;
    Ok(write_text(writer, text.as_bytes())?)
}
