//! Sources, numbers and names in texts of locations.
ghost use Rattle.std.specs.Prelude.{◌≡◌, ◌++◌, OnOk, chars, codes, decimal, encode_utf8_all};
ghost use Rattle.ir_print.specs.Layout.{in_quotes};
ghost use Rattle.printed_locations.specs.Printed.{source_text};

use ir_locations::Source;
use itoa::Buffer;
use std::alloc::AllocError;
use text_writers::{Printable, State, TextWriter, quoted};

/// Writes a text in quotes.
pub fn print_quoted<W: TextWriter>(text: &str, out: &mut W) -> Result<(), AllocError>
    ensures { OnOk result (W.written out.new ≡ W.written out.old ++ encode_utf8_all (in_quotes (chars text.now))) }
{
    quoted(text).fmt(&(), &mut State::new(), out)
}

/// Writes a source: a file by its name in quotes.
pub fn print_source<W: TextWriter>(source: &Source, out: &mut W) -> Result<(), AllocError>
    ensures { OnOk result (W.written out.new ≡ W.written out.old ++ source_text source.now) }
{
    match source {
        Source::InMemory => out.write_text("<in-memory>"),
        Source::File(name) => print_quoted(name.as_str(), out),
    }
}

/// Writes a number in decimal digits.
fn print_number<W: TextWriter>(number: u64, out: &mut W) -> Result<(), AllocError>
    ensures { OnOk result (W.written out.new ≡ W.written out.old ++ decimal number) }
{
    let mut digits = Buffer::new();
    out.write_text(digits.format(number))
}

/// Writes a number behind a sign, a word and a `:`.
pub fn print_labelled<W: TextWriter>(
    sign: &str,
    label: &str,
    number: u64,
    out: &mut W,
) -> Result<(), AllocError>
    ensures { OnOk result (W.written out.new ≡ (((W.written out.old ++ sign.now) ++ label.now) ++ codes ": ") ++ decimal number) }
{
    out.write_text(sign)?;
    out.write_text(label)?;
    out.write_text(": ")?;
    print_number(number, out)
}
