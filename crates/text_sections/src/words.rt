//! Signs and numbers in a section.
ghost use Rattle.std.specs.Prelude.{◌≡◌, ◌++◌, OnOk, decimal};
ghost use Rattle.ir_print.specs.Layout.{mark_text};
ghost use Rattle.text_sections.specs.Texts.{separator_before};

use itoa::Buffer;
use std::alloc::AllocError;
use text_writers::TextWriter;

/// Writes a number in decimal digits.
fn print_number<W: TextWriter>(number: u128, out: &mut W) -> Result<(), AllocError>
    ensures { OnOk result (W.written out.new ≡ W.written out.old ++ decimal number) }
{
    let mut digits = Buffer::new();
    out.write_text(digits.format(number))
}

/// Writes a mark.
pub fn print_mark<W: TextWriter>(number: u128, out: &mut W) -> Result<(), AllocError>
    ensures { OnOk result (W.written out.new ≡ W.written out.old ++ mark_text number) }
{
    out.write_text("!")?;
    print_number(number, out)
}

/// Writes a `,` and a space, but not before the first member.
pub fn print_separator<W: TextWriter>(is_first: bool, out: &mut W) -> Result<(), AllocError>
    ensures { OnOk result (W.written out.new ≡ W.written out.old ++ separator_before is_first) }
{
    if is_first {
        return Ok(());
    }
    out.write_text(", ")
}
