//! The words of which texts are made: names, numbers, and what stands between two parts.
ghost use Rattle.std.specs.Prelude.{◌≡◌, ◌++◌, ◌∷◌, [], chars, codes, encode_utf8_all, OnOk};
ghost use Rattle.std.specs.String.{string_bytes};
ghost use Rattle.ir_print.specs.Formats.{step_of};
ghost use Rattle.ir_print.specs.Layout.{escaped, in_quotes, line, gap_of_word, gap_of_part};
ghost use Rattle.text_dialect.specs.Printed.{value_name};
ghost use Rattle.text_printing.specs.Printing.{before_of, sign_of, AddsLeaf, AddsMark, AddsNumber, AddsUnsigned, AddsWidth};

use ir_names::Signedness;
use ir_print::{Directive, LeafValue, Number};
use ir_program::Value;
use itoa::{Buffer, Integer};
use std::alloc::AllocError;

/// What stands before the next part of a text.
#[derive(Clone, Copy)]
pub(crate) enum Before {
    /// The id: any text is set off from it.
    Id,
    /// A literal, which brings its own spaces.
    Literal,
    /// A part: another one is set off from it.
    Part,
}

/// The end of a line, and the spaces before the next one.
pub(crate) fn print_line(out: &mut String, indent: usize) -> Result<(), AllocError>
    ensures { OnOk result (string_bytes out.new ≡ string_bytes out.old ++ line indent) }
{
    out.push_str("\n")?;
    for _column in 0..indent {
        out.push_str(" ")?;
    }
    Ok(())
}

/// An integer in decimal digits.
pub(crate) fn print_digits<I: Integer>(out: &mut String, integer: I) -> Result<(), AllocError>
    ensures { OnOk result (string_bytes out.new ≡ string_bytes out.old ++ I.text integer) }
{
    let mut digits = Buffer::new();
    out.push_str(digits.format(integer))
}

/// The name of a value: `v` and its number.
pub(crate) fn print_value(out: &mut String, value: Value) -> Result<(), AllocError>
    ensures { OnOk result (string_bytes out.new ≡ string_bytes out.old ++ value_name value.number) }
{
    out.push_str("v")?;
    print_digits(out, value.number())
}

/// A number, which 64 bits hold.
fn print_number(out: &mut String, number: Option<Number>) -> Result<(), AllocError>
    ensures { OnOk result (AddsNumber number (string_bytes out.old) (string_bytes out.new)) }
{
    let Some(number) = number else {
        return Ok(());
    };
    if number.is_negative {
        out.push_str("-")?;
    }
    print_digits(out, number.magnitude)
}

/// A number without a sign, which 64 bits hold.
fn print_unsigned(out: &mut String, number: Option<u64>) -> Result<(), AllocError>
    ensures { OnOk result (AddsUnsigned number (string_bytes out.old) (string_bytes out.new)) }
{
    let Some(number) = number else {
        return Ok(());
    };
    print_digits(out, number)
}

/// A mark, whose number 64 bits hold.
fn print_mark(out: &mut String, number: Option<u64>) -> Result<(), AllocError>
    ensures { OnOk result (AddsMark number (string_bytes out.old) (string_bytes out.new)) }
{
    let Some(number) = number else {
        return Ok(());
    };
    out.push_str("!")?;
    print_digits(out, number)
}

/// The width of an integer: `i`, `si` or `ui`, and the number of bits.
fn print_width(
    out: &mut String,
    signedness: Signedness,
    width: Option<u32>,
) -> Result<(), AllocError>
    ensures { OnOk result (AddsWidth signedness width (string_bytes out.old) (string_bytes out.new)) }
{
    let Some(width) = width else {
        return Ok(());
    };
    let sign = match signedness {
        Signedness::Signless => "i",
        Signedness::Signed => "si",
        Signedness::Unsigned => "ui",
    };
    out.push_str(sign)?;
    print_digits(out, width)
}

/// A character as it stands in quotes: `"` and `\` have a `\` before them.
fn print_escaped(out: &mut String, c: char) -> Result<(), AllocError>
    ensures { OnOk result (string_bytes out.new ≡ string_bytes out.old ++ encode_utf8_all (escaped (c ∷ []))) }
{
    if c == '"' || c == '\\' {
        out.push('\\')?;
    }
    out.push(c)
}

/// Writes a `"`.
fn print_quote(out: &mut String) -> Result<(), AllocError>
    ensures { OnOk result (string_bytes out.new ≡ string_bytes out.old ++ codes "\"") }
{
    out.push_str("\"")
}

/// A text in quotes.
fn print_text(out: &mut String, text: &str) -> Result<(), AllocError>
    ensures { OnOk result (string_bytes out.new ≡ string_bytes out.old ++ encode_utf8_all (in_quotes (chars text.now))) }
{
    print_quote(out)?;
    for c in text.chars() {
        print_escaped(out, c)?;
    }
    print_quote(out)
}

/// A literal, set off from an id before it.
pub(crate) fn print_literal(out: &mut String, before: Before, text: &str) -> Result<(), AllocError>
    ensures { OnOk result (string_bytes out.new ≡ string_bytes out.old ++
        (gap_of_word (before_of before) ++ text.now)) }
{
    if let Before::Id = before {
        out.push_str(" ")?;
    }
    out.push_str(text)?;
    Ok(())
}

/// Sets a part off from what stands before it.
pub(crate) fn print_gap(out: &mut String, before: Before) -> Result<(), AllocError>
    ensures { OnOk result (string_bytes out.new ≡ string_bytes out.old ++ gap_of_part (before_of before)) }
{
    match before {
        Before::Literal => {}
        Before::Id => out.push_str(" ")?,
        Before::Part => out.push_str(" ")?,
    }
    Ok(())
}

/// `@` before the name of a symbol.
fn print_sign(out: &mut String, directive: Directive) -> Result<(), AllocError>
    ensures { OnOk result (string_bytes out.new ≡ string_bytes out.old ++ sign_of (step_of directive)) }
{
    if let Directive::SymbolHeader = directive {
        out.push_str("@")?;
    }
    Ok(())
}

/// A leaf, with `@` before the name of a symbol.
pub(crate) fn print_leaf(
    out: &mut String,
    directive: Directive,
    leaf: &LeafValue,
) -> Result<(), AllocError>
    ensures { OnOk result (AddsLeaf (step_of directive) leaf.now (string_bytes out.old) (string_bytes out.new)) }
{
    print_sign(out, directive)?;
    match leaf {
        LeafValue::Name(name) => {
            out.push_str(name.as_str())?;
            Ok(())
        }
        LeafValue::Number(number) => print_number(out, *number),
        LeafValue::Digits(number) => print_unsigned(out, *number),
        LeafValue::Width(signedness, width) => print_width(out, *signedness, *width),
        LeafValue::Text(text) => print_text(out, text.as_str()),
        LeafValue::Mark(number) => print_mark(out, *number),
    }
}
