//! Parsers of numbers and texts.
ghost use Rattle.std.specs.Prelude.{◌≡◌, ◌≤◌, ◌++◌, [], ℕ, List, Option, IfOk};
ghost use Rattle.ir_print.specs.Layout.{in_quotes};
ghost use Rattle.text_streams.specs.Numbers.{number_text};
ghost use Rattle.text_streams.specs.Positions.{left};
ghost use Rattle.text_streams.specs.Quotes.{Said, quoted_text, Answers};
ghost use Rattle.text_streams.specs.Reading.{ReadsText, ReadsBack, ReadsNumber};
ghost use Rattle.text_streams.specs.Spaces.{ReadsSpaced};

use crate::faults::{ParseResult, TextError};
use crate::numbers::number_text;
use crate::position::Position;
use crate::quotes::quoted_text;
use crate::radix::FromStrRadix;
use crate::stream::StateStream;
use std::alloc::{AllocError, Global};

/// Goes behind a text that was read, or answers a fault where the stream is.
fn take_text<'a, S>(
    stream: &mut StateStream<'a, S>,
    read: Result<Option<(String, Position<'a>)>, AllocError>,
) -> ParseResult<String>
    ensures { (front : Option Said) → IfOk read.entry (λ answer. Answers front [] stream.old.position answer) →
        ReadsText front stream.old stream.new result }
{
    match read {
        Ok(Some((text, end))) => {
            stream.position = end;
            Ok(text)
        }
        Ok(None) => Err(stream.fault(TextError::Syntax)),
        Err(_) => Err(stream.fault(TextError::Memory)),
    }
}

/// The text of a decimal number.
pub fn number_as_string_parse<S>(
    alloc: Global,
    stream: &mut StateStream<'_, S>,
) -> ParseResult<String>
    ensures { ReadsText (number_text 10 (left stream.old.position)) stream.old stream.new result }
{
    let read = number_text(alloc, stream.position, 10);
    take_text(stream, read)
}

/// What a text in quotes says. What `quoted` wrote gives its text back, whatever follows.
pub fn quoted_string_parse<S>(alloc: Global, stream: &mut StateStream<'_, S>) -> ParseResult<String>
    ensures text { ReadsText (quoted_text (left stream.old.position)) stream.old stream.new result }
    ensures inverse { (cs rest : List ℕ) → left stream.old.position ≡ in_quotes cs ++ rest →
        ReadsBack cs rest stream.new result }
{
    let read = quoted_text(alloc, stream.position);
    take_text(stream, read)
}

/// A number in a base, in the range of its type.
fn number_parse<S, T: FromStrRadix>(
    alloc: Global,
    stream: &mut StateStream<'_, S>,
    radix: u32,
) -> ParseResult<T>
    requires lower { 2 ≤ radix }
    requires upper { radix ≤ 36 }
    ensures { ReadsNumber (T.parses radix) (number_text radix (left stream.old.position)) stream.old stream.new result }
{
    let read = match number_text(alloc, stream.position, radix) {
        Ok(read) => read,
        Err(_) => return Err(stream.fault(TextError::Memory)),
    };
    let Some((text, end)) = read else {
        return Err(stream.fault(TextError::Syntax));
    };
    match T::from_str_radix(text.as_str(), radix) {
        Ok(number) => {
            stream.position = end;
            Ok(number)
        }
        Err(_) => Err(stream.fault(TextError::Syntax)),
    }
}

/// A decimal number in the range of its type.
pub fn int_parse<S, T: FromStrRadix>(
    alloc: Global,
    stream: &mut StateStream<'_, S>,
) -> ParseResult<T>
    ensures { ReadsNumber (T.parses 10) (number_text 10 (left stream.old.position)) stream.old stream.new result }
{
    number_parse(alloc, stream, 10)
}

/// A hexadecimal number, without a prefix, in the range of its type.
pub fn hex_int_parse<S, T: FromStrRadix>(
    alloc: Global,
    stream: &mut StateStream<'_, S>,
) -> ParseResult<T>
    ensures { ReadsNumber (T.parses 16) (number_text 16 (left stream.old.position)) stream.old stream.new result }
{
    number_parse(alloc, stream, 16)
}

/// White space, what a parser reads, and white space.
pub fn spaced<S, T, F: FnOnce(&mut StateStream<'_, S>) -> ParseResult<T>>(
    stream: &mut StateStream<'_, S>,
    parser: F,
) -> ParseResult<T>
    requires { F.IsAlwaysCallable parser }
    ensures { ReadsSpaced F.FnOnce parser stream.old result stream.new }
{
    stream.position = stream.position.skip_spaces();
    match parser(stream) {
        Ok(value) => {
            stream.position = stream.position.skip_spaces();
            Ok(value)
        }
        Err(fault) => Err(fault),
    }
}
