//! Whole texts.
ghost use Rattle.std.specs.Prelude.{chars};
ghost use Rattle.text_parsables.specs.Whole.{ParsesWhole};

use crate::parsable::Parsable;
use std::alloc::Global;
use text_streams::{ParseFault, ParseResult, StateStream, TextError};

/// The value that a whole text is, with white space around it.
///
/// A fault of the value is met where it is, and its `consumed` says whether characters of the value were read. Where more than white space
/// follows the value, that is a syntax fault at the first character of it.
pub fn parse_whole<S: Drop, T: Parsable<S>>(
    alloc: Global,
    text: &str,
    state: S,
    arg: T::Arg,
) -> ParseResult<T::Parsed>
where
    T::Parsed: Drop,
    ensures { ParsesWhole (T.stands arg) (chars text.now) state result }
{
    let mut stream = StateStream::new(text, state);
    stream.position = stream.position.skip_spaces();
    let value = T::parse(alloc, &mut stream, arg)?;
    stream.position = stream.position.skip_spaces();
    if stream.position.next().is_none() {
        return Ok(value);
    }
    let fault = stream.fault(TextError::Syntax);
    Err(ParseFault {
        consumed: true,
        ..fault
    })
}
