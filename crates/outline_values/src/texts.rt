//! Texts in quotes.
ghost use Rattle.std.specs.Prelude.{IfOk};
ghost use Rattle.outline_values.specs.Places.{GoesTo};
ghost use Rattle.outline_values.specs.Texts.{SaysText};

use crate::faults::{ReadFault, syntax_at};
use std::alloc::Global;
use text_streams::{Position, StateStream, TextError, quoted_string_parse};

/// What a text in quotes says.
#[derive(Drop)]
pub struct Said<'a> {
    pub text: String,
    /// The place behind it.
    pub end: Position<'a>,
}

/// Reads a text in quotes. Where another token is there, or a `\` before another character than `"` and `\`, that is a syntax
/// fault at the token.
pub fn read_text<'a>(alloc: Global, at: Position<'a>) -> Result<Said<'a>, ReadFault<'a>>
    ensures { IfOk result (λ said. SaysText at.entry said.text said.end) }
{
    let start = at.skip_spaces();
    let mut stream = StateStream {
        position: start,
        state: (),
    };
    match quoted_string_parse(alloc, &mut stream) {
        Ok(text) => Ok(Said {
            text,
            end: stream.position,
        }),
        Err(fault) => Err(match fault.cause {
            TextError::Memory => ReadFault::Memory,
            _ => syntax_at(start),
        }),
    }
}

/// The same, where what is said doesn't matter.
pub fn skip_text<'a>(alloc: Global, at: Position<'a>) -> Result<Position<'a>, ReadFault<'a>>
    ensures { IfOk result (GoesTo at.entry) }
{
    let said = read_text(alloc, at)?;
    Ok(said.end)
}
