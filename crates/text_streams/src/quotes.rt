//! Texts in quotes.
ghost use Rattle.std.specs.Prelude.{[], IfOk};
ghost use Rattle.text_streams.specs.Positions.{left};
ghost use Rattle.text_streams.specs.Quotes.{said_in, quoted_text, Answers};

use crate::position::Position;
use std::alloc::{AllocError, Global};

/// What is said from a place up to the closing `"`, and the place behind that; none where it isn't said as it has to be.
fn said_text<'a>(
    alloc: Global,
    position: Position<'a>,
) -> Result<Option<(String, Position<'a>)>, AllocError>
    ensures { IfOk result (λ answer. Answers (said_in (left position.entry)) [] position.entry answer) }
{
    let mut text = String::new(alloc);
    let mut position = position;
    while let Some((character, next)) = position.next() {
        if character == '"' {
            return Ok(Some((text, next)));
        }
        if character == '\\' {
            match next.next() {
                Some((escaped, behind)) if escaped == '"' || escaped == '\\' => {
                    text.push(escaped)?;
                    position = behind;
                }
                _ => return Ok(None),
            }
        } else {
            text.push(character)?;
            position = next;
        }
    }
    Ok(None)
}

/// What the text in quotes says that begins at a place, and the place behind it; none where there is no such text.
pub fn quoted_text<'a>(
    alloc: Global,
    position: Position<'a>,
) -> Result<Option<(String, Position<'a>)>, AllocError>
    ensures { IfOk result (λ answer. Answers (quoted_text (left position.entry)) [] position.entry answer) }
{
    match position.next() {
        Some((mark, next)) if mark == '"' => said_text(alloc, next),
        _ => Ok(None),
    }
}
