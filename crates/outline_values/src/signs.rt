//! Signs. Each but the arrow is a character that is a token; as no location is here, `<` is one before `in-memory>` too.
ghost use Rattle.std.specs.Prelude.{◌∷◌, [], IfOk, IfSome};
ghost use Rattle.text_streams.specs.Positions.{LiesBehind};
ghost use Rattle.outline_values.specs.Places.{Passes, TakesSign};

use crate::faults::{ReadFault, syntax};
use text_streams::Position;

/// The place behind a character, where it is there.
fn behind_character<'a>(at: Position<'a>, sign: char) -> Option<Position<'a>>
    ensures { IfSome result (λ to. LiesBehind at.entry to (sign ∷ [])) }
{
    match at.next() {
        Some((character, behind)) if character == sign => Some(behind),
        _ => None,
    }
}

/// The place behind white space and a sign, where it is behind the white space.
pub fn behind_sign<'a>(at: Position<'a>, sign: char) -> Option<Position<'a>>
    ensures sign { IfSome result (TakesSign sign at.entry) }
    ensures passes { IfSome result (Passes at.entry) }
{
    behind_character(at.skip_spaces(), sign)
}

/// The place behind white space and a sign. Where another token is there, that is a syntax fault at it.
pub fn expect<'a>(at: Position<'a>, sign: char) -> Result<Position<'a>, ReadFault<'a>>
    ensures sign { IfOk result (TakesSign sign at.entry) }
    ensures passes { IfOk result (Passes at.entry) }
{
    match behind_sign(at, sign) {
        Some(behind) => Ok(behind),
        None => Err(syntax(at)),
    }
}

/// The place behind white space and `->`. Where another token is there, that is a syntax fault at it.
pub fn expect_arrow<'a>(at: Position<'a>) -> Result<Position<'a>, ReadFault<'a>>
    ensures { IfOk result (Passes at.entry) }
{
    if let Some(dash) = behind_sign(at, '-') {
        if let Some((character, behind)) = dash.next() {
            if character == '>' {
                return Ok(behind);
            }
        }
    }
    Err(syntax(at))
}
