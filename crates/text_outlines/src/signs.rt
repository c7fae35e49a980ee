//! Signs, each a character that is a token.
ghost use Rattle.std.specs.Prelude.{◌≡◌, ◌∷◌, [], true, false, MatchResult, MatchOption};
ghost use Rattle.text_streams.specs.Positions.{left, LiesBehind};
ghost use Rattle.text_locations.specs.Faults.{IsFaultAt};
ghost use Rattle.text_outlines.specs.Signs.{begins_with, ReadsSign, IsWithout, MissesSign};

use text_streams::{ParseFault, ParseResult, Position, StateStream, TextError};

/// A fault at a place, before which nothing was read.
pub fn fault_at(position: Position<'_>, cause: TextError) -> ParseFault
    ensures { IsFaultAt position.entry cause result }
{
    ParseFault {
        line: position.line(),
        column: position.column(),
        cause,
        consumed: false,
    }
}

/// The place behind a sign, where it is there.
fn behind_sign<'a>(position: Position<'a>, sign: char) -> Option<Position<'a>>
    ensures { MatchOption result (begins_with sign (left position.entry) ≡ false) (λ to. LiesBehind position.entry to (sign ∷ [])) }
{
    match position.next() {
        Some((character, behind)) if character == sign => Some(behind),
        _ => None,
    }
}

/// Goes behind white space and a sign, where it is behind the white space; and whether it is.
pub fn take_sign<S>(stream: &mut StateStream<'_, S>, sign: char) -> bool
    ensures there { result ≡ true → ReadsSign sign stream.old stream.new }
    ensures without { result ≡ false → (stream.new ≡ stream.old) × IsWithout sign stream.old }
{
    match behind_sign(stream.position.skip_spaces(), sign) {
        Some(behind) => {
            stream.position = behind;
            true
        }
        None => false,
    }
}

/// Goes behind white space and a sign. Where another token is there, that is a syntax fault at it.
pub fn expect<S>(stream: &mut StateStream<'_, S>, sign: char) -> ParseResult<()>
    ensures { MatchResult result (λ _. ReadsSign sign stream.old stream.new) (MissesSign sign stream.old) }
{
    if take_sign(stream, sign) {
        return Ok(());
    }
    Err(fault_at(stream.position.skip_spaces(), TextError::Syntax))
}
