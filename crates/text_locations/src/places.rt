//! Lines and columns.
ghost use Rattle.std.specs.Prelude.{◌≡◌, MatchResult};
ghost use Rattle.text_streams.specs.Positions.{left};
ghost use Rattle.text_streams.specs.Numbers.{begins_with_digit};
ghost use Rattle.text_locations.specs.Tokens.{ReadsName, RefusesName};
ghost use Rattle.text_locations.specs.Places.{ReadsDigits, RefusesDigits, ReadsLabelled, RefusesLabelled, ReadsPlace, RefusesPlace, Says, SaysNone};

use crate::tokens::{Token, expect, fault_at, take_quoted};
use std::alloc::Global;
use text_streams::{ParseResult, Position, StateStream, TextError, number_as_string_parse};

/// Digits that were read, and where they are.
#[derive(Drop)]
pub struct Digits<'a> {
    place: Position<'a>,
    text: String,
}

impl Digits<'_> {
    /// The number that they say. One that isn't below 2^64 is a syntax fault at them.
    fn number(&self) -> ParseResult<u64>
        ensures { MatchResult result (Says self.now) (SaysNone self.now) }
    {
        match u64::from_str_radix(self.text.as_str(), 10) {
            Ok(number) => Ok(number),
            Err(_) => Err(fault_at(self.place, TextError::Syntax)),
        }
    }
}

/// Whether a decimal digit is at a place.
fn begins_with_digit(position: Position<'_>) -> bool
    ensures { result ≡ begins_with_digit 10 (left position.entry) }
{
    match position.next() {
        Some((character, _)) => character.is_digit(10),
        None => false,
    }
}

/// Reads white space and digits.
fn read_digits<'a, S>(alloc: Global, stream: &mut StateStream<'a, S>) -> ParseResult<Digits<'a>>
    ensures { MatchResult result (λ digits. ReadsDigits stream.old digits stream.new) (RefusesDigits stream.old) }
{
    stream.position = stream.position.skip_spaces();
    let place = stream.position;
    if !begins_with_digit(place) {
        return Err(fault_at(place, TextError::Syntax));
    }
    let text = number_as_string_parse(alloc, stream)?;
    Ok(Digits { place, text })
}

/// Reads a token, a label, a `:` and digits.
fn read_labelled<'a, S>(
    alloc: Global,
    stream: &mut StateStream<'a, S>,
    token: Token,
    label: Token,
) -> ParseResult<Digits<'a>>
    ensures { MatchResult result (λ digits. ReadsLabelled token label stream.old digits stream.new) (RefusesLabelled token label stream.old) }
{
    expect(stream, token)?;
    expect(stream, label)?;
    expect(stream, Token::Colon)?;
    read_digits(alloc, stream)
}

/// Reads what is behind a source: `: line: 3, column: 4`. A number past its bound is told behind all of it.
pub fn read_place<S>(alloc: Global, stream: &mut StateStream<'_, S>) -> ParseResult<(u64, u64)>
    ensures { MatchResult result (λ at. ReadsPlace stream.old at stream.new) (RefusesPlace stream.old) }
{
    let line = read_labelled(alloc, stream, Token::Colon, Token::Line)?;
    let column = read_labelled(alloc, stream, Token::Comma, Token::Column)?;
    Ok((line.number()?, column.number()?))
}

/// Reads `[`, a text in quotes and a `,`.
pub fn read_name<S>(alloc: Global, stream: &mut StateStream<'_, S>) -> ParseResult<String>
    ensures { MatchResult result (λ name. ReadsName stream.old name stream.new) (RefusesName stream.old) }
{
    expect(stream, Token::Opens)?;
    stream.position = stream.position.skip_spaces();
    let name = take_quoted(alloc, stream)?;
    expect(stream, Token::Comma)?;
    Ok(name)
}
