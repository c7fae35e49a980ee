//! The texts of numbers.
ghost use Rattle.std.specs.Prelude.{◌≡◌, ◌≤◌, [], ◌++◌, OnOk, IfOk, encode_utf8_all};
ghost use Rattle.std.specs.String.{string_bytes};
ghost use Rattle.text_streams.specs.Numbers.{begins_with_digit, digits_text, number_text};
ghost use Rattle.text_streams.specs.Positions.{left, LiesBehind};
ghost use Rattle.text_streams.specs.Quotes.{Answers};

use crate::position::Position;
use std::alloc::{AllocError, Global};

/// Adds the digits at a place to a text, and answers the place behind them.
fn push_digits<'a>(
    text: &mut String,
    position: Position<'a>,
    radix: u32,
) -> Result<Position<'a>, AllocError>
    requires lower { 2 ≤ radix }
    requires upper { radix ≤ 36 }
    ensures text { OnOk result (string_bytes text.new ≡ string_bytes text.old ++ encode_utf8_all (digits_text radix (left position.entry))) }
    ensures behind { IfOk result (λ to. LiesBehind position.entry to (digits_text radix (left position.entry))) }
{
    let mut position = position;
    while let Some((character, next)) = position.next() {
        if !character.is_digit(radix) {
            break;
        }
        text.push(character)?;
        position = next;
    }
    Ok(position)
}

/// Whether the character at a place is a digit.
fn begins_with_digit(position: Position<'_>, radix: u32) -> bool
    requires lower { 2 ≤ radix }
    requires upper { radix ≤ 36 }
    ensures { result ≡ begins_with_digit radix (left position.entry) }
{
    match position.next() {
        Some((character, _)) => character.is_digit(radix),
        None => false,
    }
}

/// The text of the number at a place, and the place behind it; none where there is no number.
pub fn number_text<'a>(
    alloc: Global,
    position: Position<'a>,
    radix: u32,
) -> Result<Option<(String, Position<'a>)>, AllocError>
    requires lower { 2 ≤ radix }
    requires upper { radix ≤ 36 }
    ensures { IfOk result (λ answer. Answers (number_text radix (left position.entry)) [] position.entry answer) }
{
    let mut text = String::new(alloc);
    if let Some((sign, next)) = position.next() {
        if sign == '-' {
            if !begins_with_digit(next, radix) {
                return Ok(None);
            }
            text.push(sign)?;
            let end = push_digits(&mut text, next, radix)?;
            return Ok(Some((text, end)));
        }
    }
    if !begins_with_digit(position, radix) {
        return Ok(None);
    }
    let end = push_digits(&mut text, position, radix)?;
    Ok(Some((text, end)))
}
