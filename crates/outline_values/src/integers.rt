//! Numbers and widths.
ghost use Rattle.std.specs.Prelude.{IfOk};
ghost use Rattle.outline_values.specs.Places.{GoesTo, Passes};

use crate::faults::{ReadFault, syntax_at};
use crate::signs::{behind_sign, expect};
use crate::tokens::leaf_at;
use ir_print::LeafSort;
use std::alloc::Global;
use text_streams::Position;

/// A number of a text, with its place.
#[derive(Clone, Copy)]
pub struct Number<'a> {
    pub is_negative: bool,
    /// Its amount, where that is below 2^64.
    pub amount: Option<u64>,
    pub start: Position<'a>,
    /// The place behind it.
    pub end: Position<'a>,
}

/// What digits say, where that is below 2^64.
fn amount_of(digits: &[char]) -> Option<u64> {
    let mut amount: u64 = 0;
    for digit in digits {
        amount = amount
            .checked_mul(10)?
            .checked_add(digit.to_digit(10)? as u64)?;
    }
    Some(amount)
}

/// The digits of a number, or of a width.
fn digits_of(text: &[char]) -> &[char] {
    match text {
        ['-' | 'i', digits @ ..] => digits,
        ['s' | 'u', 'i', digits @ ..] => digits,
        _ => text,
    }
}

fn begins_with_minus(text: &[char]) -> bool {
    matches!(text, ['-', ..])
}

/// The number, the digits or the width that comes next.
pub fn number_at<'a>(
    alloc: Global,
    at: Position<'a>,
    sort: LeafSort,
) -> Result<Number<'a>, ReadFault<'a>>
    ensures { IfOk result (λ number. GoesTo at.entry number.end) }
{
    let token = leaf_at(alloc, at, sort)?;
    Ok(Number {
        is_negative: begins_with_minus(&token.text),
        amount: amount_of(digits_of(&token.text)),
        start: token.start,
        end: token.end,
    })
}

/// Whether the amount of a number is below 2^32.
pub fn is_below_2_32(number: Number<'_>) -> bool {
    match number.amount {
        Some(amount) => amount <= u32::MAX as u64,
        None => false,
    }
}

/// The width of an integer attribute, from 1 to 64.
fn width_of(width: Number<'_>) -> Option<u32> {
    let bits = width.amount?;
    if bits < 1 || bits > 64 {
        return None;
    }
    Some(bits as u32)
}

/// Whether a number is one of so many bits, from 1 to 64, read as signed or as unsigned.
fn fits(number: Number<'_>, width: u32) -> bool {
    let Some(amount) = number.amount else {
        return false;
    };
    if width < 1 || width > 64 {
        return false;
    }
    let half = 1u64 << (width - 1);
    if number.is_negative {
        return amount <= half;
    }
    amount <= half - 1 + half
}

/// Reads `<`, a number, `:`, a width and `>`, and checks both then.
pub fn read_integer<'a>(alloc: Global, at: Position<'a>) -> Result<Position<'a>, ReadFault<'a>>
    ensures { IfOk result (GoesTo at.entry) }
{
    let number = number_at(alloc, expect(at, '<')?, LeafSort::Number)?;
    let width = number_at(alloc, expect(number.end, ':')?, LeafSort::Width)?;
    let end = expect(width.end, '>')?;
    let Some(bits) = width_of(width) else {
        return Err(syntax_at(width.start));
    };
    if !fits(number, bits) {
        return Err(syntax_at(number.start));
    }
    Ok(end)
}

/// How far sizes were read.
#[derive(Clone, Copy)]
struct Sizes<'a> {
    /// The first that is 2^32 or more.
    too_big: Option<Position<'a>>,
    end: Position<'a>,
}

/// Reads one more size.
fn read_size<'a>(
    alloc: Global,
    at: Position<'a>,
    too_big: Option<Position<'a>>,
) -> Result<Sizes<'a>, ReadFault<'a>>
    ensures { IfOk result (λ sizes. GoesTo at.entry sizes.end) }
{
    let size = number_at(alloc, at, LeafSort::Digits)?;
    let is_first = too_big.is_none() && !is_below_2_32(size);
    Ok(Sizes {
        too_big: if is_first { Some(size.start) } else { too_big },
        end: size.end,
    })
}

/// Reads sizes in brackets, and checks them then.
pub fn read_sizes<'a>(alloc: Global, at: Position<'a>) -> Result<Position<'a>, ReadFault<'a>>
    ensures { IfOk result (GoesTo at.entry) }
{
    let start = expect(at, '[')?;
    if let Some(end) = behind_sign(start, ']') {
        return Ok(end);
    }
    let mut sizes = read_size(alloc, start, None)?;
    while let Some(next) = behind_sign(sizes.end, ',') {
        sizes = read_size(alloc, next, sizes.too_big)?;
    }
    let end = expect(sizes.end, ']')?;
    match sizes.too_big {
        Some(place) => Err(syntax_at(place)),
        None => Ok(end),
    }
}
