//! A text with its tokens, and what single tokens say.
ghost use Rattle.std.specs.Prelude.{◌≡◌, ◌+◌, ◌*◌, ◌-◌, ◌<◌, ◌^◌, ℕ, Bool, SomeIff, IfOk, OnOk, List, [], ◌∷◌, ◌++◌, length, take, drop, chars, string_bytes};
ghost use Rattle.ir_characters.specs.Texts.{codes_of};
ghost use Rattle.ir_names.specs.declared.kinds.Signedness.{Signedness};
ghost use Rattle.ir_print.specs.Pieces.{number, width};
ghost use Rattle.ir_print.specs.Shown.{AreDigitsOf, IsNumber, IsWidth};
ghost use Rattle.ir_forest.specs.Meaning.{digits, number_in, width_in, unescaped};
ghost use Rattle.ir_tokens.specs.Tokens.{text_between};

use ir_characters::Text;
use ir_names::Signedness;
use ir_print::Number;
use ir_tokens::Numbers;
use std::alloc::{AllocError, Global};

/// A text with its tokens.
#[derive(Clone, Copy)]
pub struct Source<'a> {
    pub chars: Text<'a>,
    /// Where each token begins, and behind these where the text of the last one ends.
    pub starts: &'a Numbers,
}

impl<'a> Source<'a> {
    /// How many tokens there are.
    pub fn tokens(&self) -> usize
        ensures { result ≡ length self.now.starts.now - 1 }
    {
        self.starts.len().saturating_sub(1)
    }

    /// The characters of the token with this number, none past the last.
    #[inline]
    pub fn text(&self, token: usize) -> Text<'a>
        ensures { codes_of result ≡ text_between (codes_of self.now.chars) self.now.starts.now token }
    {
        let (start, next) = self.starts.pair(token);
        let end = self.chars.len().min(next);
        if start <= end {
            self.chars.slice(start, end).trim_end()
        } else {
            Text::Bytes(&[])
        }
    }

    /// So many characters from the beginning on.
    pub fn front(&self, end: usize) -> Text<'a>
        ensures { codes_of result ≡ take end (codes_of self.now.chars) }
    {
        self.chars.slice(0, end.min(self.chars.len()))
    }
}

/// What a decimal digit counts: `0` is 48.
fn digit_value(digit: char) -> u64
    ensures { result ≡ digit - 48 }
{
    u64::from((digit as u32).saturating_sub(48))
}

/// The number with one more digit, if it is below 2^64.
fn with_digit(value: u64, digit: char) -> Option<u64>
    ensures { SomeIff result (10 * value + (digit - 48) < 2 ^ 64) (10 * value + (digit - 48)) }
{
    value.checked_mul(10)?.checked_add(digit_value(digit))
}

/// The value of the decimal digits from this place to the end, if it is below 2^64.
fn digits_value(text: Text, from: usize) -> Option<u64>
    ensures { SomeIff result (digits (drop from (codes_of text.entry)) < 2 ^ 64)
        (digits (drop from (codes_of text.entry))) }
{
    let mut value: u64 = 0;
    for place in from..text.len() {
        value = with_digit(value, text.at(place))?;
    }
    Some(value)
}

/// What a number token says.
pub fn number_of(text: Text) -> Option<Number>
    ensures { (negative : Bool) (magnitude : ℕ) → number_in (codes_of text.entry) ≡ number negative magnitude
        → IsNumber result negative magnitude }
{
    let is_negative = text.at(0) == '-';
    let magnitude = digits_value(text, usize::from(is_negative))?;
    Some(Number {
        is_negative,
        magnitude,
    })
}

/// What a token says that is a number without a sign.
pub fn unsigned_of(text: Text) -> Option<u64>
    ensures { AreDigitsOf result (digits (codes_of text.entry)) }
{
    digits_value(text, 0)
}

/// What a mark says: the number behind its `!`.
pub fn mark_of(text: Text) -> Option<u64>
    ensures { AreDigitsOf result (digits (drop 1 (codes_of text.entry))) }
{
    digits_value(text, 1)
}

/// The number of bits that the decimal digits from this place to the end say, if it is below 2^32.
fn bits_of(text: Text, from: usize) -> Option<u32>
    ensures { IsWidth result (digits (drop from (codes_of text.entry))) }
{
    match digits_value(text, from) {
        Some(value) => u32::try_from(value).ok(),
        None => None,
    }
}

/// What a width token says.
pub fn width_of(text: Text) -> (Signedness, Option<u32>)
    ensures { (sign : Signedness) (bits : ℕ) → width_in (codes_of text.entry) ≡ width sign bits
        → (result.0 ≡ sign) × IsWidth result.1 bits }
{
    match text.at(0) {
        's' => (Signedness::Signed, bits_of(text, 2)),
        'u' => (Signedness::Unsigned, bits_of(text, 2)),
        _ => (Signedness::Signless, bits_of(text, 1)),
    }
}

/// Puts a character behind a text.
fn push_character(text: &mut String, c: char) -> Result<(), AllocError>
    ensures { OnOk result (chars (string_bytes text.new) ≡ chars (string_bytes text.old) ++ c ∷ []) }
{
    text.push(c)
}

/// What a text in quotes says: a `\` stands for the character behind it.
pub fn string_of(alloc: Global, text: Text) -> Result<String, AllocError>
    ensures { IfOk result (λ string. chars (string_bytes string) ≡ unescaped (drop 1 (codes_of text.entry))) }
{
    let mut string = String::new(alloc);
    let mut is_escape = false;
    for place in 1..text.len() {
        let c = text.at(place);
        if is_escape {
            push_character(&mut string, c)?;
            is_escape = false;
        } else if c == '\\' {
            is_escape = true;
        } else if c == '"' {
            return Ok(string);
        } else {
            push_character(&mut string, c)?;
        }
    }
    Ok(string)
}
