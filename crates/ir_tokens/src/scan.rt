//! What begins at a character of a text.
ghost use Rattle.std.specs.Prelude.{◌≡◌, ℕ, ◌+◌, ◌^◌, ◌<◌, ◌≤◌, ◌==◌, ◌⊎◌, true, false, length, slice_index, MatchBool, MatchOption};
ghost use Rattle.ir_characters.specs.Texts.{codes_of};
ghost use Rattle.ir_tokens.specs.Tokens.{is_letter, is_digit, is_name_char, is_sign, AreAllOfKind, Spells, IsLongestToken, ClosesText, IsInMemory};

use crate::tokens::TokenKind;
use ir_characters::Text;

fn is_letter(c: char) -> bool
    ensures { result ≡ is_letter c }
{
    ('a' <= c && c <= 'z') || ('A' <= c && c <= 'Z') || c == '_'
}

pub fn is_digit(c: char) -> bool
    ensures { result ≡ is_digit c }
{
    '0' <= c && c <= '9'
}

fn is_name_char(c: char) -> bool
    ensures { result ≡ is_name_char c }
{
    is_letter(c) || is_digit(c)
}

fn is_sign(c: char) -> bool
    ensures { result ≡ is_sign c }
{
    match c {
        '{' | '}' | '(' | ')' | '[' | ']' | '<' | '>' | ',' | ';' | ':' | '=' | '@' | '^' | '?' => {
            true
        }
        _ => false,
    }
}

/// Where the name characters from here on end.
fn name_end(chars: Text, from: usize) -> usize
    requires { from ≤ length (codes_of chars) }
    ensures after { from ≤ result }
    ensures inside { result ≤ length (codes_of chars.entry) }
    ensures runs { AreAllOfKind is_name_char (codes_of chars.entry) from result }
    ensures stops { result < length (codes_of chars.entry)
        → is_name_char (slice_index (codes_of chars.entry) result) ≡ false }
{
    let mut at = from;
    while at < chars.len() && is_name_char(chars.at(at)) {
        at += 1;
    }
    at
}

/// Where the digits from here on end.
fn digits_end(chars: Text, from: usize) -> usize
    requires { from ≤ length (codes_of chars) }
    ensures after { from ≤ result }
    ensures inside { result ≤ length (codes_of chars.entry) }
    ensures runs { AreAllOfKind is_digit (codes_of chars.entry) from result }
    ensures stops { result < length (codes_of chars.entry)
        → is_digit (slice_index (codes_of chars.entry) result) ≡ false }
{
    let mut at = from;
    while at < chars.len() && is_digit(chars.at(at)) {
        at += 1;
    }
    at
}

/// Whether a dot and a name follow.
fn has_second_name(chars: Text, at: usize) -> bool
    requires { at ≤ length (codes_of chars) }
    ensures { MatchBool result ((slice_index (codes_of chars.entry) at ≡ 46)
        × (is_letter (slice_index (codes_of chars.entry) (at + 1)) ≡ true))
        (slice_index (codes_of chars.entry) at ≡ 46 → is_letter (slice_index (codes_of chars.entry) (at + 1)) ≡ true → ⊥) }
{
    if chars.at(at) == '.' {
        is_letter(chars.at(at + 1))
    } else {
        false
    }
}

/// A name or a dotted name.
fn word_end(chars: Text, at: usize) -> (TokenKind, usize)
    requires begins { at < length (codes_of chars) }
    requires letter { is_letter (slice_index (codes_of chars) at) ≡ true }
    requires few { length (codes_of chars) < 2 ^ 63 }
    ensures { IsLongestToken (codes_of chars.entry) at result }
{
    let end = name_end(chars, at);
    if has_second_name(chars, end) {
        (TokenKind::Dotted, name_end(chars, end + 1))
    } else {
        (TokenKind::Name, end)
    }
}

/// Digits.
fn number_end(chars: Text, at: usize) -> (TokenKind, usize)
    requires begins { at < length (codes_of chars) }
    requires digit { is_digit (slice_index (codes_of chars) at) ≡ true }
    ensures { IsLongestToken (codes_of chars.entry) at result }
{
    (TokenKind::Digits, digits_end(chars, at))
}

/// A negative number or an arrow.
fn minus_end(chars: Text, at: usize) -> (TokenKind, usize)
    requires begins { at < length (codes_of chars) }
    requires minus { slice_index (codes_of chars) at ≡ 45 }
    requires few { length (codes_of chars) < 2 ^ 63 }
    ensures { IsLongestToken (codes_of chars.entry) at result }
{
    let next = chars.at(at + 1);
    if is_digit(next) {
        (TokenKind::Negative, digits_end(chars, at + 1))
    } else if next == '>' {
        (TokenKind::Arrow, at + 2)
    } else {
        (TokenKind::Bad, at)
    }
}

/// A mark.
fn mark_end(chars: Text, at: usize) -> (TokenKind, usize)
    requires begins { at < length (codes_of chars) }
    requires mark { slice_index (codes_of chars) at ≡ 33 }
    requires few { length (codes_of chars) < 2 ^ 63 }
    ensures { IsLongestToken (codes_of chars.entry) at result }
{
    if is_digit(chars.at(at + 1)) {
        (TokenKind::Mark, digits_end(chars, at + 1))
    } else {
        (TokenKind::Bad, at)
    }
}

/// Where the text ends whose characters begin here.
fn closing(chars: Text, from: usize) -> Option<usize>
    requires { from ≤ length (codes_of chars) }
    ensures { MatchOption result ((j : ℕ) → j ≤ length (codes_of chars.entry)
        → ClosesText (codes_of chars.entry) from j → ⊥)
        (λ end. (end ≤ length (codes_of chars.entry)) × ClosesText (codes_of chars.entry) from end) }
{
    let mut at = from;
    while at < chars.len() {
        let c = chars.at(at);
        if c == '"' {
            return Some(at + 1);
        }
        if c == '\\' {
            at += 2;
            continue;
        }
        at += 1;
    }
    None
}

/// A text.
fn text_end(chars: Text, at: usize) -> (TokenKind, usize)
    requires begins { at < length (codes_of chars) }
    requires quote { slice_index (codes_of chars) at ≡ 34 }
    requires few { length (codes_of chars) < 2 ^ 63 }
    ensures { IsLongestToken (codes_of chars.entry) at result }
{
    match closing(chars, at + 1) {
        Some(end) => (TokenKind::Text, end),
        None => (TokenKind::Bad, at),
    }
}

const IN_MEMORY: [char; 11] = ['<', 'i', 'n', '-', 'm', 'e', 'm', 'o', 'r', 'y', '>'];

/// Whether `<in-memory>` stands here.
fn is_in_memory(chars: Text, at: usize) -> bool
    requires begins { at < length (codes_of chars) }
    requires few { length (codes_of chars) < 2 ^ 63 }
    ensures { MatchBool result (IsInMemory (codes_of chars.entry) at) (IsInMemory (codes_of chars.entry) at → ⊥) }
{
    for (k, c) in IN_MEMORY.iter().enumerate() {
        if chars.at(at + k) != *c {
            return false;
        }
    }
    true
}

/// A sign or `<in-memory>`.
fn sign_end(chars: Text, at: usize) -> (TokenKind, usize)
    requires begins { at < length (codes_of chars) }
    requires sign { is_sign (slice_index (codes_of chars) at) ≡ true }
    requires few { length (codes_of chars) < 2 ^ 63 }
    ensures { IsLongestToken (codes_of chars.entry) at result }
{
    if is_in_memory(chars, at) {
        (TokenKind::InMemory, at + 11)
    } else {
        (TokenKind::Sign(chars.at(at)), at + 1)
    }
}

/// The longest token from here on.
pub fn token_end(chars: Text, at: usize) -> (TokenKind, usize)
    requires { at < length (codes_of chars) }
    ensures { IsLongestToken (codes_of chars.entry) at result }
{
    let c = chars.at(at);
    if is_letter(c) {
        word_end(chars, at)
    } else if is_digit(c) {
        number_end(chars, at)
    } else if c == '-' {
        minus_end(chars, at)
    } else if c == '!' {
        mark_end(chars, at)
    } else if c == '"' {
        text_end(chars, at)
    } else if is_sign(c) {
        sign_end(chars, at)
    } else {
        (TokenKind::Bad, at)
    }
}
