//! A text apart from its marks.
ghost use Rattle.std.specs.Prelude.{◌≡◌, ◌+◌, ◌^◌, ◌<◌, ◌≤◌, ◌∷◌, [], ◌++◌, ℕ, List, true, length, IfOk, OnOk};
ghost use Rattle.ir_characters.specs.Texts.{codes_of, owned_codes};
ghost use Rattle.ir_tokens.specs.Tokens.{is_digit, AreAllOfKind, IsToken};
ghost use Rattle.ir_tokens.specs.declared.tokens.Token.{Token};
ghost use Rattle.text_marking.specs.Marks.{blanked, is_mark, mark_of, number_in_64_bits};
ghost use Rattle.text_marking.specs.Taking.{HasTaken, TakesMarks};

use ir_characters::{Characters, Text};
use ir_tokens::{Token, TokenKind, token_at};
use std::alloc::{AllocError, Global};

/// A mark of a text.
#[derive(Clone, Copy, Debug, PartialEq, Eq)]
pub struct Mark {
    /// Where its `!` is, in characters from 0.
    pub start: usize,
    /// The number of its digits, if that is below 2^64.
    pub number: Option<u64>,
    /// How many tokens before it are no marks.
    pub tokens_before: usize,
}

/// A text apart from its marks.
#[derive(Drop)]
pub struct MarkedText {
    /// The text with a space in the place of each character of a mark.
    pub bare: Characters,
    /// The marks, in the order of the text.
    pub marks: Vec<Mark>,
}

/// The characters of a text, as one's own.
fn copied(alloc: Global, text: Text) -> Result<Characters, AllocError>
    ensures { IfOk result (λ all. owned_codes all ≡ codes_of text.entry) }
{
    match text {
        Text::Bytes(bytes) => Ok(Characters::Bytes(Vec::from_slice(alloc, bytes)?)),
        Text::Characters(characters) => {
            Ok(Characters::Characters(Vec::from_slice(alloc, characters)?))
        }
    }
}

/// Spaces from `start` to before `end`.
fn blank(characters: &mut Characters, start: usize, end: usize)
    requires ordered { start ≤ end }
    requires inside { end ≤ length (owned_codes characters.old) }
    ensures { owned_codes characters.new ≡ blanked (owned_codes characters.old) start end }
{
    match characters {
        Characters::Bytes(bytes) => bytes[start..end].fill(b' '),
        Characters::Characters(characters) => characters[start..end].fill(' '),
    }
}

/// The number of these digits, if it is below 2^64.
fn number_of(digits: Text) -> Option<u64>
    requires { AreAllOfKind is_digit (codes_of digits) 0 (length (codes_of digits)) }
    ensures { result ≡ number_in_64_bits (codes_of digits.entry) }
{
    let mut number: u64 = 0;
    for place in 0..digits.len() {
        let digit = digits.at(place) as u64 - '0' as u64;
        number = number.checked_mul(10)?.checked_add(digit)?;
    }
    Some(number)
}

/// Whether a token is a mark.
fn is_mark(kind: TokenKind) -> bool
    ensures { result ≡ is_mark kind }
{
    match kind {
        TokenKind::Mark => true,
        _ => false,
    }
}

/// A text apart from the marks among its first tokens.
#[derive(Drop)]
struct Taking {
    taken: MarkedText,
    /// How many of these tokens are no marks.
    others: usize,
}

impl Taking {
    /// The text before its first token.
    fn new(alloc: Global, text: Text) -> Result<Taking, AllocError>
        ensures { IfOk result (λ t. HasTaken (codes_of text.entry) [] t) }
    {
        Ok(Taking {
            taken: MarkedText {
                bare: copied(alloc, text)?,
                marks: Vec::new(alloc),
            },
            others: 0,
        })
    }

    /// Takes the next token of the text.
    fn add(&mut self, text: Text, token: Token) -> Result<(), AllocError>
        requires token { IsToken (codes_of text) token }
        requires long { length (owned_codes self.old.taken.bare) ≡ length (codes_of text) }
        requires few { self.old.others < 2 ^ 63 }
        ensures taken { OnOk result ((ts : List Token) → HasTaken (codes_of text.entry) ts self.old
            → HasTaken (codes_of text.entry) (ts ++ token ∷ []) self.new) }
        ensures others { self.new.others ≤ self.old.others + 1 }
    {
        if !is_mark(token.kind) {
            self.others += 1;
            return Ok(());
        }
        blank(&mut self.taken.bare, token.start, token.end);
        self.taken.marks.push(Mark {
            start: token.start,
            number: number_of(text.slice(token.start + 1, token.end)),
            tokens_before: self.others,
        })?;
        Ok(())
    }
}

/// A text apart from its marks: the bare text, in which each mark is blanked by spaces, and the marks.
///
/// A mark is a token `!` with digits behind it. A `!` without digits isn't, nor is one in quotes. A character that begins
/// no token ends the tokens, and so do quotes that aren't closed: what is behind that stays as it is.
///
/// # Errors
/// There may be no memory for the bare text or the marks.
pub fn take_marks(alloc: Global, text: Text) -> Result<MarkedText, AllocError>
    ensures taken { IfOk result (λ taken. TakesMarks (codes_of text.entry) taken) }
    ensures unmarked { IfOk result (λ taken. taken.marks.items ≡ []
        → owned_codes taken.bare ≡ codes_of text.entry) }
{
    let mut taking = Taking::new(alloc, text)?;
    let mut at = 0;
    while at < text.len() {
        if text.at(at).is_whitespace() {
            at += 1;
            continue;
        }
        let token = token_at(text, at);
        taking.add(text, token)?;
        if let TokenKind::Bad = token.kind {
            return Ok(taking.taken);
        }
        at = token.end;
    }
    Ok(taking.taken)
}
