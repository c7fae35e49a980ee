//! What begins at a place.
ghost use Rattle.std.specs.Prelude.{◌≡◌, ◌+◌, [], OnOk, IfOk, MatchBool, true, length, slice_index};
ghost use Rattle.ir_tokens.specs.Tokens.{is_letter, is_digit, is_name_char, is_sign, IsInMemory};
ghost use Rattle.text_streams.specs.Positions.{left};
ghost use Rattle.stream_tokens.specs.Lexemes.{Stands, TookOne, IsFront, Ran, Closed};

use ir_tokens::TokenKind;
use std::alloc::{AllocError, Global};
use text_streams::Position;

fn is_letter(c: char) -> bool
    ensures { result ≡ is_letter c }
{
    ('a' <= c && c <= 'z') || ('A' <= c && c <= 'Z') || c == '_'
}

fn is_digit(c: char) -> bool
    ensures { result ≡ is_digit c }
{
    '0' <= c && c <= '9'
}

fn is_name_char(c: char) -> bool
    ensures { result ≡ is_name_char c }
{
    is_letter(c) || is_digit(c)
}

/// One of `{ } ( ) [ ] < > , ; : = @ ^ ?`.
fn is_sign(c: char) -> bool
    ensures { result ≡ is_sign c }
{
    match c {
        '{' | '}' | '(' | ')' | '[' | ']' | '<' | '>' | ',' | ';' | ':' | '=' | '@' | '^' | '?' => {
            true
        }
        _ => false,
    }
}

/// A token that is being read.
#[derive(Drop)]
pub struct Scan<'a> {
    /// Where it begins.
    pub start: Position<'a>,
    /// The characters that were taken.
    pub text: Vec<char>,
    /// The place behind these.
    pub position: Position<'a>,
}

const IN_MEMORY: [char; 11] = ['<', 'i', 'n', '-', 'm', 'e', 'm', 'o', 'r', 'y', '>'];

impl<'a> Scan<'a> {
    /// Nothing is taken yet.
    pub fn new(alloc: Global, start: Position<'a>) -> Scan<'a>
        ensures start { result.start ≡ start.entry }
        ensures empty { result.text.items ≡ [] }
        ensures stands { Stands result }
    {
        Scan {
            start,
            text: Vec::new(alloc),
            position: start,
        }
    }

    /// The next character, or `'\0'` at the end.
    fn next(&self) -> char
        requires { Stands self.now }
        ensures { result ≡ slice_index (left self.now.start) (length self.now.text.items) }
    {
        match self.position.next() {
            Some((c, _)) => c,
            None => '\0',
        }
    }

    /// The character behind the next one, or `'\0'` past the end.
    fn second(&self) -> char
        requires { Stands self.now }
        ensures { result ≡ slice_index (left self.now.start) (length self.now.text.items + 1) }
    {
        match self.position.next() {
            Some((_, behind)) => match behind.next() {
                Some((c, _)) => c,
                None => '\0',
            },
            None => '\0',
        }
    }

    /// Takes the next character, if there is one.
    fn take(&mut self) -> Result<bool, AllocError>
        requires { Stands self.old }
        ensures start { self.new.start ≡ self.old.start }
        ensures stands { OnOk result (Stands self.new) }
        ensures taken { IfOk result (TookOne self.old self.new) }
    {
        let Some((c, next)) = self.position.next() else {
            return Ok(false);
        };
        self.text.push(c)?;
        self.position = next;
        Ok(true)
    }

    /// Takes letters, digits and `_`.
    fn take_name(&mut self) -> Result<(), AllocError>
        requires { Stands self.old }
        ensures { OnOk result (Ran is_name_char self.old self.new) }
    {
        while is_name_char(self.next()) {
            if !self.take()? {
                break;
            }
        }
        Ok(())
    }

    /// Takes digits.
    fn take_digits(&mut self) -> Result<(), AllocError>
        requires { Stands self.old }
        ensures { OnOk result (Ran is_digit self.old self.new) }
    {
        while is_digit(self.next()) {
            if !self.take()? {
                break;
            }
        }
        Ok(())
    }

    /// A name, or a dotted one.
    fn word(&mut self) -> Result<TokenKind, AllocError>
        requires stands { Stands self.old }
        requires empty { self.old.text.items ≡ [] }
        requires letter { is_letter (slice_index (left self.old.start) 0) ≡ true }
        ensures { IfOk result (IsFront self.old self.new) }
    {
        self.take_name()?;
        if self.next() != '.' || !is_letter(self.second()) {
            return Ok(TokenKind::Name);
        }
        self.take()?;
        self.take_name()?;
        Ok(TokenKind::Dotted)
    }

    /// Digits.
    fn number(&mut self) -> Result<TokenKind, AllocError>
        requires stands { Stands self.old }
        requires empty { self.old.text.items ≡ [] }
        requires digit { is_digit (slice_index (left self.old.start) 0) ≡ true }
        ensures { IfOk result (IsFront self.old self.new) }
    {
        self.take_digits()?;
        Ok(TokenKind::Digits)
    }

    /// A negative number, an arrow, or a `-` that begins no token.
    fn minus(&mut self) -> Result<TokenKind, AllocError>
        requires stands { Stands self.old }
        requires empty { self.old.text.items ≡ [] }
        requires minus { slice_index (left self.old.start) 0 ≡ 45 }
        ensures { IfOk result (IsFront self.old self.new) }
    {
        let second = self.second();
        if is_digit(second) {
            self.take()?;
            self.take_digits()?;
            return Ok(TokenKind::Negative);
        }
        if second == '>' {
            self.take()?;
            self.take()?;
            return Ok(TokenKind::Arrow);
        }
        Ok(TokenKind::Bad)
    }

    /// A mark, or a `!` that begins no token.
    fn mark(&mut self) -> Result<TokenKind, AllocError>
        requires stands { Stands self.old }
        requires empty { self.old.text.items ≡ [] }
        requires mark { slice_index (left self.old.start) 0 ≡ 33 }
        ensures { IfOk result (IsFront self.old self.new) }
    {
        if !is_digit(self.second()) {
            return Ok(TokenKind::Bad);
        }
        self.take()?;
        self.take_digits()?;
        Ok(TokenKind::Mark)
    }

    /// Takes what stands up to the closing `"`, and that; answers whether there is one.
    fn take_closed(&mut self) -> Result<bool, AllocError>
        requires { Stands self.old }
        ensures { IfOk result (Closed self.old self.new) }
    {
        loop {
            let c = self.next();
            if !self.take()? {
                return Ok(false);
            }
            if c == '"' {
                return Ok(true);
            }
            if c == '\\' && !self.take()? {
                return Ok(false);
            }
        }
    }

    /// A text in quotes, or a `"` without a closing one.
    fn quotation(&mut self) -> Result<TokenKind, AllocError>
        requires stands { Stands self.old }
        requires empty { self.old.text.items ≡ [] }
        requires quote { slice_index (left self.old.start) 0 ≡ 34 }
        ensures { IfOk result (IsFront self.old self.new) }
    {
        self.take()?;
        if self.take_closed()? {
            return Ok(TokenKind::Text);
        }
        self.text.clear();
        self.position = self.start;
        Ok(TokenKind::Bad)
    }

    /// Whether `<in-memory>` begins here.
    fn is_in_memory(&self) -> bool
        ensures { MatchBool result (IsInMemory (left self.now.start) 0) (IsInMemory (left self.now.start) 0 → ⊥) }
    {
        let mut position = self.start;
        for wanted in &IN_MEMORY {
            let Some((c, next)) = position.next() else {
                return false;
            };
            if c != *wanted {
                return false;
            }
            position = next;
        }
        true
    }

    /// A sign or `<in-memory>`.
    fn sign(&mut self, sign: char) -> Result<TokenKind, AllocError>
        requires stands { Stands self.old }
        requires empty { self.old.text.items ≡ [] }
        requires first { slice_index (left self.old.start) 0 ≡ sign }
        requires sign { is_sign sign ≡ true }
        ensures { IfOk result (IsFront self.old self.new) }
    {
        if !self.is_in_memory() {
            self.take()?;
            return Ok(TokenKind::Sign(sign));
        }
        while self.text.len() < IN_MEMORY.len() {
            if !self.take()? {
                break;
            }
        }
        Ok(TokenKind::InMemory)
    }

    /// The longest token that begins with this character.
    pub fn token(&mut self, first: char) -> Result<TokenKind, AllocError>
        requires stands { Stands self.old }
        requires empty { self.old.text.items ≡ [] }
        requires first { slice_index (left self.old.start) 0 ≡ first }
        ensures { IfOk result (IsFront self.old self.new) }
    {
        if is_letter(first) {
            return self.word();
        }
        if is_digit(first) {
            return self.number();
        }
        if is_sign(first) {
            return self.sign(first);
        }
        if first == '-' {
            return self.minus();
        }
        if first == '!' {
            return self.mark();
        }
        if first == '"' {
            return self.quotation();
        }
        Ok(TokenKind::Bad)
    }
}
