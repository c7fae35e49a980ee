//! The tokens of locations.
ghost use Rattle.std.specs.Prelude.{◌≡◌, Bool, true, false, codes, chars, Some, None, MatchOption, MatchResult};
ghost use Rattle.text_streams.specs.Positions.{left, LiesBehind};
ghost use Rattle.text_streams.specs.declared.faults.TextError.TheVariants.{Syntax};
ghost use Rattle.text_locations.specs.Tokens.{token_text, is_name_character, begins_name, name_goes_on, goes_on, behind_text, has_token, ReadsTokenHere, ReadsToken, IsWithout, MissesToken, ReadsQuotedHere, RefusesQuotedHere};
ghost use Rattle.text_locations.specs.Faults.{IsFaultAt};

use std::alloc::Global;
use text_streams::{
    ParseFault, ParseResult, Position, StateStream, TextError, quoted_string_parse,
};

/// A token that is always written alike.
#[derive(Clone, Copy)]
pub enum Token {
    Unknown,
    InMemory,
    Colon,
    Comma,
    Opens,
    Closes,
    Less,
    Greater,
    Line,
    Column,
    Fused,
    Named,
    CallSite,
}

impl Token {
    /// How it is written.
    fn text(self) -> &'static str
        ensures { result.now ≡ token_text self }
    {
        match self {
            Token::Unknown => "?",
            Token::InMemory => "<in-memory>",
            Token::Colon => ":",
            Token::Comma => ",",
            Token::Opens => "[",
            Token::Closes => "]",
            Token::Less => "<",
            Token::Greater => ">",
            Token::Line => "line",
            Token::Column => "column",
            Token::Fused => "fused",
            Token::Named => "named",
            Token::CallSite => "callsite",
        }
    }

    /// Whether a longer token is where its text is, by the text behind that: a longer name, or a `<` with which `<in-memory>` begins.
    fn goes_on(self, behind: Position<'_>) -> bool
        ensures { result ≡ goes_on self (left behind.entry) }
    {
        match self {
            Token::Less => behind_text(behind, "in-memory>").is_some(),
            Token::Line | Token::Column | Token::Fused | Token::Named | Token::CallSite => {
                name_goes_on(behind)
            }
            _ => false,
        }
    }
}

/// A fault at a place, before which nothing was read.
pub fn fault_at(position: Position<'_>, cause: TextError) -> ParseFault
    ensures { IsFaultAt position.entry cause result }
{
    ParseFault {
        line: position.line(),
        column: position.column(),
        cause,
        consumed: false,
    }
}

/// The place behind a text, where it is there.
fn behind_text<'a>(position: Position<'a>, text: &str) -> Option<Position<'a>>
    ensures { MatchOption result (behind_text (chars text.now) (left position.entry) ≡ None) (λ to. LiesBehind position.entry to (chars text.now)) }
{
    let mut position = position;
    let mut token = Position::start(text);
    while let Some((expected, token_behind)) = token.next() {
        let (character, behind) = position.next()?;
        if character != expected {
            return None;
        }
        token = token_behind;
        position = behind;
    }
    Some(position)
}

/// Whether a character may stand in a name.
fn is_name_character(character: char) -> bool
    ensures { result ≡ is_name_character character }
{
    character.is_ascii_alphanumeric() || character == '_'
}

/// Whether a name begins at a place.
fn begins_name(position: Position<'_>) -> bool
    ensures { result ≡ begins_name (left position.entry) }
{
    match position.next() {
        Some((character, _)) => character.is_ascii_alphabetic() || character == '_',
        None => false,
    }
}

/// Whether a name, or two with a `.` between them, goes on at a place behind characters of a name.
fn name_goes_on(position: Position<'_>) -> bool
    ensures { result ≡ name_goes_on (left position.entry) }
{
    match position.next() {
        Some((character, behind)) => {
            if character == '.' {
                begins_name(behind)
            } else {
                is_name_character(character)
            }
        }
        None => false,
    }
}

/// The place behind a token, where it is there.
fn behind_token<'a>(position: Position<'a>, token: Token) -> Option<Position<'a>>
    ensures { MatchOption result (has_token token (left position.entry) ≡ false)
        (λ to. LiesBehind position.entry to (token_text token) × (has_token token (left position.entry) ≡ true)) }
{
    let behind = behind_text(position, token.text())?;
    if token.goes_on(behind) {
        return None;
    }
    Some(behind)
}

/// Goes behind a token, where it is there; and whether it is.
pub fn take_token<S>(stream: &mut StateStream<'_, S>, token: Token) -> bool
    ensures there { result ≡ true → ReadsTokenHere token stream.old stream.new }
    ensures without { result ≡ false → (stream.new ≡ stream.old) × (has_token token (left stream.old.position) ≡ false) }
{
    match behind_token(stream.position, token) {
        Some(behind) => {
            stream.position = behind;
            true
        }
        None => false,
    }
}

/// Goes behind white space and a token, where it is behind the white space; and whether it is.
pub fn take_next<S>(stream: &mut StateStream<'_, S>, token: Token) -> bool
    ensures there { result ≡ true → ReadsToken token stream.old stream.new }
    ensures without { result ≡ false → (stream.new ≡ stream.old) × IsWithout token stream.old }
{
    match behind_token(stream.position.skip_spaces(), token) {
        Some(behind) => {
            stream.position = behind;
            true
        }
        None => false,
    }
}

/// Goes behind white space and a token. Where another one is there, that is a syntax fault at it.
pub fn expect<S>(stream: &mut StateStream<'_, S>, token: Token) -> ParseResult<()>
    ensures { MatchResult result (λ _. ReadsToken token stream.old stream.new) (MissesToken token stream.old) }
{
    if take_next(stream, token) {
        return Ok(());
    }
    Err(fault_at(stream.position.skip_spaces(), TextError::Syntax))
}

/// What a text in quotes says. Where none is there, that is a syntax fault there.
pub fn take_quoted<S>(alloc: Global, stream: &mut StateStream<'_, S>) -> ParseResult<String>
    ensures { MatchResult result (λ name. ReadsQuotedHere stream.old name stream.new) (RefusesQuotedHere stream.old) }
{
    quoted_string_parse(alloc, stream)
}
