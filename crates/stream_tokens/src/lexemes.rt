//! The next token.
ghost use Rattle.std.specs.Prelude.{◌≡◌, IfOk, MatchOption};
ghost use Rattle.std.specs.Char.{is_whitespace};
ghost use Rattle.std.specs.List.{take_while};
ghost use Rattle.text_streams.specs.Positions.{left, LiesBehind};
ghost use Rattle.stream_tokens.specs.Lexemes.{IsNextToken, IsLexeme};

use crate::scan::Scan;
use ir_tokens::TokenKind;
use std::alloc::{AllocError, Global};
use text_streams::Position;

/// A token, with its characters.
#[derive(Drop)]
pub struct Lexeme<'a> {
    /// A bad one has no characters.
    pub kind: TokenKind,
    pub text: Vec<char>,
    /// Where it begins.
    pub start: Position<'a>,
    /// The place behind it.
    pub end: Position<'a>,
}

/// The next token at a place, behind white space; none where nothing but white space is left.
///
/// It is the longest token that begins there, or a bad one where none does. What follows it is looked at by two characters
/// at most, but behind a `<` and a `"`.
///
/// # Errors
/// Memory is refused.
pub fn next_token<'a>(
    alloc: Global,
    position: Position<'a>,
) -> Result<Option<Lexeme<'a>>, AllocError>
    ensures { IfOk result (λ next. MatchOption next
        (left position.entry ≡ take_while is_whitespace (left position.entry))
        (λ token. IsLexeme position.entry token)) }
{
    let start = position.skip_spaces();
    let Some((first, _)) = start.next() else {
        return Ok(None);
    };
    let mut scan = Scan::new(alloc, start);
    let kind = scan.token(first)?;
    let Scan { text, position, .. } = scan;
    Ok(Some(Lexeme {
        kind,
        text,
        start,
        end: position,
    }))
}
