//! Tokens of a sort.
ghost use Rattle.std.specs.Prelude.{IfOk};
ghost use Rattle.stream_tokens.specs.Lexemes.{IsLexeme};
ghost use Rattle.outline_values.specs.Places.{GoesTo};

use crate::faults::{ReadFault, syntax};
use ir_print::LeafSort;
use std::alloc::Global;
use stream_tokens::{Lexeme, next_token};
use text_streams::Position;
use token_classes::is_leaf;

/// The next token at a place. Where nothing but white space is left, that is a syntax fault behind it.
pub fn token_at<'a>(alloc: Global, at: Position<'a>) -> Result<Lexeme<'a>, ReadFault<'a>>
    ensures token { IfOk result (IsLexeme at.entry) }
    ensures goes { IfOk result (λ token. GoesTo at.entry token.end) }
{
    match next_token(alloc, at)? {
        Some(token) => Ok(token),
        None => Err(syntax(at)),
    }
}

/// The next token at a place, of a sort. Where another one is there, that is a syntax fault at it.
pub fn leaf_at<'a>(
    alloc: Global,
    at: Position<'a>,
    sort: LeafSort,
) -> Result<Lexeme<'a>, ReadFault<'a>>
    ensures token { IfOk result (IsLexeme at.entry) }
    ensures goes { IfOk result (λ token. GoesTo at.entry token.end) }
{
    let token = token_at(alloc, at)?;
    if is_leaf(&token, sort) {
        Ok(token)
    } else {
        Err(syntax(at))
    }
}
