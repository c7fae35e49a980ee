//! How far a value is read.
ghost use Rattle.std.specs.Prelude.{◌≡◌, ◌++◌, ◌∷◌, [], OnOk, IfOk, MatchOption};
ghost use Rattle.ir_format_checks.specs.Tokens.{given};
ghost use Rattle.ir_format_checks.specs.Decided.{leaf_class};
ghost use Rattle.text_streams.specs.Positions.{left};
ghost use Rattle.value_texts.specs.Tokens.{TakesLexeme, IsNoNext};
ghost use Rattle.value_texts.specs.Only.{IsSyntax};
ghost use Rattle.value_texts.specs.Progress.{TakesWord};

use ir_print::LeafSort;
use std::alloc::{AllocError, AllocFailed, Global};
use stream_tokens::{Lexeme, next_token};
use text_streams::{Position, TextError};
use token_classes::{is_given, is_leaf};

/// Why a value isn't read.
#[derive(Clone, Copy)]
pub enum ReadFault<'a> {
    Memory,
    /// This is wrong, at this place.
    Text(TextError, Position<'a>),
}

impl From<AllocError> for ReadFault<'_> {
    ghost use Rattle.value_texts.specs.declared.progress.ReadFault.TheVariants.{Memory};

    ghost from_gives = { λ _ e. e ≡ Memory };

    fn from(_refused: AllocError) -> Self {
        ReadFault::Memory
    }
}

impl<T: Drop> From<AllocFailed<T>> for ReadFault<'_> {
    ghost use Rattle.value_texts.specs.declared.progress.ReadFault.TheVariants.{Memory};

    ghost from_gives = { λ _ e. e ≡ Memory };

    fn from(_refused: AllocFailed<T>) -> Self {
        ReadFault::Memory
    }
}

/// No text goes on with the token that comes next at a place.
pub(crate) fn syntax<'a>(at: Position<'a>) -> ReadFault<'a>
    ensures { IsSyntax result }
{
    ReadFault::Text(TextError::Syntax, at.skip_spaces())
}

/// What was read of a format's text.
#[derive(Drop)]
pub struct Progress<'a, P: Drop> {
    pub parts: Vec<P>,
    /// Where the parts begin that may be refused; of lists and choices what is in them.
    pub places: Vec<Position<'a>>,
    /// The place behind what was read.
    pub at: Position<'a>,
    /// Where the last token begins.
    pub last: Position<'a>,
}

impl<'a, P: Drop> Progress<'a, P> {
    /// Nothing is read, behind a token that begins here.
    pub fn new(alloc: Global, at: Position<'a>, last: Position<'a>) -> Self
        ensures parts { result.parts.items ≡ [] }
        ensures at { result.at ≡ at.entry }
    {
        Progress {
            parts: Vec::new(alloc),
            places: Vec::new(alloc),
            at,
            last,
        }
    }

    /// One more part, which begins at a place.
    pub fn put(&mut self, part: P, place: Position<'a>) -> Result<(), AllocError>
        ensures parts { OnOk result (self.new.parts.items ≡ self.old.parts.items ++ part ∷ []) }
        ensures at { self.new.at ≡ self.old.at }
    {
        self.places.push(place)?;
        self.parts.push(part)?;
        Ok(())
    }

    /// Goes behind what was read inside a part.
    pub fn follow(
        &mut self,
        places: &[Position<'a>],
        at: Position<'a>,
        last: Position<'a>,
    ) -> Result<(), AllocError>
        ensures parts { self.new.parts ≡ self.old.parts }
        ensures at { OnOk result (self.new.at ≡ at.entry) }
    {
        self.places.extend_from_slice(places)?;
        self.at = at;
        self.last = last;
        Ok(())
    }

    /// Takes a word, if it is the next token.
    pub fn take_word(&mut self, alloc: Global, word: &str) -> Result<bool, AllocError>
        ensures { IfOk result (TakesWord word.now self.old self.new) }
    {
        let Some(token) = next_token(alloc, self.at)? else {
            return Ok(false);
        };
        if !is_given(&token, word) {
            return Ok(false);
        }
        self.at = token.end;
        self.last = token.start;
        Ok(true)
    }
}

/// The next token at a place, if it is a leaf of this sort.
pub(crate) fn leaf_at<'a>(
    alloc: Global,
    at: Position<'a>,
    sort: LeafSort,
) -> Result<Option<Lexeme<'a>>, AllocError>
    ensures { IfOk result (λ found. MatchOption found (IsNoNext (leaf_class sort) (left at.entry)) (TakesLexeme (leaf_class sort) at.entry)) }
{
    let Some(token) = next_token(alloc, at)? else {
        return Ok(None);
    };
    if !is_leaf(&token, sort) {
        return Ok(None);
    }
    Ok(Some(token))
}
