//! What the next token decides.
ghost use Rattle.std.specs.Prelude.{◌≡◌, IfOk};
ghost use Rattle.ir_print.specs.Formats.{steps_of, choices_of};
ghost use Rattle.ir_format_checks.specs.Decided.{all_begin};
ghost use Rattle.text_streams.specs.Positions.{left};
ghost use Rattle.value_texts.specs.Following.{is_next_of, Begins, IsBeginning, IsEmptyOne, IsChoice, Chooses};

use ir_print::Directive;
use std::alloc::{AllocError, Global};
use stream_tokens::{Lexeme, next_token};
use text_streams::Position;
use token_classes::{all_begin, all_may_be_empty};

/// Whether a text of the format may begin with the token, if there is one.
fn begins_with(token: &Option<Lexeme<'_>>, format: &[Directive]) -> bool
    ensures { result ≡ all_begin (is_next_of token.now) (steps_of format.now) }
{
    match token {
        Some(token) => all_begin(token, format),
        None => false,
    }
}

/// The number of the first format that may begin with the token.
fn first_beginning(
    token: &Option<Lexeme<'_>>,
    alternatives: &[&'static [Directive]],
) -> Option<usize>
    ensures { IsBeginning (is_next_of token.now) (choices_of alternatives.now) result }
{
    for (number, format) in alternatives.iter().enumerate() {
        if begins_with(token, *format) {
            return Some(number);
        }
    }
    None
}

/// The number of the first format that may be empty.
fn first_empty(alternatives: &[&'static [Directive]]) -> Option<usize>
    ensures { IsEmptyOne (choices_of alternatives.now) result }
{
    for (number, format) in alternatives.iter().enumerate() {
        if all_may_be_empty(*format) {
            return Some(number);
        }
    }
    None
}

/// The number of the format, of several, that the token decides for: one that begins with it, or else one that may be
/// empty.
fn chosen(token: &Option<Lexeme<'_>>, alternatives: &[&'static [Directive]]) -> Option<usize>
    ensures { IsChoice (is_next_of token.now) (choices_of alternatives.now) result }
{
    let Some(number) = first_beginning(token, alternatives) else {
        return first_empty(alternatives);
    };
    Some(number)
}

/// Whether a text of the format may begin with the next token.
pub(crate) fn begins_at(
    alloc: Global,
    at: Position<'_>,
    format: &[Directive],
) -> Result<bool, AllocError>
    ensures { IfOk result (Begins (left at.entry) (steps_of format.now)) }
{
    let token = next_token(alloc, at)?;
    Ok(begins_with(&token, format))
}

/// The number of the format, of several, that the next token decides for.
pub(crate) fn chosen_at(
    alloc: Global,
    at: Position<'_>,
    alternatives: &[&'static [Directive]],
) -> Result<Option<usize>, AllocError>
    ensures { IfOk result (Chooses (left at.entry) (choices_of alternatives.now)) }
{
    let token = next_token(alloc, at)?;
    Ok(chosen(&token, alternatives))
}
