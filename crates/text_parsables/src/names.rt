//! Names, and words.
ghost use Rattle.std.specs.Prelude.{◌≡◌, [], ◌++◌, OnOk, IfOk, encode_utf8_all};
ghost use Rattle.std.specs.List.{take_while};
ghost use Rattle.std.specs.String.{string_bytes};
ghost use Rattle.ir_names.specs.Text.{is_first_code, is_later_code};
ghost use Rattle.text_streams.specs.Positions.{left, LiesBehind};
ghost use Rattle.text_streams.specs.Quotes.{Answers};
ghost use Rattle.text_parsables.specs.Fronts.{Parses};
ghost use Rattle.text_parsables.specs.Names.{name_text, NameStands, TruthStands};

use crate::parsable::Parsable;
use ir_names::Identifier;
use std::alloc::{AllocError, Global};
use text_streams::{ParseResult, Position, StateStream, TextError};

/// Whether a name can begin with a character.
fn is_first(character: char) -> bool
    ensures { result ≡ is_first_code character }
{
    matches!(character, 'a'..='z' | 'A'..='Z' | '_')
}

/// Whether a name can have a character behind its first.
fn is_later(character: char) -> bool
    ensures { result ≡ is_later_code character }
{
    is_first(character) || matches!(character, '0'..='9')
}

/// Adds the characters at a place that a name can have to a text, and answers the place behind them.
fn push_later<'a>(text: &mut String, position: Position<'a>) -> Result<Position<'a>, AllocError>
    ensures text { OnOk result (string_bytes text.new ≡ string_bytes text.old ++ encode_utf8_all (take_while is_later_code (left position.entry))) }
    ensures behind { IfOk result (λ to. LiesBehind position.entry to (take_while is_later_code (left position.entry))) }
{
    let mut position = position;
    while let Some((character, next)) = position.next() {
        if !is_later(character) {
            break;
        }
        text.push(character)?;
        position = next;
    }
    Ok(position)
}

/// The text of the name at a place, and the place behind it; none where there is no name.
fn name_text<'a>(
    alloc: Global,
    position: Position<'a>,
) -> Result<Option<(String, Position<'a>)>, AllocError>
    ensures { IfOk result (λ answer. Answers (name_text (left position.entry)) [] position.entry answer) }
{
    match position.next() {
        Some((first, next)) if is_first(first) => {
            let mut text = String::new(alloc);
            text.push(first)?;
            let end = push_later(&mut text, next)?;
            Ok(Some((text, end)))
        }
        _ => Ok(None),
    }
}

impl<S> Parsable<S> for Identifier {
    type Arg = ();

    type Parsed = Identifier;

    ghost stands = { λ _ text old front new. NameStands text old front new };

    /// The name that is there, with as many characters as it can have.
    fn parse(alloc: Global, stream: &mut StateStream<'_, S>, _arg: ()) -> ParseResult<Identifier> {
        match name_text(alloc, stream.position) {
            Ok(Some((text, end))) => match Identifier::try_from_string(text) {
                Ok(name) => {
                    stream.position = end;
                    Ok(name)
                }
                Err(_) => unreachable!(),
            },
            Ok(None) => Err(stream.fault(TextError::Syntax)),
            Err(_) => Err(stream.fault(TextError::Memory)),
        }
    }
}

impl<S> Parsable<S> for bool {
    type Arg = ();

    type Parsed = bool;

    ghost stands = { λ _ text old front new. TruthStands text old front new };

    /// The word `true` or `false`, which no longer name begins with.
    fn parse(alloc: Global, stream: &mut StateStream<'_, S>, _arg: ()) -> ParseResult<bool> {
        let start = stream.position;
        let word = Identifier::parse(alloc, stream, ())?;
        match word.as_str() {
            "true" => Ok(true),
            "false" => Ok(false),
            _ => {
                stream.position = start;
                Err(stream.fault(TextError::Syntax))
            }
        }
    }
}
