//! Names.
ghost use Rattle.std.specs.Prelude.{◌≡◌, MatchBool, MatchResult};
ghost use Rattle.ir_names.specs.Identifier.{text_of};
ghost use Rattle.ir_names.specs.Text.{is_first_code};
ghost use Rattle.text_streams.specs.Positions.{left};
ghost use Rattle.text_outlines.specs.Names.{begins_name, is_dotted, ReadsName, RefusesName, section_word, ReadsWord, RefusesWord};

use crate::signs::fault_at;
use ir_names::Identifier;
use std::alloc::Global;
use text_parsables::Parsable;
use text_streams::{ParseResult, Position, StateStream, TextError};

/// Whether a name begins at a place.
fn begins_name(position: Position<'_>) -> bool
    ensures { result ≡ begins_name (left position.entry) }
{
    match position.next() {
        Some((character, _)) => matches!(character, 'a'..='z' | 'A'..='Z' | '_'),
        None => false,
    }
}

/// Whether a `.` and a name are at a place, which make a name before them a dotted one.
fn is_dotted(position: Position<'_>) -> bool
    ensures { result ≡ is_dotted (left position.entry) }
{
    match position.next() {
        Some((character, behind)) if character == '.' => begins_name(behind),
        _ => false,
    }
}

/// Reads the name that is there. Where none is, or a dotted one, that is a syntax fault there.
pub fn read_name<S>(alloc: Global, stream: &mut StateStream<'_, S>) -> ParseResult<Identifier>
    ensures { MatchResult result (λ name. ReadsName stream.old name stream.new) (RefusesName stream.old) }
{
    let start = stream.position;
    let name = Identifier::parse(alloc, stream, ())?;
    if is_dotted(stream.position) {
        return Err(fault_at(start, TextError::Syntax));
    }
    Ok(name)
}

/// Whether a name is the word that the section begins with.
fn is_section_word(name: &Identifier) -> bool
    ensures { MatchBool result (text_of name.now ≡ section_word) (text_of name.now ≡ section_word → ⊥) }
{
    match name.as_str() {
        "outlined_attributes" => true,
        _ => false,
    }
}

/// Reads the word that the section begins with. Where another token is there, that is a syntax fault there.
pub fn read_word<S>(alloc: Global, stream: &mut StateStream<'_, S>) -> ParseResult<()>
    ensures { MatchResult result (λ _. ReadsWord stream.old stream.new) (RefusesWord stream.old) }
{
    let start = stream.position;
    let name = read_name(alloc, stream)?;
    if is_section_word(&name) {
        Ok(())
    } else {
        Err(fault_at(start, TextError::Syntax))
    }
}
