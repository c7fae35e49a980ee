//! Attributes of a stream.
ghost use Rattle.std.specs.Prelude.{◌≡◌, IfOk, OnErr};
ghost use Rattle.stream_tokens.specs.Lexemes.{IsLexeme};
ghost use Rattle.outline_values.specs.Values.{names_id, note_id, origin_id, SaysValue, ReadsValue};

use crate::attributes::read_attribute;
use crate::faults::ReadFault;
use crate::names::read_names;
use crate::texts::{Said, read_text};
use crate::tokens::token_at;
use ir_names::Identifier;
use std::alloc::Global;
use stream_tokens::Lexeme;
use text_streams::{ParseFault, ParseResult, Position, StateStream, TextError};
use token_classes::is_spelled;

/// An attribute that stands in a section: what items of `kit` may have, or any other.
#[derive(Drop)]
pub enum OutlinedValue {
    /// `builtin.given_names`: a name for each value, or none.
    Names(Vec<Option<Identifier>>),
    /// `kit.note`: the characters of its text.
    Note(String),
    /// `kit.origin`: the characters of its text.
    Origin(String),
    /// An attribute of another kind, which no item of `kit` has.
    Other,
}

/// Types and attributes stand in one another at most so deep.
const DEEPEST: u32 = 64;

/// An attribute that was read.
#[derive(Drop)]
struct Read<'a> {
    value: OutlinedValue,
    /// The place behind it.
    end: Position<'a>,
}

/// Names, behind the id of their kind.
fn read_given_names<'a>(
    alloc: Global,
    at: Position<'a>,
    id: &Lexeme<'a>,
) -> Result<Read<'a>, ReadFault<'a>>
    requires next { IsLexeme at id.now }
    requires is_id { id.now.text.items ≡ names_id }
    ensures { IfOk result (λ read. SaysValue at.entry read.value read.end) }
{
    let mut names = Vec::new(alloc);
    let end = read_names(alloc, id.end, &mut names)?;
    Ok(Read {
        value: OutlinedValue::Names(names),
        end,
    })
}

/// A note, behind the id of its kind.
fn read_note<'a>(
    alloc: Global,
    at: Position<'a>,
    id: &Lexeme<'a>,
) -> Result<Read<'a>, ReadFault<'a>>
    requires next { IsLexeme at id.now }
    requires is_id { id.now.text.items ≡ note_id }
    ensures { IfOk result (λ read. SaysValue at.entry read.value read.end) }
{
    let Said { text, end } = read_text(alloc, id.end)?;
    Ok(Read {
        value: OutlinedValue::Note(text),
        end,
    })
}

/// An origin, behind the id of its kind.
fn read_origin<'a>(
    alloc: Global,
    at: Position<'a>,
    id: &Lexeme<'a>,
) -> Result<Read<'a>, ReadFault<'a>>
    requires next { IsLexeme at id.now }
    requires is_id { id.now.text.items ≡ origin_id }
    ensures { IfOk result (λ read. SaysValue at.entry read.value read.end) }
{
    let Said { text, end } = read_text(alloc, id.end)?;
    Ok(Read {
        value: OutlinedValue::Origin(text),
        end,
    })
}

/// Reads an attribute whose id is the next token.
fn read_value<'a>(
    alloc: Global,
    at: Position<'a>,
    id: &Lexeme<'a>,
) -> Result<Read<'a>, ReadFault<'a>>
    requires { IsLexeme at id.now }
    ensures { IfOk result (λ read. SaysValue at.entry read.value read.end) }
{
    if is_spelled(id, "builtin.given_names") {
        return read_given_names(alloc, at, id);
    }
    if is_spelled(id, "kit.note") {
        return read_note(alloc, at, id);
    }
    if is_spelled(id, "kit.origin") {
        return read_origin(alloc, at, id);
    }
    let end = read_attribute(alloc, at, DEEPEST)?;
    Ok(Read {
        value: OutlinedValue::Other,
        end,
    })
}

/// Reads an attribute.
fn read_at<'a>(alloc: Global, at: Position<'a>) -> Result<Read<'a>, ReadFault<'a>>
    ensures { IfOk result (λ read. SaysValue at.entry read.value read.end) }
{
    let id = token_at(alloc, at)?;
    read_value(alloc, at, &id)
}

/// The fault at a place, where reading began at another one.
fn fault_at(cause: TextError, start: Position<'_>, at: Position<'_>) -> ParseFault {
    ParseFault {
        line: at.line(),
        column: at.column(),
        cause,
        consumed: at.bytes_left() != start.bytes_left(),
    }
}

/// Reads an attribute from where a stream is (white space may stand before it), and leaves the stream right behind it.
///
/// At most 64 types and attributes stand in one another.
///
/// # Errors
/// `Syntax` at the first token that can't stand where it is, or at a number, a width or a text that is out of range or faulty;
/// `TooDeep` at the first token of the 65th type or attribute in one another; `AttributeRedefined` at the second key of one name
/// in a `builtin.dict`; `Memory` where the stream is. The stream is where it was then.
pub fn outlined_value<S>(
    alloc: Global,
    stream: &mut StateStream<'_, S>,
) -> ParseResult<OutlinedValue>
    ensures read { IfOk result (λ value. ReadsValue stream.old value stream.new) }
    ensures stays { OnErr result (stream.new ≡ stream.old) }
{
    let start = stream.position;
    match read_at(alloc, start) {
        Ok(read) => {
            let Read { value, end } = read;
            stream.position = end;
            Ok(value)
        }
        Err(ReadFault::Memory) => Err(stream.fault(TextError::Memory)),
        Err(ReadFault::Text(cause, at)) => Err(fault_at(cause, start, at)),
    }
}
