//! Attributes.
ghost use Rattle.std.specs.Prelude.{IfOk};
ghost use Rattle.outline_values.specs.Places.{GoesTo};

use crate::faults::{ReadFault, syntax};
use crate::integers::{read_integer, read_sizes};
use crate::names::{read_key, read_name, read_truth, skip_names};
use crate::signs::{behind_sign, expect};
use crate::texts::skip_text;
use crate::tokens::token_at;
use crate::types::read_type;
use ir_names::Identifier;
use std::alloc::Global;
use std::collections::BTreeSet;
use stream_tokens::Lexeme;
use text_streams::{Position, TextError};
use token_classes::is_spelled;

/// What stands behind the id of an attribute.
#[derive(Clone, Copy)]
enum AttributeKind {
    Integer,
    Name,
    Text,
    Truth,
    Unit,
    Type,
    List,
    Dictionary,
    Sizes,
    GivenNames,
}

/// The ids of attributes.
const KINDS: [(&str, AttributeKind); 12] = [
    ("builtin.integer", AttributeKind::Integer),
    ("builtin.identifier", AttributeKind::Name),
    ("builtin.string", AttributeKind::Text),
    ("builtin.bool", AttributeKind::Truth),
    ("builtin.unit", AttributeKind::Unit),
    ("builtin.type", AttributeKind::Type),
    ("builtin.vec", AttributeKind::List),
    ("builtin.dict", AttributeKind::Dictionary),
    ("builtin.operand_segment_sizes", AttributeKind::Sizes),
    ("builtin.given_names", AttributeKind::GivenNames),
    ("kit.note", AttributeKind::Text),
    ("kit.origin", AttributeKind::Text),
];

/// The kind that a token is the id of.
fn kind_of(token: &Lexeme<'_>) -> Option<AttributeKind> {
    for (id, kind) in &KINDS {
        if is_spelled(token, *id) {
            return Some(*kind);
        }
    }
    None
}

/// A kind, with the place of its id.
#[derive(Clone, Copy)]
struct AttributeId<'a> {
    kind: AttributeKind,
    start: Position<'a>,
    end: Position<'a>,
}

/// The kind of the attribute that begins here.
fn kind_at<'a>(alloc: Global, at: Position<'a>) -> Result<AttributeId<'a>, ReadFault<'a>>
    ensures { IfOk result (λ id. GoesTo at.entry id.end) }
{
    let token = token_at(alloc, at)?;
    match kind_of(&token) {
        Some(kind) => Ok(AttributeId {
            kind,
            start: token.start,
            end: token.end,
        }),
        None => Err(syntax(at)),
    }
}

/// Reads an attribute, where `left` types and attributes may stand in one another from here on.
#[cycle(attributes)]
pub fn read_attribute<'a>(
    alloc: Global,
    at: Position<'a>,
    left: u32,
) -> Result<Position<'a>, ReadFault<'a>>
    ensures { IfOk result (GoesTo at.entry) }
{
    let id = kind_at(alloc, at)?;
    if left == 0 {
        return Err(ReadFault::Text(TextError::TooDeep, id.start));
    }
    read_content(alloc, id.end, id.kind, left - 1)
}

/// Reads what stands behind the id of an attribute.
#[cycle(attributes)]
fn read_content<'a>(
    alloc: Global,
    at: Position<'a>,
    kind: AttributeKind,
    left: u32,
) -> Result<Position<'a>, ReadFault<'a>>
    ensures { IfOk result (GoesTo at.entry) }
{
    match kind {
        AttributeKind::Integer => read_integer(alloc, at),
        AttributeKind::Name => read_name(alloc, at),
        AttributeKind::Text => skip_text(alloc, at),
        AttributeKind::Truth => read_truth(alloc, at),
        AttributeKind::Unit => Ok(at),
        AttributeKind::Type => read_type(alloc, at, left),
        AttributeKind::List => read_list(alloc, at, left),
        AttributeKind::Dictionary => read_dictionary(alloc, at, left),
        AttributeKind::Sizes => read_sizes(alloc, at),
        AttributeKind::GivenNames => skip_names(alloc, at),
    }
}

/// Reads attributes in brackets.
#[cycle(attributes)]
fn read_list<'a>(alloc: Global, at: Position<'a>, left: u32) -> Result<Position<'a>, ReadFault<'a>>
    ensures { IfOk result (GoesTo at.entry) }
{
    let start = expect(at, '[')?;
    if let Some(end) = behind_sign(start, ']') {
        return Ok(end);
    }
    let mut end = read_attribute(alloc, start, left)?;
    while let Some(next) = behind_sign(end, ',') {
        end = read_attribute(alloc, next, left)?;
    }
    expect(end, ']')
}

/// Reads attributes under keys, in braces.
#[cycle(attributes)]
fn read_dictionary<'a>(
    alloc: Global,
    at: Position<'a>,
    left: u32,
) -> Result<Position<'a>, ReadFault<'a>>
    ensures { IfOk result (GoesTo at.entry) }
{
    let start = expect(at, '{')?;
    if let Some(end) = behind_sign(start, '}') {
        return Ok(end);
    }
    let mut keys = BTreeSet::new(alloc);
    let mut end = read_member(alloc, start, &mut keys, left)?;
    while let Some(next) = behind_sign(end, ',') {
        end = read_member(alloc, next, &mut keys, left)?;
    }
    expect(end, '}')
}

/// Reads a key that isn't among those so far, `=` and an attribute.
#[cycle(attributes)]
fn read_member<'a>(
    alloc: Global,
    at: Position<'a>,
    keys: &mut BTreeSet<Identifier>,
    left: u32,
) -> Result<Position<'a>, ReadFault<'a>>
    ensures { IfOk result (GoesTo at.entry) }
{
    let equals = read_key(alloc, at, keys)?;
    let value = expect(equals, '=')?;
    read_attribute(alloc, value, left)
}
