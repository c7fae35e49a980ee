//! Types.
ghost use Rattle.std.specs.Prelude.{IfOk};
ghost use Rattle.outline_values.specs.Places.{GoesTo};

use crate::faults::{ReadFault, syntax, syntax_at};
use crate::integers::{is_below_2_32, number_at};
use crate::signs::{behind_sign, expect, expect_arrow};
use crate::tokens::token_at;
use ir_print::LeafSort;
use std::alloc::Global;
use stream_tokens::Lexeme;
use text_streams::{Position, TextError};
use token_classes::is_spelled;

/// The kinds of types.
#[derive(Clone, Copy)]
enum TypeKind {
    Integer,
    Function,
    Unit,
}

/// The kind that a token is the id of.
fn kind_of(token: &Lexeme<'_>) -> Option<TypeKind> {
    if is_spelled(token, "builtin.integer") {
        return Some(TypeKind::Integer);
    }
    if is_spelled(token, "builtin.function") {
        return Some(TypeKind::Function);
    }
    if is_spelled(token, "builtin.unit") {
        return Some(TypeKind::Unit);
    }
    None
}

/// A kind, with the place of its id.
#[derive(Clone, Copy)]
struct TypeId<'a> {
    kind: TypeKind,
    start: Position<'a>,
    end: Position<'a>,
}

/// The kind of the type that begins here.
fn kind_at<'a>(alloc: Global, at: Position<'a>) -> Result<TypeId<'a>, ReadFault<'a>>
    ensures { IfOk result (λ id. GoesTo at.entry id.end) }
{
    let token = token_at(alloc, at)?;
    match kind_of(&token) {
        Some(kind) => Ok(TypeId {
            kind,
            start: token.start,
            end: token.end,
        }),
        None => Err(syntax(at)),
    }
}

/// Reads the width of a type of integers.
fn read_width<'a>(alloc: Global, at: Position<'a>) -> Result<Position<'a>, ReadFault<'a>>
    ensures { IfOk result (GoesTo at.entry) }
{
    let width = number_at(alloc, at, LeafSort::Width)?;
    if is_below_2_32(width) {
        Ok(width.end)
    } else {
        Err(syntax_at(width.start))
    }
}

/// Reads a type, where `left` types and attributes may stand in one another from here on.
#[cycle(types)]
pub fn read_type<'a>(
    alloc: Global,
    at: Position<'a>,
    left: u32,
) -> Result<Position<'a>, ReadFault<'a>>
    ensures { IfOk result (GoesTo at.entry) }
{
    let id = kind_at(alloc, at)?;
    if left == 0 {
        return Err(ReadFault::Text(TextError::TooDeep, id.start));
    }
    match id.kind {
        TypeKind::Integer => read_width(alloc, id.end),
        TypeKind::Function => read_function(alloc, id.end, left - 1),
        TypeKind::Unit => Ok(id.end),
    }
}

/// Reads the types of a function.
#[cycle(types)]
fn read_function<'a>(
    alloc: Global,
    at: Position<'a>,
    left: u32,
) -> Result<Position<'a>, ReadFault<'a>>
    ensures { IfOk result (GoesTo at.entry) }
{
    let inputs = expect(at, '<')?;
    let arrow = read_types(alloc, inputs, left)?;
    let results = expect_arrow(arrow)?;
    let end = read_types(alloc, results, left)?;
    expect(end, '>')
}

/// Reads types in parentheses.
#[cycle(types)]
fn read_types<'a>(alloc: Global, at: Position<'a>, left: u32) -> Result<Position<'a>, ReadFault<'a>>
    ensures { IfOk result (GoesTo at.entry) }
{
    let start = expect(at, '(')?;
    if let Some(end) = behind_sign(start, ')') {
        return Ok(end);
    }
    let mut end = read_type(alloc, start, left)?;
    while let Some(next) = behind_sign(end, ',') {
        end = read_type(alloc, next, left)?;
    }
    expect(end, ')')
}
