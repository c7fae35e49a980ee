//! Names.
ghost use Rattle.std.specs.Prelude.{◌≡◌, [], IfOk};
ghost use Rattle.ir_names.specs.Identifier.{text_of};
ghost use Rattle.outline_values.specs.Names.{AddsName, SaysNames};
ghost use Rattle.outline_values.specs.Places.{GoesTo};

use crate::faults::{ReadFault, syntax, syntax_at};
use crate::signs::{behind_sign, expect};
use crate::tokens::leaf_at;
use ir_names::{Identifier, IdentifierError};
use ir_print::LeafSort;
use std::alloc::Global;
use std::collections::BTreeSet;
use stream_tokens::Lexeme;
use text_streams::{Position, TextError};

/// The identifier that a name is.
fn identifier_of<'a>(alloc: Global, token: &Lexeme<'a>) -> Result<Identifier, ReadFault<'a>>
    ensures { IfOk result (λ name. text_of name ≡ token.now.text.items) }
{
    match Identifier::from_chars(alloc, &token.text) {
        Ok(name) => Ok(name),
        Err(IdentifierError::Invalid(_)) => Err(syntax_at(token.start)),
        Err(IdentifierError::Memory) => Err(ReadFault::Memory),
    }
}

/// Reads a name.
pub fn read_name<'a>(alloc: Global, at: Position<'a>) -> Result<Position<'a>, ReadFault<'a>>
    ensures { IfOk result (GoesTo at.entry) }
{
    let token = leaf_at(alloc, at, LeafSort::Name)?;
    Ok(token.end)
}

/// Whether these characters are `true` or `false`.
fn is_truth(text: &[char]) -> bool {
    matches!(text, ['t', 'r', 'u', 'e'] | ['f', 'a', 'l', 's', 'e'])
}

/// Reads `true` or `false`.
pub fn read_truth<'a>(alloc: Global, at: Position<'a>) -> Result<Position<'a>, ReadFault<'a>>
    ensures { IfOk result (GoesTo at.entry) }
{
    let token = leaf_at(alloc, at, LeafSort::Name)?;
    if is_truth(&token.text) {
        Ok(token.end)
    } else {
        Err(syntax(at))
    }
}

/// Reads a key that isn't among those so far, and puts it there.
pub fn read_key<'a>(
    alloc: Global,
    at: Position<'a>,
    keys: &mut BTreeSet<Identifier>,
) -> Result<Position<'a>, ReadFault<'a>>
    ensures { IfOk result (GoesTo at.entry) }
{
    let token = leaf_at(alloc, at, LeafSort::Name)?;
    let key = identifier_of(alloc, &token)?;
    if !keys.insert(key)? {
        return Err(ReadFault::Text(TextError::AttributeRedefined, token.start));
    }
    Ok(token.end)
}

/// Reads a name or `?`, and adds it to the names so far.
fn read_given<'a>(
    alloc: Global,
    at: Position<'a>,
    names: &mut Vec<Option<Identifier>>,
) -> Result<Position<'a>, ReadFault<'a>>
    ensures adds { IfOk result (AddsName at.entry names.old.items names.new.items) }
    ensures goes { IfOk result (GoesTo at.entry) }
{
    if let Some(end) = behind_sign(at, '?') {
        names.push(None)?;
        return Ok(end);
    }
    let token = leaf_at(alloc, at, LeafSort::Name)?;
    let name = identifier_of(alloc, &token)?;
    names.push(Some(name))?;
    Ok(token.end)
}

/// Reads names and `?` in brackets, and adds them to names, of which there is none so far.
pub fn read_names<'a>(
    alloc: Global,
    at: Position<'a>,
    names: &mut Vec<Option<Identifier>>,
) -> Result<Position<'a>, ReadFault<'a>>
    requires { names.old.items ≡ [] }
    ensures says { IfOk result (SaysNames at.entry names.new.items) }
    ensures goes { IfOk result (GoesTo at.entry) }
{
    let start = expect(at, '[')?;
    if let Some(end) = behind_sign(start, ']') {
        return Ok(end);
    }
    let mut end = read_given(alloc, start, names)?;
    while let Some(next) = behind_sign(end, ',') {
        end = read_given(alloc, next, names)?;
    }
    expect(end, ']')
}

/// Reads names and `?` in brackets.
pub fn skip_names<'a>(alloc: Global, at: Position<'a>) -> Result<Position<'a>, ReadFault<'a>>
    ensures { IfOk result (GoesTo at.entry) }
{
    let mut names = Vec::new(alloc);
    read_names(alloc, at, &mut names)
}
