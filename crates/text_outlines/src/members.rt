//! What stands under keys, in brackets.
ghost use Rattle.std.specs.Prelude.{◌≡◌, ◌++◌, ◌∷◌, [], MatchResult};
ghost use Rattle.text_locations.specs.Faults.{IsMemory};
ghost use Rattle.text_outlines.specs.Members.{Notes, RefusesNote, ReadsKey, RefusesKey, ReadsReference, RefusesReference, ReadsMember, RefusesMember, ReadsMembers, RefusesMembers};

use crate::names::read_name;
use crate::parsing::{call, needs_less};
use crate::signs::{expect, fault_at, take_sign};
use ir_hashing::TextKey;
use ir_names::Identifier;
use outline_tables::Reference;
use parsed_names::{DefineError, NameScope};
use std::alloc::Global;
use text_marks::{is_at_mark, mark_parse};
use text_streams::{ParseResult, Position, StateStream, TextError};

/// Notes a key of an entry. Where the entry has it already, it is redefined at its place.
fn note(keys: &mut NameScope<()>, name: &Identifier, place: Position<'_>) -> ParseResult<()>
    ensures { MatchResult result (λ _. Notes keys.old name.now keys.new) (RefusesNote keys.old name.now place.entry) }
{
    let Ok(copy) = name.try_clone() else {
        return Err(fault_at(place, TextError::Memory));
    };
    match keys.define(copy, ()) {
        Ok(_) => Ok(()),
        Err(DefineError::MultipleDefinitions) => {
            Err(fault_at(place, TextError::AttributeRedefined))
        }
        Err(DefineError::Memory) => Err(fault_at(place, TextError::Memory)),
    }
}

/// Reads white space and a key that the entry doesn't have yet.
fn read_key<S>(
    alloc: Global,
    stream: &mut StateStream<'_, S>,
    keys: &mut NameScope<()>,
) -> ParseResult<Identifier>
    ensures { MatchResult result (λ name. ReadsKey keys.old stream.old name keys.new stream.new) (RefusesKey keys.old stream.old) }
{
    stream.position = stream.position.skip_spaces();
    let place = stream.position;
    let name = read_name(alloc, stream)?;
    note(keys, &name, place)?;
    Ok(name)
}

/// Reads the mark that is there, or what the parser reads where no `!` is.
fn read_reference<S, A: Drop, F: FnMut(&mut StateStream<'_, S>) -> ParseResult<A>>(
    alloc: Global,
    stream: &mut StateStream<'_, S>,
    attribute: &mut F,
) -> ParseResult<Reference<A>>
    requires { (f : F) (x : _) → F.pre f x }
    ensures { MatchResult result (λ reference. ReadsReference F.FnMut (attribute.old, stream.old) reference (attribute.new, stream.new))
        (RefusesReference F.FnMut (attribute.old, stream.old)) }
{
    if is_at_mark(stream) {
        let mark = mark_parse(alloc, stream)?;
        return Ok(Reference::AtMark(mark));
    }
    let value = call(stream, attribute)?;
    Ok(Reference::Here(value))
}

/// Reads a key, `=` and what stands under the key.
fn read_member<S, A: Drop, F: FnMut(&mut StateStream<'_, S>) -> ParseResult<A>>(
    alloc: Global,
    stream: &mut StateStream<'_, S>,
    attribute: &mut F,
    keys: &mut NameScope<()>,
) -> ParseResult<(Identifier, Reference<A>)>
    requires { (f : F) (x : _) → F.pre f x }
    ensures { MatchResult result (λ member. ReadsMember F.FnMut (keys.old, (attribute.old, stream.old)) member (keys.new, (attribute.new, stream.new)))
        (RefusesMember F.FnMut (keys.old, (attribute.old, stream.old))) }
{
    let name = read_key(alloc, stream, keys)?;
    expect(stream, '=')?;
    stream.position = stream.position.skip_spaces();
    let reference = read_reference(alloc, stream, attribute)?;
    Ok((name, reference))
}

/// Adds a member to those that were read.
fn add<T: Drop, S>(members: &mut Vec<T>, member: T, stream: &StateStream<'_, S>) -> ParseResult<()>
    ensures { MatchResult result (λ _. members.new.items ≡ members.old.items ++ member ∷ []) IsMemory }
{
    match members.push(member) {
        Ok(()) => Ok(()),
        Err(_) => Err(stream.fault(TextError::Memory)),
    }
}

/// Reads members with a `,` between them, up to the `]`.
pub fn read_members<S, A: Drop, F: FnMut(&mut StateStream<'_, S>) -> ParseResult<A>>(
    alloc: Global,
    stream: &mut StateStream<'_, S>,
    attribute: &mut F,
    key: TextKey,
) -> ParseResult<Vec<(Identifier, Reference<A>)>>
    requires { (f : F) (x : _) → F.pre f x }
    ensures { MatchResult result (λ members. ReadsMembers F.FnMut (attribute.old, stream.old) members.items (attribute.new, stream.new))
        (RefusesMembers F.FnMut (attribute.old, stream.old)) }
{
    let mut members = Vec::new(alloc);
    if take_sign(stream, ']') {
        return Ok(members);
    }
    let mut keys = NameScope::new(alloc, key);
    'members: loop {
        let left = stream.position.bytes_left();
        let member = read_member(alloc, stream, attribute, &mut keys)?;
        add(&mut members, member, stream)?;
        if take_sign(stream, ']') {
            return Ok(members);
        }
        expect(stream, ',')?;
        needs_less(left, stream)?;
    }
}
