//! Entries.
ghost use Rattle.std.specs.Prelude.{MatchResult};
ghost use Rattle.text_outlines.specs.Entries.{ReadsPlace, RefusesPlace, ReadsEntry, RefusesEntry};

use crate::members::read_members;
use crate::parsing::call;
use crate::signs::{expect, take_sign};
use ir_hashing::TextKey;
use ir_locations::Location;
use outline_tables::Entry;
use std::alloc::Global;
use text_locations::location_by;
use text_streams::{ParseResult, StateStream};

/// Reads what is behind the `@` of an entry: a location in brackets, a `,` and the `[` of what stands under keys.
fn read_place<S, A: Drop, F: FnMut(&mut StateStream<'_, S>) -> ParseResult<A>>(
    alloc: Global,
    stream: &mut StateStream<'_, S>,
    attribute: &mut F,
) -> ParseResult<Location<A>>
    requires { (f : F) (x : _) → F.pre f x }
    ensures { MatchResult result (λ location. ReadsPlace F.FnMut (attribute.old, stream.old) location (attribute.new, stream.new))
        (RefusesPlace F.FnMut (attribute.old, stream.old)) }
{
    expect(stream, '[')?;
    stream.position = stream.position.skip_spaces();
    let location = location_by(alloc, stream, attribute)?;
    expect(stream, ']')?;
    expect(stream, ',')?;
    expect(stream, '[')?;
    Ok(location)
}

/// Reads white space and an entry.
pub fn read_entry<S, A: Drop, F: FnMut(&mut StateStream<'_, S>) -> ParseResult<A>>(
    alloc: Global,
    stream: &mut StateStream<'_, S>,
    attribute: &mut F,
    key: TextKey,
) -> ParseResult<Entry<A, Location<A>>>
    requires { (f : F) (x : _) → F.pre f x }
    ensures { MatchResult result (λ entry. ReadsEntry F.FnMut (attribute.old, stream.old) entry (attribute.new, stream.new))
        (RefusesEntry F.FnMut (attribute.old, stream.old)) }
{
    if take_sign(stream, '@') {
        let location = read_place(alloc, stream, attribute)?;
        let attributes = read_members(alloc, stream, attribute, key)?;
        return Ok(Entry::Bracketed {
            location: Some(location),
            attributes,
        });
    }
    if take_sign(stream, '[') {
        let members = read_members(alloc, stream, attribute, key)?;
        return Ok(Entry::Bracketed {
            location: None,
            attributes: members,
        });
    }
    stream.position = stream.position.skip_spaces();
    let value = call(stream, attribute)?;
    Ok(Entry::Single(value))
}
