//! The section.
ghost use Rattle.std.specs.Prelude.{◌≡◌, false, IfOk, IfErr, OnErr, MatchResult, MatchOption};
ghost use Rattle.ir_locations.specs.declared.location.Location.{Location};
ghost use Rattle.outline_tables.specs.declared.entries.Entry.{Entry};
ghost use Rattle.outline_tables.specs.Tables.{section_of};
ghost use Rattle.text_streams.specs.declared.faults.TextError.TheVariants.{Syntax};
ghost use Rattle.text_outlines.specs.Sections.{ReadsMark, RefusesMarkBehind, IsWithoutMark, ReadsBehind, RefusesBehind, ReadsEntries, RefusesEntries, ReadsBehindWord, RefusesBehindWord, ReadsSection, RefusesSection, HasNoSection};

use crate::entries::read_entry;
use crate::names::read_word;
use crate::parsing::needs_less;
use crate::signs::{expect, fault_at};
use ir_hashing::TextKey;
use ir_locations::Location;
use outline_tables::OutlineTable;
use std::alloc::Global;
use text_marks::{is_at_mark, mark_parse};
use text_streams::{ParseFault, ParseResult, Position, StateStream, TextError};

/// The mark of an entry, and where it is.
#[derive(Drop)]
struct Mark<'a> {
    place: Position<'a>,
    index: u64,
}

/// Reads white space and a mark, where a `!` is behind the white space.
fn next_mark<'a, S>(alloc: Global, stream: &mut StateStream<'a, S>) -> ParseResult<Option<Mark<'a>>>
    ensures { MatchResult result
        (λ next. MatchOption next ((stream.new ≡ stream.old) × IsWithoutMark stream.old) (λ mark. ReadsMark stream.old mark stream.new))
        (RefusesMarkBehind stream.old) }
{
    let start = stream.position;
    stream.position = stream.position.skip_spaces();
    let place = stream.position;
    if !is_at_mark(stream) {
        stream.position = start;
        return Ok(None);
    }
    let index = mark_parse(alloc, stream)?;
    Ok(Some(Mark { place, index }))
}

/// Reads what is behind the mark of an entry, and defines the entry.
fn read_behind<S, A: Drop, F: FnMut(&mut StateStream<'_, S>) -> ParseResult<A>>(
    alloc: Global,
    stream: &mut StateStream<'_, S>,
    attribute: &mut F,
    key: TextKey,
    table: &mut OutlineTable<A, Location<A>>,
    mark: Mark<'_>,
) -> ParseResult<()>
    requires { (f : F) (x : _) → F.pre f x }
    ensures { MatchResult result (λ _. (entry : Entry A (Location A)) ×
        ReadsBehind F.FnMut (section_of table.old, (attribute.old, stream.old)) (mark.entry.index, entry) (section_of table.new, (attribute.new, stream.new)))
        (RefusesBehind F.FnMut (section_of table.old, (attribute.old, stream.old)) mark.entry) }
{
    if table.contains(mark.index) {
        return Err(fault_at(mark.place, TextError::OutlineRedefined));
    }
    expect(stream, '=')?;
    let entry = read_entry(alloc, stream, attribute, key)?;
    match table.define(mark.index, entry) {
        Ok(()) => Ok(()),
        Err(_) => Err(stream.fault(TextError::Memory)),
    }
}

/// Reads entries with their marks, up to where no mark is.
fn read_entries<S, A: Drop, F: FnMut(&mut StateStream<'_, S>) -> ParseResult<A>>(
    alloc: Global,
    stream: &mut StateStream<'_, S>,
    attribute: &mut F,
    key: TextKey,
) -> ParseResult<OutlineTable<A, Location<A>>>
    requires { (f : F) (x : _) → F.pre f x }
    ensures { MatchResult result (λ table. ReadsEntries F.FnMut (attribute.old, stream.old) (section_of table) (attribute.new, stream.new))
        (RefusesEntries F.FnMut (attribute.old, stream.old)) }
{
    let mut table = OutlineTable::new(alloc, key);
    'entries: loop {
        let left = stream.position.bytes_left();
        let Some(mark) = next_mark(alloc, stream)? else {
            return Ok(table);
        };
        read_behind(alloc, stream, attribute, key, &mut table, mark)?;
        needs_less(left, stream)?;
    }
}

/// Reads what is behind the word.
fn read_behind_word<S, A: Drop, F: FnMut(&mut StateStream<'_, S>) -> ParseResult<A>>(
    alloc: Global,
    stream: &mut StateStream<'_, S>,
    attribute: &mut F,
    key: TextKey,
) -> ParseResult<OutlineTable<A, Location<A>>>
    requires { (f : F) (x : _) → F.pre f x }
    ensures { MatchResult result (λ table. ReadsBehindWord F.FnMut (attribute.old, stream.old) (section_of table) (attribute.new, stream.new))
        (RefusesBehindWord F.FnMut (attribute.old, stream.old)) }
{
    expect(stream, ':')?;
    read_entries(alloc, stream, attribute, key)
}

/// Reads the section. Where there is a fault, the stream is where that was met.
fn read_section<S, A: Drop, F: FnMut(&mut StateStream<'_, S>) -> ParseResult<A>>(
    alloc: Global,
    stream: &mut StateStream<'_, S>,
    attribute: &mut F,
    key: TextKey,
) -> ParseResult<OutlineTable<A, Location<A>>>
    requires { (f : F) (x : _) → F.pre f x }
    ensures { MatchResult result (λ table. ReadsSection F.FnMut (attribute.old, stream.old) (section_of table) (attribute.new, stream.new))
        (RefusesSection F.FnMut (attribute.old, stream.old)) }
{
    read_word(alloc, stream)?;
    match read_behind_word(alloc, stream, attribute, key) {
        Ok(table) => Ok(table),
        Err(fault) => Err(ParseFault {
            consumed: true,
            ..fault
        }),
    }
}

/// The section of outlined attributes that a text begins with: `outlined_attributes: !0 = @[loc], [name = attribute, other = !1] !1 = attribute`,
/// with white space between tokens. An attribute is what the parser reads. The section ends where no `!` is behind an entry and white
/// space; the stream is then behind the entry. The key is that of the text.
///
/// A syntax fault is at the first token that can't stand where it is, or at a mark whose number isn't below 2^64. The second mark with one
/// index is `OutlineRedefined`, the second key of one name in an entry `AttributeRedefined`, each at its place and before what is behind it.
/// Faults of the parser and of locations are handed on. The stream is then where it was, and what it keeps beside is as the parser left it;
/// `consumed` says whether the fault is behind the first token. Where an entry, or a member of it with its `,`, leaves no less to be read
/// than there was, as behind a parser that goes back in the text, that is a syntax fault.
pub fn outlined_attributes<S, A: Drop, F: FnMut(&mut StateStream<'_, S>) -> ParseResult<A>>(
    alloc: Global,
    stream: &mut StateStream<'_, S>,
    key: TextKey,
    attribute: F,
) -> ParseResult<OutlineTable<A, Location<A>>>
    requires { (f : F) (x : _) → F.pre f x }
    ensures read { IfOk result (λ table. (left : F) × ReadsSection F.FnMut (attribute, stream.old) (section_of table) (left, stream.new)) }
    ensures refused { IfErr result (RefusesSection F.FnMut (attribute, stream.old)) }
    ensures absent { IfErr result (λ fault. fault.cause ≡ Syntax → fault.consumed ≡ false → HasNoSection F.FnMut stream.old) }
    ensures stays { OnErr result (stream.new.position ≡ stream.old.position) }
{
    let start = stream.position;
    let mut attribute = attribute;
    match read_section(alloc, stream, &mut attribute, key) {
        Ok(table) => Ok(table),
        Err(fault) => {
            stream.position = start;
            Err(fault)
        }
    }
}
