//! Reading of locations.
ghost use Rattle.std.specs.Prelude.{◌≡◌, ◌≤◌, ◌<◌, ◌++◌, ◌∷◌, [], ℕ, List, false, MatchResult, IfOk, IfErr, OnErr};
ghost use Rattle.ir_locations.specs.declared.location.Location.{Location};
ghost use Rattle.text_streams.specs.declared.faults.TextError.TheVariants.{Syntax};
ghost use Rattle.text_streams.specs.Positions.{bytes_left, left};
ghost use Rattle.text_locations.specs.Faults.{IsMemory};
ghost use Rattle.text_locations.specs.Locations.{Answers, has_room, ReadsMetadata, RefusesMetadata, ReadsNext, RefusesNext, ReadsMembers, RefusesMembers, ReadsFused, RefusesFused, ReadsLast, RefusesLast, ReadsCallSite, RefusesCallSite, ReadsBehind, RefusesBehind, ReadsLocation, RefusesLocation};
ghost use Rattle.text_locations.specs.Texts.{AnsweredTexts, IsLocationText};

use crate::firsts::{First, read_first};
use crate::places::{read_name, read_place};
use crate::tokens::{Token, expect, fault_at, take_next};
use ir_locations::Location;
use std::alloc::Global;
use text_streams::{ParseFault, ParseResult, StateStream, TextError};

/// How many locations, and metadata in them, may be in one another.
const GREATEST_DEPTH: usize = 64;

/// A value in a box, or that memory was refused.
fn boxed<T: Drop, S>(alloc: Global, value: T, stream: &StateStream<'_, S>) -> ParseResult<Box<T>>
    ensures { MatchResult result (λ made. made.value ≡ value) IsMemory }
{
    match Box::new(alloc, value) {
        Ok(made) => Ok(made),
        Err(_) => Err(stream.fault(TextError::Memory)),
    }
}

/// Adds a member to those that were read.
fn add<T: Drop, S>(members: &mut Vec<T>, member: T, stream: &StateStream<'_, S>) -> ParseResult<()>
    ensures { MatchResult result (λ _. members.new.items ≡ members.old.items ++ member ∷ []) IsMemory }
{
    match members.push(member) {
        Ok(()) => Ok(()),
        Err(_) => Err(stream.fault(TextError::Memory)),
    }
}

/// Calls a parser.
fn call<S, A, F: FnMut(&mut StateStream<'_, S>) -> ParseResult<A>>(
    stream: &mut StateStream<'_, S>,
    attribute: &mut F,
) -> ParseResult<A>
    requires { (f : F) (x : _) → F.pre f x }
    ensures { Answers F.FnMut (attribute.old, stream.old) result (attribute.new, stream.new) }
{
    attribute(stream)
}

/// Reads metadata between `<` and `>`, where there are some. They are too deep where nothing more may be in the location.
fn read_metadata<S, A: Drop, F: FnMut(&mut StateStream<'_, S>) -> ParseResult<A>>(
    stream: &mut StateStream<'_, S>,
    attribute: &mut F,
    depth: usize,
) -> ParseResult<Option<A>>
    requires { (f : F) (x : _) → F.pre f x }
    ensures { MatchResult result (λ metadata. ReadsMetadata F.FnMut (has_room depth) (attribute.old, stream.old) metadata (attribute.new, stream.new))
        (RefusesMetadata F.FnMut (has_room depth) (attribute.old, stream.old)) }
{
    if !take_next(stream, Token::Less) {
        return Ok(None);
    }
    stream.position = stream.position.skip_spaces();
    if depth == 0 {
        return Err(stream.fault(TextError::TooDeep));
    }
    let metadata = call(stream, attribute)?;
    expect(stream, Token::Greater)?;
    Ok(Some(metadata))
}

/// Refuses a stream of which no less is left to be read than there was.
fn needs_less<S>(left: usize, stream: &StateStream<'_, S>) -> ParseResult<()>
    ensures { MatchResult result (λ _. bytes_left stream.now.position < left)
        (λ fault. (fault.cause ≡ Syntax) × (left ≤ bytes_left stream.now.position)) }
{
    if stream.position.bytes_left() < left {
        Ok(())
    } else {
        Err(stream.fault(TextError::Syntax))
    }
}

/// Reads white space and a location.
#[cycle(locations)]
fn read_next<S, A: Drop, F: FnMut(&mut StateStream<'_, S>) -> ParseResult<A>>(
    alloc: Global,
    stream: &mut StateStream<'_, S>,
    attribute: &mut F,
    depth: usize,
) -> ParseResult<Location<A>>
    requires { (f : F) (x : _) → F.pre f x }
    ensures { MatchResult result (λ location. ReadsNext (ReadsLocation F.FnMut depth) (attribute.old, stream.old) location (attribute.new, stream.new))
        (RefusesNext (RefusesLocation F.FnMut depth) (attribute.old, stream.old)) }
{
    stream.position = stream.position.skip_spaces();
    read_location(alloc, stream, attribute, depth)
}

/// Reads locations with a `,` between them, up to the `]`.
#[cycle(locations)]
fn read_members<S, A: Drop, F: FnMut(&mut StateStream<'_, S>) -> ParseResult<A>>(
    alloc: Global,
    stream: &mut StateStream<'_, S>,
    attribute: &mut F,
    depth: usize,
) -> ParseResult<Vec<Location<A>>>
    requires { (f : F) (x : _) → F.pre f x }
    ensures { MatchResult result (λ members. ReadsMembers (ReadsLocation F.FnMut depth) (attribute.old, stream.old) members.items (attribute.new, stream.new))
        (RefusesMembers (ReadsLocation F.FnMut depth) (RefusesLocation F.FnMut depth) (attribute.old, stream.old)) }
{
    let mut members = Vec::new(alloc);
    if take_next(stream, Token::Closes) {
        return Ok(members);
    }
    'members: loop {
        let left = stream.position.bytes_left();
        let member = read_next(alloc, stream, attribute, depth)?;
        add(&mut members, member, stream)?;
        if take_next(stream, Token::Closes) {
            return Ok(members);
        }
        expect(stream, Token::Comma)?;
        needs_less(left, stream)?;
    }
}

/// Reads what is behind `fused`.
#[cycle(locations)]
fn read_fused<S, A: Drop, F: FnMut(&mut StateStream<'_, S>) -> ParseResult<A>>(
    alloc: Global,
    stream: &mut StateStream<'_, S>,
    attribute: &mut F,
    depth: usize,
) -> ParseResult<Location<A>>
    requires { (f : F) (x : _) → F.pre f x }
    ensures { MatchResult result (λ location. ReadsFused F.FnMut (has_room depth) (ReadsLocation F.FnMut depth) (attribute.old, stream.old) location (attribute.new, stream.new))
        (RefusesFused F.FnMut (has_room depth) (ReadsLocation F.FnMut depth) (RefusesLocation F.FnMut depth) (attribute.old, stream.old)) }
{
    let metadata = read_metadata(stream, attribute, depth)?;
    expect(stream, Token::Opens)?;
    let locations = read_members(alloc, stream, attribute, depth)?;
    Ok(Location::Fused {
        metadata,
        locations,
    })
}

/// Reads a location and the `]` behind it.
#[cycle(locations)]
fn read_last<S, A: Drop, F: FnMut(&mut StateStream<'_, S>) -> ParseResult<A>>(
    alloc: Global,
    stream: &mut StateStream<'_, S>,
    attribute: &mut F,
    depth: usize,
) -> ParseResult<Box<Location<A>>>
    requires { (f : F) (x : _) → F.pre f x }
    ensures { MatchResult result (λ last. ReadsLast (ReadsLocation F.FnMut depth) (attribute.old, stream.old) last.value (attribute.new, stream.new))
        (RefusesLast (ReadsLocation F.FnMut depth) (RefusesLocation F.FnMut depth) (attribute.old, stream.old)) }
{
    let last = read_next(alloc, stream, attribute, depth)?;
    expect(stream, Token::Closes)?;
    boxed(alloc, last, stream)
}

/// Reads what is behind `callsite`.
#[cycle(locations)]
fn read_call_site<S, A: Drop, F: FnMut(&mut StateStream<'_, S>) -> ParseResult<A>>(
    alloc: Global,
    stream: &mut StateStream<'_, S>,
    attribute: &mut F,
    depth: usize,
) -> ParseResult<Location<A>>
    requires { (f : F) (x : _) → F.pre f x }
    ensures { MatchResult result (λ location. ReadsCallSite (ReadsLocation F.FnMut depth) (attribute.old, stream.old) location (attribute.new, stream.new))
        (RefusesCallSite (ReadsLocation F.FnMut depth) (RefusesLocation F.FnMut depth) (attribute.old, stream.old)) }
{
    expect(stream, Token::Opens)?;
    let callee = read_next(alloc, stream, attribute, depth)?;
    expect(stream, Token::Comma)?;
    let caller = read_last(alloc, stream, attribute, depth)?;
    let callee = boxed(alloc, callee, stream)?;
    Ok(Location::CallSite { callee, caller })
}

/// Reads what is behind the first token.
#[cycle(locations)]
fn read_behind<S, A: Drop, F: FnMut(&mut StateStream<'_, S>) -> ParseResult<A>>(
    alloc: Global,
    stream: &mut StateStream<'_, S>,
    attribute: &mut F,
    depth: usize,
    first: First,
) -> ParseResult<Location<A>>
    requires { (f : F) (x : _) → F.pre f x }
    ensures { MatchResult result (λ location. ReadsBehind F.FnMut (has_room depth) (ReadsLocation F.FnMut depth) first (attribute.old, stream.old) location (attribute.new, stream.new))
        (RefusesBehind F.FnMut (has_room depth) (ReadsLocation F.FnMut depth) (RefusesLocation F.FnMut depth) first (attribute.old, stream.old)) }
{
    match first {
        First::Unknown => Ok(Location::Unknown),
        First::Source(source) => {
            let (line, column) = read_place(alloc, stream)?;
            Ok(Location::SrcPos {
                source,
                line,
                column,
            })
        }
        First::Fused => read_fused(alloc, stream, attribute, depth),
        First::Named => {
            let name = read_name(alloc, stream)?;
            let child = read_last(alloc, stream, attribute, depth)?;
            Ok(Location::Named { name, child })
        }
        First::CallSite => read_call_site(alloc, stream, attribute, depth),
    }
}

/// Reads a location in which fewer locations than `depth` are in one another. Where there is a fault, the stream is where that was met.
#[cycle(locations)]
fn read_location<S, A: Drop, F: FnMut(&mut StateStream<'_, S>) -> ParseResult<A>>(
    alloc: Global,
    stream: &mut StateStream<'_, S>,
    attribute: &mut F,
    depth: usize,
) -> ParseResult<Location<A>>
    requires { (f : F) (x : _) → F.pre f x }
    ensures { MatchResult result (λ location. ReadsLocation F.FnMut depth (attribute.old, stream.old) location (attribute.new, stream.new))
        (RefusesLocation F.FnMut depth (attribute.old, stream.old)) }
{
    let start = stream.position;
    let first = read_first(alloc, stream)?;
    if depth == 0 {
        return Err(fault_at(start, TextError::TooDeep));
    }
    match read_behind(alloc, stream, attribute, depth - 1, first) {
        Ok(location) => Ok(location),
        Err(fault) => Err(ParseFault {
            consumed: true,
            ..fault
        }),
    }
}

/// The location that a text begins with, as `location` reads it, by a parser that is lent, so that it can be called again afterwards.
///
/// A fault is that of `location`, and the stream is then where it was.
pub fn location_by<S, A: Drop, F: FnMut(&mut StateStream<'_, S>) -> ParseResult<A>>(
    alloc: Global,
    stream: &mut StateStream<'_, S>,
    attribute: &mut F,
) -> ParseResult<Location<A>>
    requires { (f : F) (x : _) → F.pre f x }
    ensures read { MatchResult result (λ location. ReadsLocation F.FnMut 64 (attribute.old, stream.old) location (attribute.new, stream.new))
        (RefusesLocation F.FnMut 64 (attribute.old, stream.old)) }
    ensures stays { OnErr result (stream.new.position ≡ stream.old.position) }
{
    let start = stream.position;
    match read_location(alloc, stream, attribute, GREATEST_DEPTH) {
        Ok(location) => Ok(location),
        Err(fault) => {
            stream.position = start;
            Err(fault)
        }
    }
}

/// The location that a text begins with: `?`, `<in-memory>: line: 3, column: 4`, `"a file": line: 1, column: 2`, `fused[..]`,
/// `fused<metadata>[..]`, `named["x", ..]` or `callsite[.., ..]`, with white space between tokens. Metadata are what the parser reads.
///
/// A syntax fault is at the first token that can't stand where it is; a line or column that isn't below 2^64 is one at the number, where
/// the rest of its location can be read. Where a location, or metadata in it, would be in 64 others, that is `TooDeep` at its first token.
/// A fault of the parser is handed on. The stream is then where it was, and what it keeps beside is as the parser left it; `consumed`
/// says whether the fault is behind the first token. Where a member of a fused location leaves no less to be read than there was, as
/// behind a parser that goes back in the text, that is a syntax fault.
pub fn location<S, A: Drop, F: FnMut(&mut StateStream<'_, S>) -> ParseResult<A>>(
    alloc: Global,
    stream: &mut StateStream<'_, S>,
    attribute: F,
) -> ParseResult<Location<A>>
    requires { (f : F) (x : _) → F.pre f x }
    ensures read { MatchResult result (λ location. (after : F) × ReadsLocation F.FnMut 64 (attribute, stream.old) location (after, stream.new))
        (RefusesLocation F.FnMut 64 (attribute, stream.old)) }
    ensures text { IfOk result (λ location. IsLocationText (AnsweredTexts F.FnMut) 64 (left stream.old.position) location (left stream.new.position)) }
    ensures absent { IfErr result (λ fault. fault.cause ≡ Syntax → fault.consumed ≡ false →
        (depth : ℕ) (other : Location A) (rest : List ℕ) → IsLocationText (AnsweredTexts F.FnMut) depth (left stream.old.position) other rest → ⊥) }
    ensures stays { OnErr result (stream.new.position ≡ stream.old.position) }
{
    let mut attribute = attribute;
    match location_by(alloc, stream, &mut attribute) {
        Ok(location) => Ok(location),
        Err(fault) => Err(fault),
    }
}
