//! Lists between signs.
ghost use Rattle.std.specs.Prelude.{◌≡◌, MatchResult, OnErr, Some};
ghost use Rattle.text_lists.specs.Delimited.{ReadsDelimited, RefusesDelimited};

use crate::members::read_members;
use crate::signs::{take_character, take_sign};
use std::alloc::Global;
use text_streams::{ParseResult, StateStream, TextError};

/// A list between signs. Where there is a fault, the stream is where that was met.
fn read_delimited<S, T: Drop, F: FnMut(&mut StateStream<'_, S>) -> ParseResult<T>>(
    alloc: Global,
    stream: &mut StateStream<'_, S>,
    opening: char,
    closing: char,
    sign: char,
    parser: F,
) -> ParseResult<Vec<T>>
    requires { (f : F) (x : _) → F.pre f x }
    ensures { MatchResult result
        (λ members. ReadsDelimited F.FnMut opening closing sign parser stream.old members.items stream.new)
        (RefusesDelimited F.FnMut opening closing sign parser stream.old) }
{
    if !take_sign(stream, opening) {
        return Err(stream.fault(TextError::Syntax));
    }
    let members = read_members(alloc, stream, Some(sign), parser)?;
    if !take_character(stream, closing) {
        return Err(stream.fault(TextError::Syntax));
    }
    Ok(members)
}

/// A list as `list_parser` reads it, between two characters. White space behind the first one and behind the members is read, and none
/// behind the last one.
///
/// Where one of the two isn't there, that is a syntax fault there. At a fault the stream is where it was, and what it keeps beside is as
/// the calls left it.
pub fn delimited_list_parser<S, T: Drop, F: FnMut(&mut StateStream<'_, S>) -> ParseResult<T>>(
    alloc: Global,
    stream: &mut StateStream<'_, S>,
    opening: char,
    closing: char,
    sign: char,
    parser: F,
) -> ParseResult<Vec<T>>
    requires { (f : F) (x : _) → F.pre f x }
    ensures read { MatchResult result
        (λ members. ReadsDelimited F.FnMut opening closing sign parser stream.old members.items stream.new)
        (RefusesDelimited F.FnMut opening closing sign parser stream.old) }
    ensures stays { OnErr result (stream.new.position ≡ stream.old.position) }
{
    let start = stream.position;
    match read_delimited(alloc, stream, opening, closing, sign, parser) {
        Ok(members) => Ok(members),
        Err(fault) => {
            stream.position = start;
            Err(fault)
        }
    }
}
