//! Parsers of lists.
ghost use Rattle.std.specs.Prelude.{◌≡◌, MatchResult, OnErr, Some};
ghost use Rattle.text_lists.specs.Lists.{ReadsList, RefusesList};
ghost use Rattle.text_lists.specs.Signs.{sign_of};

use crate::members::read_members;
use crate::signs::sign_of;
use std::alloc::Global;
use text_streams::{ParseResult, StateStream};
use text_writers::ListSeparator;

/// A list with this sign between its members, or with none. Where there is a fault, the stream is where it was.
fn list_of_sign<S, T: Drop, F: FnMut(&mut StateStream<'_, S>) -> ParseResult<T>>(
    alloc: Global,
    stream: &mut StateStream<'_, S>,
    sign: Option<char>,
    parser: F,
) -> ParseResult<Vec<T>>
    requires { (f : F) (x : _) → F.pre f x }
    ensures read { MatchResult result
        (λ members. ReadsList F.FnMut sign parser stream.old members.items stream.new)
        (RefusesList F.FnMut sign parser stream.old) }
    ensures stays { OnErr result (stream.new.position ≡ stream.old.position) }
{
    let start = stream.position;
    match read_members(alloc, stream, sign, parser) {
        Ok(members) => Ok(members),
        Err(fault) => {
            stream.position = start;
            Err(fault)
        }
    }
}

/// The members of a list, as a parser reads them, with a character and white space between them. There may be none.
///
/// The list ends where white space behind a member isn't followed by the character, or at its start, where the parser answers a syntax
/// fault before which it read nothing. Any other fault of the parser is that of the list; where memory is refused, that is; and where a
/// member and the character leave no less to be read than there was, that is a syntax fault. The stream is then where it was, and what it
/// keeps beside is as the calls left it.
pub fn list_parser<S, T: Drop, F: FnMut(&mut StateStream<'_, S>) -> ParseResult<T>>(
    alloc: Global,
    stream: &mut StateStream<'_, S>,
    sign: char,
    parser: F,
) -> ParseResult<Vec<T>>
    requires { (f : F) (x : _) → F.pre f x }
    ensures read { MatchResult result
        (λ members. ReadsList F.FnMut (Some sign) parser stream.old members.items stream.new)
        (RefusesList F.FnMut (Some sign) parser stream.old) }
    ensures stays { OnErr result (stream.new.position ≡ stream.old.position) }
{
    list_of_sign(alloc, stream, Some(sign), parser)
}

/// The members of a list, as a parser reads them, with the sign of a separator and white space between them, as `list_parser` does.
///
/// A separator without a character has no sign: the members follow one another, with white space between them, up to where the parser
/// answers a syntax fault before which it read nothing.
pub fn list_with_sep_parser<S, T: Drop, F: FnMut(&mut StateStream<'_, S>) -> ParseResult<T>>(
    alloc: Global,
    stream: &mut StateStream<'_, S>,
    separator: ListSeparator,
    parser: F,
) -> ParseResult<Vec<T>>
    requires { (f : F) (x : _) → F.pre f x }
    ensures read { MatchResult result
        (λ members. ReadsList F.FnMut (sign_of separator) parser stream.old members.items stream.new)
        (RefusesList F.FnMut (sign_of separator) parser stream.old) }
    ensures stays { OnErr result (stream.new.position ≡ stream.old.position) }
{
    list_of_sign(alloc, stream, sign_of(separator), parser)
}
