//! What a parser reads again and again.
ghost use Rattle.std.specs.Prelude.{◌≡◌, MatchResult, OnErr};
ghost use Rattle.text_lists.specs.Repeated.{ReadsAll, RefusesAll};

use crate::members::{add, call, needs_less};
use std::alloc::Global;
use text_streams::{ParseResult, StateStream};

/// What a parser reads again and again. Where there is a fault, the stream is where the last call left it.
fn read_all<S, T: Drop, F: FnMut(&mut StateStream<'_, S>) -> ParseResult<Option<T>>>(
    alloc: Global,
    stream: &mut StateStream<'_, S>,
    mut parser: F,
) -> ParseResult<Vec<T>>
    requires { (f : F) (x : _) → F.pre f x }
    ensures { MatchResult result
        (λ values. ReadsAll F.FnMut parser stream.old values.items stream.new)
        (RefusesAll F.FnMut parser stream.old) }
{
    let mut values = Vec::new(alloc);
    'values: loop {
        let left = stream.position.bytes_left();
        let Some(value) = call(stream, &mut parser)? else {
            return Ok(values);
        };
        needs_less(left, stream)?;
        add(&mut values, value, stream)?;
    }
}

/// What a parser reads again and again, up to the first time that it answers that there is nothing more.
///
/// A fault of the parser is that of the whole; where memory is refused, that is; and where a value leaves no less to be read than there
/// was, that is a syntax fault. The stream is then where it was, and what it keeps beside is as the calls left it.
pub fn zero_or_more_parser<S, T: Drop, F: FnMut(&mut StateStream<'_, S>) -> ParseResult<Option<T>>>(
    alloc: Global,
    stream: &mut StateStream<'_, S>,
    parser: F,
) -> ParseResult<Vec<T>>
    requires { (f : F) (x : _) → F.pre f x }
    ensures read { MatchResult result
        (λ values. ReadsAll F.FnMut parser stream.old values.items stream.new)
        (RefusesAll F.FnMut parser stream.old) }
    ensures stays { OnErr result (stream.new.position ≡ stream.old.position) }
{
    let start = stream.position;
    match read_all(alloc, stream, parser) {
        Ok(values) => Ok(values),
        Err(fault) => {
            stream.position = start;
            Err(fault)
        }
    }
}
