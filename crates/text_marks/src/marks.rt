//! Reading of marks.
ghost use Rattle.std.specs.Prelude.{◌≡◌, true, false};
ghost use Rattle.text_streams.specs.Positions.{left};
ghost use Rattle.text_marks.specs.Marks.{begins_with_mark, ReadsMark};
ghost use Rattle.text_marks.specs.MarkOrs.{AnswersMark, AnswersOther};

use std::alloc::Global;
use text_streams::{ParseResult, StateStream, int_parse};

/// The character that a mark begins with.
pub const OUTLINED_ATTR_MARKER: char = '!';

/// A mark, or what is in its place.
#[derive(Debug, PartialEq, Eq, Drop)]
pub enum MarkOr<T> {
    /// The number of a mark: what it stands for is said elsewhere.
    Mark(u64),
    /// What the parser read.
    Value(T),
}

/// The number of the mark whose `!` is there. Where no number below 2^64 is behind that, the stream stays where it was, and the fault is
/// there.
pub fn mark_parse<S>(alloc: Global, stream: &mut StateStream<'_, S>) -> ParseResult<u64>
    requires { begins_with_mark (left stream.old.position) ≡ true }
    ensures { ReadsMark stream.old stream.new result }
{
    let start = stream.position;
    if let Some((_, behind)) = start.next() {
        stream.position = behind;
    }
    match int_parse(alloc, stream) {
        Ok(number) => Ok(number),
        Err(fault) => {
            stream.position = start;
            Err(stream.fault(fault.cause))
        }
    }
}

/// Whether a mark begins where a stream is.
pub fn is_at_mark<S>(stream: &StateStream<'_, S>) -> bool
    ensures { result ≡ begins_with_mark (left stream.now.position) }
{
    match stream.position.next() {
        Some((sign, _)) => sign == OUTLINED_ATTR_MARKER,
        None => false,
    }
}

/// A mark `!n`, with `n` below 2^64, or what a parser reads where no `!` is.
///
/// Where no such number is behind a `!`, that is a syntax fault at the `!`, and the stream stays where it was. The parser isn't called then.
pub fn outlined_marker_or<S, T, F: FnOnce(&mut StateStream<'_, S>) -> ParseResult<T>>(
    alloc: Global,
    stream: &mut StateStream<'_, S>,
    parser: F,
) -> ParseResult<MarkOr<T>>
    requires { F.IsAlwaysCallable parser }
    ensures mark { begins_with_mark (left stream.old.position) ≡ true → AnswersMark stream.old stream.new result }
    ensures other { begins_with_mark (left stream.old.position) ≡ false → AnswersOther F.FnOnce parser stream.old stream.new result }
{
    if is_at_mark(stream) {
        match mark_parse(alloc, stream) {
            Ok(number) => Ok(MarkOr::Mark(number)),
            Err(fault) => Err(fault),
        }
    } else {
        match parser(stream) {
            Ok(value) => Ok(MarkOr::Value(value)),
            Err(fault) => Err(fault),
        }
    }
}
