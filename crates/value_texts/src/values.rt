//! Values of a stream.
ghost use Rattle.std.specs.Prelude.{◌≡◌, OnErr, IfOk, IfErr};
ghost use Rattle.text_streams.specs.Positions.{left};
ghost use Rattle.value_texts.specs.Only.{RefusesValue};
ghost use Rattle.value_texts.specs.Progress.{ReadsValue};

use crate::maker::ValueMaker;
use crate::progress::{Progress, ReadFault};
use crate::steps::read_value;
use ir_print::ValueSort;
use std::alloc::Global;
use text_streams::{ParseFault, ParseResult, Position, StateStream, TextError};

/// Types and attributes stand in one another at most so deep.
const DEEPEST: u32 = 64;

/// The fault at a place, where reading began at another one.
fn fault_at(cause: TextError, start: Position<'_>, at: Position<'_>) -> ParseFault
    ensures { result.cause ≡ cause }
{
    ParseFault {
        line: at.line(),
        column: at.column(),
        cause,
        consumed: at.bytes_left() != start.bytes_left(),
    }
}

/// Reads a type or an attribute from where a stream is, and leaves the stream right behind it.
///
/// # Errors
/// `Syntax` at the first token with which the formats don't go on, or at the part that the language refuses. `TooDeep` at the first token
/// of the 65th type or attribute in one another. `Memory`. The stream stays where it was.
pub fn value_parse<M: ValueMaker, S>(
    alloc: Global,
    store: &mut M::Store,
    sort: ValueSort,
    stream: &mut StateStream<'_, S>,
) -> ParseResult<M::Part>
    ensures read { IfOk result (λ part. ReadsValue M.formats M.values M.leaf_in (M.shows store.new) sort stream.old stream.new part) }
    ensures refused { IfErr result (λ fault. RefusesValue M.formats M.values M.leaf_in sort (left stream.old.position) fault.cause) }
    ensures keeps { M.keeps store.old store.new }
    ensures stays { OnErr result (stream.new ≡ stream.old) }
{
    let start = stream.position;
    let mut progress = Progress::new(alloc, start, start);
    if let Err(fault) = read_value::<M>(alloc, store, sort, &mut progress, DEEPEST) {
        return Err(match fault {
            ReadFault::Memory => stream.fault(TextError::Memory),
            ReadFault::Text(cause, at) => fault_at(cause, start, at),
        });
    }
    match progress.parts.pop() {
        Some(part) => {
            stream.position = progress.at;
            Ok(part)
        }
        None => Err(stream.fault(TextError::Syntax)),
    }
}
