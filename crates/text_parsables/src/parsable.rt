//! Values that are parsed.
ghost use Rattle.std.specs.Prelude.{List, ℕ};
ghost use Rattle.text_parsables.specs.Fronts.{Front, Parses};

use std::alloc::Global;
use text_streams::{ParseResult, StateStream};

/// A value that is read from a stream of characters, beside a state that parsers keep.
pub trait Parsable<S> {
    /// What has to be said of a value to read it.
    type Arg;

    /// What is read.
    type Parsed;

    /// What stands at the front of these characters beside a state: characters with the value that they stand for, or the characters
    /// before a fault and its cause; and the state that parsing leaves.
    ghost stands: { Self.Arg → List ℕ → S → Front Self.Parsed → S → Type 0 };

    /// Reads the value that is there. Where there is none, the stream stays where it was, and the fault says where it was met.
    fn parse(
        alloc: Global,
        stream: &mut StateStream<'_, S>,
        arg: Self::Arg,
    ) -> ParseResult<Self::Parsed>
        ensures { Parses (stands arg) stream.old stream.new result };
}
