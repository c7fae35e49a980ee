//! A stream of characters with a place, and a state beside it.
ghost use Rattle.std.specs.Prelude.{◌≡◌, ℕ, List, [], IfOk, chars, encode_utf8_all, false};
ghost use Rattle.std.specs.Iterator.{Drains, IsFinite};
ghost use Rattle.std.specs.String.{string_bytes};
ghost use Rattle.text_streams.specs.Locations.{IsPlaceInMemory};
ghost use Rattle.text_streams.specs.Positions.{place};
ghost use Rattle.text_streams.specs.Streams.{IsStart, ReadsStart};

use crate::faults::{ParseFault, ParseResult, TextError};
use crate::position::Position;
use ir_locations::{Location, Source};
use std::alloc::AllocError;

/// A text that is read from its start, and a state that parsers use.
#[derive(Drop)]
pub struct StateStream<'a, S> {
    /// Where it is.
    pub position: Position<'a>,
    /// What parsers keep.
    pub state: S,
}

impl<'a, S> StateStream<'a, S> {
    /// A stream at the start of a text.
    pub fn new(text: &'a str, state: S) -> StateStream<'a, S>
        ensures { IsStart (chars text.now) state result }
    {
        StateStream {
            position: Position::start(text),
            state,
        }
    }

    /// A fault at which the stream is, before which nothing was read.
    pub fn fault(&self, cause: TextError) -> ParseFault
        ensures here { place self.now.position ≡ (result.line, result.column) }
        ensures cause { result.cause ≡ cause }
        ensures unconsumed { result.consumed ≡ false }
    {
        ParseFault {
            line: self.position.line(),
            column: self.position.column(),
            cause,
            consumed: false,
        }
    }
}

/// Something that knows where in a source it is.
pub trait StreamLocation {
    /// The line and column where it is.
    ghost line_and_column: { Self → ℕ × ℕ };

    /// Where it is, in a text without a name.
    fn loc<A>(&self) -> Location<A>
        ensures { IsPlaceInMemory (line_and_column self.now) result };
}

impl<S> StreamLocation for StateStream<'_, S> {
    ghost line_and_column = { λ stream. place stream.position };

    fn loc<A>(&self) -> Location<A> {
        Location::SrcPos {
            source: Source::InMemory,
            line: self.position.line(),
            column: self.position.column(),
        }
    }
}

/// What a parser reads at the start of a text. What follows isn't looked at.
pub fn parse_from_str<S: Drop, T, F: FnOnce(&mut StateStream<'_, S>) -> ParseResult<T>>(
    text: &str,
    state: S,
    parser: F,
) -> ParseResult<T>
    requires { F.IsAlwaysCallable parser }
    ensures { ReadsStart F.FnOnce parser (chars text.now) state result }
{
    let mut stream = StateStream::new(text, state);
    parser(&mut stream)
}

/// A stream over the characters of a finite iterator, which are put into an empty text first.
pub fn state_stream_from_iterator<'a, S: Drop, I: Iterator<Item = char> + Drop>(
    text: &'a mut String,
    characters: I,
    state: S,
) -> Result<StateStream<'a, S>, AllocError>
    requires can { I.can_next characters }
    requires finite { IsFinite (I.remaining characters) }
    requires empty { string_bytes text.old ≡ [] }
    ensures { IfOk result (λ stream. (cs : List ℕ) × Drains I.next_gives characters cs × IsStart (chars (encode_utf8_all cs)) state stream) }
{
    for character in characters {
        text.push(character)?;
    }
    Ok(StateStream::new(text.as_str(), state))
}
