//! Calls of parsers, and what they have to leave.
ghost use Rattle.std.specs.Prelude.{◌≡◌, ◌≤◌, ◌<◌, MatchResult};
ghost use Rattle.text_streams.specs.Positions.{bytes_left};
ghost use Rattle.text_streams.specs.declared.faults.TextError.TheVariants.{Syntax};
ghost use Rattle.text_locations.specs.Locations.{Answers};

use text_streams::{ParseResult, StateStream, TextError};

/// Calls a parser.
pub fn call<S, A, F: FnMut(&mut StateStream<'_, S>) -> ParseResult<A>>(
    stream: &mut StateStream<'_, S>,
    attribute: &mut F,
) -> ParseResult<A>
    requires { (f : F) (x : _) → F.pre f x }
    ensures { Answers F.FnMut (attribute.old, stream.old) result (attribute.new, stream.new) }
{
    attribute(stream)
}

/// Refuses a stream of which no less is left to be read than there was.
pub fn needs_less<S>(left: usize, stream: &StateStream<'_, S>) -> ParseResult<()>
    ensures { MatchResult result (λ _. bytes_left stream.now.position < left)
        (λ fault. (fault.cause ≡ Syntax) × (left ≤ bytes_left stream.now.position)) }
{
    if stream.position.bytes_left() < left {
        Ok(())
    } else {
        Err(stream.fault(TextError::Syntax))
    }
}
