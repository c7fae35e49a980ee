//! A law on what is printed and what is read.
ghost use Rattle.std.specs.Prelude.{◌≡◌, MatchResult};
ghost use Rattle.std.specs.String.{string_bytes};
ghost use Rattle.text_streams.specs.declared.faults.TextError.TheVariants.{Memory};

use crate::printable::Printable;
use crate::quotes::quoted;
use crate::state::State;
use std::alloc::Global;
use text_streams::{StateStream, TextError, quoted_string_parse};

/// Law: what `quoted` prints of a text is read by `quoted_string_parse` as that text, whatever follows.
pub fn quoted_is_read_again(alloc: Global, text: &str, rest: &str) -> Result<String, TextError>
    ensures { MatchResult result (λ said. string_bytes said ≡ text.now) (λ cause. cause ≡ Memory) }
{
    let mut printed = String::new(alloc);
    quoted(text).fmt(&(), &mut State::new(), &mut printed)?;
    printed.push_str(rest)?;
    let mut stream = StateStream::new(printed.as_str(), ());
    match quoted_string_parse(alloc, &mut stream) {
        Ok(said) => Ok(said),
        Err(fault) => Err(fault.cause),
    }
}
