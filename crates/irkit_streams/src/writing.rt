//! Writing a text.
ghost use Rattle.std.specs.Prelude.{◌≡◌, ◌<◌, ◌≤◌, [], false, true, length, take, MatchOption};
ghost use Rattle.irkit_streams.specs.Streams.{has_failed, Took};
ghost use Rattle.irkit_streams.specs.Ends.{EndsWriting};

use crate::faults::WriteFault;
use crate::watched::Watched;
use std::io::Write;

/// Writes the whole text, by calls that may each take a part. Nothing is tried again: a write that fails or takes none
/// ends it, and the fault says how many bytes, exactly the first of the text, were taken.
pub fn write_text<W: Write>(writer: &mut Watched<W>, text: &[u8]) -> Result<(), WriteFault>
    requires { has_failed writer.old ≡ false }
    ensures { EndsWriting W.contents writer.old writer.new text.now result }
{
    let mut taken = 0;
    while taken < text.len() {
        match write_some(writer, &text[taken..]) {
            None => return Err(WriteFault { taken }),
            Some(n) => taken += n,
        }
    }
    Ok(())
}

/// One write: how many bytes it took, or nothing where it failed or took none.
fn write_some<W: Write>(writer: &mut Watched<W>, rest: &[u8]) -> Option<usize>
    requires { has_failed writer.old ≡ false }
    ensures { MatchOption result (Took W.contents writer.old writer.new [] × (has_failed writer.new ≡ true))
        (λ n. (0 < n) × (n ≤ length rest.now) × Took W.contents writer.old writer.new (take n rest.now)
        × (has_failed writer.new ≡ false)) }
{
    match writer.write(rest) {
        Ok(0) => None,
        Ok(n) => Some(n),
        Err(_) => None,
    }
}
