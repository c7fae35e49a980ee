//! Reading to the end, and from bytes to characters.
ghost use Rattle.std.specs.Prelude.{◌≡◌, List, ℕ, MatchResult, IsErrAnd, false};
ghost use Rattle.ir_characters.specs.Texts.{owned_codes};
ghost use Rattle.irkit_streams.specs.Streams.{has_failed};
ghost use Rattle.irkit_streams.specs.Ends.{EndsReading, Decodes};

use crate::faults::{DecodeFault, ReadFault};
use crate::watched::Watched;
use ir_characters::Characters;
use std::alloc::Global;
use std::io::Read;

const CHUNK: usize = 65536;

/// Reads to the reader's end, and gives all bytes that it gave.
/// It makes at most `turns` calls: `Read` comes where one failed, or else only where so many were made and each gave a
/// byte at least. `Memory` where the bytes found no room.
pub fn read_to_end<R: Read>(
    alloc: Global,
    reader: &mut Watched<R>,
    turns: u64,
) -> Result<Vec<u8>, ReadFault>
    requires { has_failed reader.old ≡ false }
    ensures { EndsReading R.remaining reader.old reader.new turns (λ v. v.items) result }
{
    let mut bytes = Vec::new(alloc);
    let mut chunk = [0u8; CHUNK];
    'reading: for _turn in 0..turns {
        match reader.read(&mut chunk) {
            Ok(0) => return Ok(bytes),
            Ok(n) => bytes.extend_from_slice(&chunk[..n])?,
            Err(_) => return Err(ReadFault::Read),
        }
    }
    Err(ReadFault::Read)
}

/// The characters of these bytes, or the first byte that isn't part of valid UTF-8.
/// `Memory` where the characters found no room.
/// Bytes that are all ASCII, as in most inputs, are their own characters, and are kept as they are.
pub fn decode(alloc: Global, bytes: Vec<u8>) -> Result<Characters, DecodeFault>
    ensures { Decodes bytes.items owned_codes result }
{
    if bytes.is_ascii() {
        return Ok(Characters::Bytes(bytes));
    }
    match std::str::from_utf8(&bytes) {
        Ok(text) => Ok(Characters::from_str(alloc, text)?),
        Err(e) => Err(DecodeFault::NotUtf8(e.valid_up_to())),
    }
}
