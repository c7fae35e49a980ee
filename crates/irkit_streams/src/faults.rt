//! Why reading, decoding or writing ends early.
ghost use Rattle.std.specs.Prelude.{◌≡◌};

use std::alloc::AllocError;
use thiserror::Error;

/// Why a reader wasn't read to its end.
#[derive(Clone, Copy, Debug, PartialEq, Eq, Error)]
pub enum ReadFault {
    /// A read failed, or the end wasn't met in the calls that are allowed.
    #[error("read")]
    Read,
    /// A request for memory was refused.
    #[error("memory")]
    Memory,
}

/// Why bytes aren't the characters of a text.
#[derive(Clone, Copy, Debug, PartialEq, Eq, Error)]
pub enum DecodeFault {
    /// The first byte that isn't part of valid UTF-8.
    #[error("not UTF-8 at byte {0}")]
    NotUtf8(usize),
    /// A request for memory was refused.
    #[error("memory")]
    Memory,
}

/// A write failed or took none, after so many bytes of the text were taken.
#[derive(Clone, Copy, Debug, PartialEq, Eq, Error)]
#[error("write after {taken} bytes")]
pub struct WriteFault {
    pub taken: usize,
}

impl From<AllocError> for ReadFault {
    ghost use Rattle.irkit_streams.specs.declared.faults.ReadFault.TheVariants.{Memory};

    ghost from_gives = { λ _ e. e ≡ Memory };

    fn from(_e: AllocError) -> ReadFault {
        ReadFault::Memory
    }
}

impl From<AllocError> for DecodeFault {
    ghost use Rattle.irkit_streams.specs.declared.faults.DecodeFault.TheVariants.{Memory};

    ghost from_gives = { λ _ e. e ≡ Memory };

    fn from(_e: AllocError) -> DecodeFault {
        DecodeFault::Memory
    }
}
