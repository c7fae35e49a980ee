//! Why something that grows couldn't.
ghost use Rattle.std.specs.Prelude.{◌≡◌};

use std::alloc::{AllocError, AllocFailed};
use thiserror::Error;

/// Why nothing new was made.
#[derive(Clone, Copy, Debug, PartialEq, Eq, Error)]
pub enum GrowError {
    /// There is no memory.
    #[error("out of memory")]
    Memory,
    /// A counter is at its greatest number.
    #[error("counter full")]
    CounterFull,
}

impl From<AllocError> for GrowError {
    ghost use Rattle.ir_base.specs.declared.growth.GrowError.TheVariants.{Memory};

    ghost from_gives = { λ _ e. e ≡ Memory };

    fn from(_error: AllocError) -> GrowError {
        GrowError::Memory
    }
}

impl<T: Drop> From<AllocFailed<T>> for GrowError {
    ghost use Rattle.ir_base.specs.declared.growth.GrowError.TheVariants.{Memory};

    ghost from_gives = { λ _ e. e ≡ Memory };

    fn from(_error: AllocFailed<T>) -> GrowError {
        GrowError::Memory
    }
}
