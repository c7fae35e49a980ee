//! Why an entry isn't taken, and why a mark leads to nothing.
use std::alloc::{AllocError, AllocFailed};
use thiserror::Error;

/// Why an entry isn't taken, or what a mark leads to isn't told.
#[derive(Clone, Copy, Debug, PartialEq, Eq, Error)]
pub enum OutlineError {
    /// There is an entry with this index.
    #[error("an index of the section is there twice")]
    OutlineRedefined,
    /// The mark of an item leads to no entry in brackets.
    #[error("unknown outline")]
    UnknownOutline,
    /// In the entry that the mark leads to, the mark under the key with this number, from 0, leads to no single attribute. It is the
    /// first such one there.
    #[error("unknown outline in an entry")]
    UnknownInEntry(usize),
    /// Memory was refused.
    #[error("out of memory")]
    Memory,
}

impl From<AllocError> for OutlineError {
    ghost use Rattle.std.specs.Prelude.{◌≡◌};
    ghost use Rattle.outline_tables.specs.declared.errors.OutlineError.TheVariants.{Memory};

    ghost from_gives = { λ _ e. e ≡ Memory };

    fn from(_refused: AllocError) -> OutlineError {
        OutlineError::Memory
    }
}

impl<T: Drop> From<AllocFailed<T>> for OutlineError {
    ghost use Rattle.std.specs.Prelude.{◌≡◌};
    ghost use Rattle.outline_tables.specs.declared.errors.OutlineError.TheVariants.{Memory};

    ghost from_gives = { λ _ e. e ≡ Memory };

    fn from(_refused: AllocFailed<T>) -> OutlineError {
        OutlineError::Memory
    }
}
