//! Why a text isn't read, and where.
ghost use Rattle.std.specs.Prelude.{◌≡◌};

use std::alloc::{AllocError, AllocFailed};
use text_streams::{Position, TextError};

/// Why an attribute isn't read.
#[derive(Clone, Copy)]
pub enum ReadFault<'a> {
    Memory,
    /// This is wrong, at this place.
    Text(TextError, Position<'a>),
}

impl From<AllocError> for ReadFault<'_> {
    ghost use Rattle.outline_values.specs.declared.faults.ReadFault.TheVariants.{Memory};

    ghost from_gives = { λ _ e. e ≡ Memory };

    fn from(_refused: AllocError) -> Self {
        ReadFault::Memory
    }
}

impl<T: Drop> From<AllocFailed<T>> for ReadFault<'_> {
    ghost use Rattle.outline_values.specs.declared.faults.ReadFault.TheVariants.{Memory};

    ghost from_gives = { λ _ e. e ≡ Memory };

    fn from(_refused: AllocFailed<T>) -> Self {
        ReadFault::Memory
    }
}

/// A syntax fault at what is at a place.
pub fn syntax_at<'a>(place: Position<'a>) -> ReadFault<'a> {
    ReadFault::Text(TextError::Syntax, place)
}

/// No text goes on with the token that comes next at a place.
pub fn syntax<'a>(at: Position<'a>) -> ReadFault<'a> {
    syntax_at(at.skip_spaces())
}
