//! Why a text isn't read, and where.
ghost use Rattle.std.specs.Prelude.{◌≡◌};

use std::alloc::AllocError;
use thiserror::Error;

/// Why a text isn't read.
#[derive(Clone, Copy, Debug, PartialEq, Eq, Error)]
pub enum TextError {
    /// Memory was refused.
    #[error("out of memory")]
    Memory,
    /// A counter of a context is at its greatest number.
    #[error("too many values")]
    CounterFull,
    /// No text of the grammar goes on so.
    #[error("syntax error")]
    Syntax,
    /// Parts stand in one another too deep.
    #[error("too deep")]
    TooDeep,
    /// What is named is nowhere in its scope.
    #[error("unresolved reference")]
    UnresolvedReference,
    /// A name is defined twice in its scope.
    #[error("multiple definitions")]
    MultipleDefinitions,
    /// A region of the root sees names from outside.
    #[error("a region of the root isn't isolated from above")]
    TopLevelOpRegionNotIsolatedFromAbove,
    /// A mark has no entry.
    #[error("unknown outline")]
    UnknownOutline,
    /// An index has two entries.
    #[error("an index of the section is there twice")]
    OutlineRedefined,
    /// A key is there twice.
    #[error("an attribute is there twice")]
    AttributeRedefined,
    /// There are more or fewer names than values.
    #[error("the given names don't match the values")]
    GivenNamesMismatch,
    /// A format can't be read by its next token alone.
    #[error("bad format")]
    BadFormat,
}

impl From<AllocError> for TextError {
    ghost use Rattle.text_streams.specs.declared.faults.TextError.TheVariants.{Memory};

    ghost from_gives = { λ _ e. e ≡ Memory };

    fn from(_refused: AllocError) -> TextError {
        TextError::Memory
    }
}

/// Why a text isn't read, and where: line and column, each from 1.
#[derive(Clone, Copy, Debug, PartialEq, Eq)]
pub struct ParseFault {
    pub line: u64,
    pub column: u64,
    pub cause: TextError,
    /// Whether characters were read before the fault.
    pub consumed: bool,
}

/// What was read, or why it wasn't.
pub type ParseResult<T> = Result<T, ParseFault>;
