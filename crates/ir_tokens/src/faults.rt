//! The faults of a text.
ghost use Rattle.std.specs.Prelude.{◌≡◌, ◌↔◌, IsTrue};
ghost use Rattle.ir_tokens.specs.Faults.{row, FaultPrecedes, IsFirstOf};

use ir_names::GrowError;
use std::alloc::{AllocError, AllocFailed};
use std::fmt;
use thiserror::Error;

/// Why names, labels or marks of a text can't be looked up, or its root can't stand alone.
#[derive(Clone, Copy, Debug, PartialEq, Eq)]
pub enum ScopeCause {
    MultipleDefinitions,
    UnresolvedReference,
    TopLevelOpRegionNotIsolatedFromAbove,
    OutlineRedefined,
    AttributeRedefined,
    UnknownOutline,
    GivenNamesMismatch,
}

/// A cause is displayed by its name.
impl fmt::Display for ScopeCause {
    fn fmt<W: fmt::Write>(&self, f: &mut fmt::Formatter<W>) -> fmt::Result {
        fmt::Debug::fmt(self, f)
    }
}

impl std::error::Error for ScopeCause {}

/// The kinds of fault, in the order in which those that are met at one token are named.
#[derive(Clone, Copy, Debug, PartialEq, Eq)]
pub enum FaultKind {
    /// No text of the grammar goes on with the token.
    Syntax,
    /// A number or a width is out of range.
    Number,
    /// An operation has another number of names before `=` than results.
    ResultNames,
    /// An operation takes no attribute like its own: a constant, say, has a type that its attribute gives.
    OtherConstant,
    /// More than 64 regions, types and attributes are open.
    TooDeep,
    MultipleDefinitions,
    UnresolvedReference,
    /// A root that isn't isolated from above has a region.
    TopLevelOpRegionNotIsolatedFromAbove,
}

impl FaultKind {
    /// Where the kind stands in the order.
    pub fn row(self) -> u8
        ensures { result ≡ row self }
    {
        match self {
            FaultKind::Syntax => 0,
            FaultKind::Number => 1,
            FaultKind::ResultNames => 2,
            FaultKind::OtherConstant => 3,
            FaultKind::TooDeep => 4,
            FaultKind::MultipleDefinitions => 5,
            FaultKind::UnresolvedReference => 6,
            FaultKind::TopLevelOpRegionNotIsolatedFromAbove => 7,
        }
    }
}

/// A fault of a text. Tokens are given by their numbers, from 0 on; the end of the text counts as one more.
#[derive(Clone, Copy, Debug, PartialEq, Eq)]
pub struct Fault {
    pub kind: FaultKind,
    /// The token at which it is met.
    pub met: usize,
    /// The token that is named as its place.
    pub place: usize,
}

impl Fault {
    /// Whether this fault is named where both stand: by the tokens at which they are met, then by kind, then by place.
    pub fn precedes(self, other: Fault) -> bool
        ensures { IsTrue result ↔ FaultPrecedes self other }
    {
        if self.met != other.met {
            return self.met < other.met;
        }
        if self.kind.row() != other.kind.row() {
            return self.kind.row() < other.kind.row();
        }
        self.place <= other.place
    }
}

/// Of two faults that may stand, the one that is named.
pub fn first_of(a: Option<Fault>, b: Option<Fault>) -> Option<Fault>
    ensures { IsFirstOf a b result }
{
    match (a, b) {
        (None, _) => b,
        (_, None) => a,
        (Some(f), Some(g)) => { if f.precedes(g) { a } else { b } }
    }
}

/// Why a text isn't read.
#[derive(Clone, Copy, Debug, PartialEq, Eq, Error)]
pub enum TextFault {
    #[error("memory")]
    Memory,
    #[error("counter full")]
    CounterFull,
    /// No text of the grammar goes on at this line and column, or a number there is out of range, or an operation
    /// there has a wrong number of names or takes no such attribute.
    #[error("syntax at {0}:{1}")]
    Syntax(usize, usize),
    /// The 65th of regions, types and attributes in one another begins at this line and column.
    #[error("too deep at {0}:{1}")]
    TooDeep(usize, usize),
    /// A name or label can't be looked up.
    #[error("scope at {0}:{1}: {2}")]
    Scope(usize, usize, ScopeCause),
}

impl From<AllocError> for TextFault {
    ghost use Rattle.std.specs.Prelude.{◌≡◌};
    ghost use Rattle.ir_tokens.specs.declared.faults.TextFault.TheVariants.{Memory};

    ghost from_gives = { λ _ e. e ≡ Memory };

    fn from(_error: AllocError) -> TextFault {
        TextFault::Memory
    }
}

impl<T: Drop> From<AllocFailed<T>> for TextFault {
    ghost use Rattle.std.specs.Prelude.{◌≡◌};
    ghost use Rattle.ir_tokens.specs.declared.faults.TextFault.TheVariants.{Memory};

    ghost from_gives = { λ _ e. e ≡ Memory };

    fn from(_error: AllocFailed<T>) -> TextFault {
        TextFault::Memory
    }
}

impl From<GrowError> for TextFault {
    ghost use Rattle.ir_tokens.specs.Faults.{grown};
    ghost use Rattle.std.specs.Prelude.{◌≡◌};

    ghost from_gives = { λ error fault. fault ≡ grown error };

    fn from(error: GrowError) -> TextFault {
        match error {
            GrowError::Memory => TextFault::Memory,
            GrowError::CounterFull => TextFault::CounterFull,
        }
    }
}
