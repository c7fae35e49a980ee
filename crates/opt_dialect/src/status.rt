//! Whether a pass changed anything, and why it was refused.
ghost use Rattle.std.specs.Prelude.{◌≡◌};
ghost use Rattle.opt_dialect.specs.Statuses.{either};

use ir_base::GrowError;
use std::alloc::{AllocError, AllocFailed};
use std::ops::BitOrAssign;
use thiserror::Error;

/// Whether an IR was changed.
#[derive(Clone, Copy, Debug, PartialEq, Eq, Default)]
pub enum IRStatus {
    /// Nothing was changed.
    #[default]
    Unchanged,
    /// Something was.
    Changed,
}

impl BitOrAssign for IRStatus {
    /// `Changed` where one of them is.
    fn bitor_assign(&mut self, other: IRStatus)
        ensures { self.new ≡ either self.old other }
    {
        if other == IRStatus::Changed {
            *self = IRStatus::Changed;
        }
    }
}

/// Why an optimisation, a pass or a manager of passes was refused.
#[derive(Clone, Copy, Debug, PartialEq, Eq, Error)]
pub enum OptError {
    /// No memory was left. The IR stands between two whole rewrites.
    #[error("memory")]
    Memory,
    /// A counter stood at its greatest value. The IR stands between two whole rewrites.
    #[error("counter full")]
    CounterFull,
    /// Constant propagation met an operand of which nothing is found out. Nothing was changed.
    #[error("undetermined operand")]
    UndeterminedOperand,
    /// What is left uses a value of what would go. Nothing was changed by that phase.
    #[error("live use")]
    LiveUse,
    /// A verifier refuses the operation.
    #[error("verify")]
    Verify,
    /// An edge leads out of a region below the operation, or into one. Nothing was changed.
    #[error("foreign edge")]
    ForeignEdge,
}

impl From<AllocError> for OptError {
    ghost use Rattle.opt_dialect.specs.declared.status.OptError.TheVariants.{Memory};

    ghost from_gives = { λ _ e. e ≡ Memory };

    fn from(_error: AllocError) -> OptError {
        OptError::Memory
    }
}

impl<T: Drop> From<AllocFailed<T>> for OptError {
    ghost use Rattle.opt_dialect.specs.declared.status.OptError.TheVariants.{Memory};

    ghost from_gives = { λ _ e. e ≡ Memory };

    fn from(_error: AllocFailed<T>) -> OptError {
        OptError::Memory
    }
}

impl From<GrowError> for OptError {
    ghost use Rattle.opt_dialect.specs.Statuses.{error_of};

    ghost from_gives = { λ g e. e ≡ error_of g };

    fn from(error: GrowError) -> OptError {
        match error {
            GrowError::Memory => OptError::Memory,
            GrowError::CounterFull => OptError::CounterFull,
        }
    }
}
