//! Why a call on a context is refused.
ghost use Rattle.std.specs.Prelude.{◌≡◌};

use ir_names::{AttrInterface, GrowError, InvalidIdentifier};
use ir_types::{TypeInterfaceHandleErr, TypedHandleErr};
use std::alloc::AllocError;
use std::fmt;
use thiserror::Error;

/// The handle leads nowhere.
#[derive(Clone, Copy, Debug, PartialEq, Eq, Error)]
#[error("the handle leads nowhere")]
pub struct DanglingPtrDerefError;

/// No attribute stands under the name, or the one that does doesn't implement the interface.
#[derive(Clone, Copy, Debug, PartialEq, Eq, Error)]
#[error("no attribute that implements {interface:?}")]
pub struct AttrInterfaceCastErr {
    /// The interface that was asked for.
    pub interface: AttrInterface,
}

/// The value does not stand at its definer.
#[derive(Clone, Copy, Debug, PartialEq, Eq, Error)]
pub enum ValueError {
    /// The value is no result of the operation that defined it.
    #[error("the value is no result of its operation")]
    NotInOpResult,
    /// The value is no argument of the block that defined it.
    #[error("the value is no argument of its block")]
    NotInBlockArgument,
}

/// The use does not stand.
#[derive(Clone, Copy, Debug, PartialEq, Eq, Error)]
pub enum DefUseVerifyErr {
    /// The operand names another definition.
    #[error("the operand is no use of the definition")]
    OperandNotUseOfDef,
}

/// Why a call on a context is refused.
#[derive(Clone, Copy, Debug, PartialEq, Eq, Error)]
pub enum CoreError {
    /// There is no memory.
    Memory,
    /// A counter is at its greatest number.
    CounterFull,
    /// The handle leads nowhere.
    DanglingPtrDeref,
    /// The type is of another kind.
    TypedHandle,
    /// The type doesn't implement the interface.
    TypeInterfaceHandle,
    /// The attribute doesn't implement the interface.
    AttrInterfaceCast,
    /// The value is no result of the operation that defined it.
    NotInOpResult,
    /// The value is no argument of the block that defined it.
    NotInBlockArgument,
    /// The operand names another definition.
    OperandNotUseOfDef,
    /// The block has no terminator.
    MissingTerminator,
    /// The terminator isn't the last operation of its block.
    TerminatorNotLast,
    /// The entity stands in nothing.
    NoParent,
    /// The text is no identifier.
    InvalidIdentifier,
    /// The edit isn't allowed here.
    EditNotAllowed,
}

impl CoreError {
    ghost use Rattle.ir_context.specs.Refusals.{refusal_number};

    /// The number of the refusal, from 1 on.
    pub fn number(&self) -> u8
        ensures { result ≡ refusal_number self.now }
    {
        match self {
            CoreError::Memory => 1,
            CoreError::CounterFull => 2,
            CoreError::DanglingPtrDeref => 3,
            CoreError::TypedHandle => 4,
            CoreError::TypeInterfaceHandle => 5,
            CoreError::AttrInterfaceCast => 6,
            CoreError::NotInOpResult => 7,
            CoreError::NotInBlockArgument => 8,
            CoreError::OperandNotUseOfDef => 9,
            CoreError::MissingTerminator => 10,
            CoreError::TerminatorNotLast => 11,
            CoreError::NoParent => 12,
            CoreError::InvalidIdentifier => 13,
            CoreError::EditNotAllowed => 14,
        }
    }

    /// What is said of the refusal.
    fn message(&self) -> &'static str {
        match self {
            CoreError::Memory => "out of memory",
            CoreError::CounterFull => "counter full",
            CoreError::DanglingPtrDeref => "the handle leads nowhere",
            CoreError::TypedHandle => "the type is of another kind",
            CoreError::TypeInterfaceHandle => "the type does not implement the interface",
            CoreError::AttrInterfaceCast => "the attribute does not implement the interface",
            CoreError::NotInOpResult => "the value is no result of its operation",
            CoreError::NotInBlockArgument => "the value is no argument of its block",
            CoreError::OperandNotUseOfDef => "the operand is no use of the definition",
            CoreError::MissingTerminator => "the block has no terminator",
            CoreError::TerminatorNotLast => "the terminator is not the last operation of its block",
            CoreError::NoParent => "nothing holds the entity",
            CoreError::InvalidIdentifier => "not an identifier",
            CoreError::EditNotAllowed => "the edit is not allowed here",
        }
    }
}

impl fmt::Display for CoreError {
    fn fmt<W: fmt::Write>(&self, f: &mut fmt::Formatter<W>) -> fmt::Result {
        f.write_str(self.message())
    }
}

impl From<AllocError> for CoreError {
    ghost use Rattle.ir_context.specs.declared.errors.CoreError.TheVariants.{Memory};

    ghost from_gives = { λ _ e. e ≡ Memory };

    fn from(_error: AllocError) -> CoreError {
        CoreError::Memory
    }
}

impl From<DanglingPtrDerefError> for CoreError {
    ghost use Rattle.ir_context.specs.declared.errors.CoreError.TheVariants.{DanglingPtrDeref};

    ghost from_gives = { λ _ e. e ≡ DanglingPtrDeref };

    fn from(_error: DanglingPtrDerefError) -> CoreError {
        CoreError::DanglingPtrDeref
    }
}

impl From<ValueError> for CoreError {
    ghost use Rattle.ir_context.specs.Refusals.{refusal_of_value};

    ghost from_gives = { λ error e. e ≡ refusal_of_value error };

    fn from(error: ValueError) -> CoreError {
        match error {
            ValueError::NotInOpResult => CoreError::NotInOpResult,
            ValueError::NotInBlockArgument => CoreError::NotInBlockArgument,
        }
    }
}

impl From<DefUseVerifyErr> for CoreError {
    ghost use Rattle.ir_context.specs.declared.errors.CoreError.TheVariants.{OperandNotUseOfDef};

    ghost from_gives = { λ _ e. e ≡ OperandNotUseOfDef };

    fn from(error: DefUseVerifyErr) -> CoreError {
        match error {
            DefUseVerifyErr::OperandNotUseOfDef => CoreError::OperandNotUseOfDef,
        }
    }
}

impl From<InvalidIdentifier> for CoreError {
    ghost use Rattle.ir_context.specs.declared.errors.CoreError.TheVariants.{InvalidIdentifier};

    ghost from_gives = { λ _ e. e ≡ InvalidIdentifier };

    fn from(_error: InvalidIdentifier) -> CoreError {
        CoreError::InvalidIdentifier
    }
}

impl From<TypedHandleErr> for CoreError {
    ghost use Rattle.ir_context.specs.declared.errors.CoreError.TheVariants.{TypedHandle};

    ghost from_gives = { λ _ e. e ≡ TypedHandle };

    fn from(_error: TypedHandleErr) -> CoreError {
        CoreError::TypedHandle
    }
}

impl From<TypeInterfaceHandleErr> for CoreError {
    ghost use Rattle.ir_context.specs.declared.errors.CoreError.TheVariants.{TypeInterfaceHandle};

    ghost from_gives = { λ _ e. e ≡ TypeInterfaceHandle };

    fn from(_error: TypeInterfaceHandleErr) -> CoreError {
        CoreError::TypeInterfaceHandle
    }
}

impl From<AttrInterfaceCastErr> for CoreError {
    ghost use Rattle.ir_context.specs.declared.errors.CoreError.TheVariants.{AttrInterfaceCast};

    ghost from_gives = { λ _ e. e ≡ AttrInterfaceCast };

    fn from(_error: AttrInterfaceCastErr) -> CoreError {
        CoreError::AttrInterfaceCast
    }
}

impl From<GrowError> for CoreError {
    ghost use Rattle.ir_context.specs.Refusals.{refusal_of_growth};

    ghost from_gives = { λ error e. e ≡ refusal_of_growth error };

    fn from(error: GrowError) -> CoreError {
        match error {
            GrowError::Memory => CoreError::Memory,
            GrowError::CounterFull => CoreError::CounterFull,
        }
    }
}
