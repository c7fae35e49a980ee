//! Why a handle isn't one of what was asked for.
use ir_names::{TypeId, TypeInterface};
use thiserror::Error;

/// The type is of another kind.
#[derive(Clone, Copy, Debug, PartialEq, Eq, Error)]
#[error("expected a type {expected}, found {found}")]
pub struct TypedHandleErr {
    /// The kind that was asked for.
    pub expected: TypeId,
    /// The kind that the type is of.
    pub found: TypeId,
}

/// The type doesn't implement the interface.
#[derive(Clone, Copy, Debug, PartialEq, Eq, Error)]
#[error("type {found} does not implement {interface:?}")]
pub struct TypeInterfaceHandleErr {
    /// The interface that was asked for.
    pub interface: TypeInterface,
    /// The kind that the type is of.
    pub found: TypeId,
}
