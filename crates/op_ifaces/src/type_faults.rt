//! Faults that interfaces on types share.
use ir_names::TypeInterface;
use thiserror::Error;

/// There is no operand at an index, among so many.
#[derive(Clone, Copy, Debug, PartialEq, Eq, Error)]
#[error("expected an operand {0}, but found {1} operands")]
pub struct NotEnoughOperandsErr(pub usize, pub usize);

/// There is no result at an index, among so many.
#[derive(Clone, Copy, Debug, PartialEq, Eq, Error)]
#[error("expected a result {0}, but found {1} results")]
pub struct NotEnoughResultsErr(pub usize, pub usize);

/// A type doesn't implement the interface.
#[derive(Clone, Copy, Debug, PartialEq, Eq, Error)]
pub enum TypeInterfaceImplsErr {
    /// The type of an operand.
    #[error("expected the type of the operand to implement {0:?}")]
    Operand(TypeInterface),
    /// The type of a result.
    #[error("expected the type of the result to implement {0:?}")]
    Result(TypeInterface),
}
