//! Why something isn't accepted.
use std::fmt::Debug;
use thiserror::Error;

/// What is wrong with a block.
#[derive(Clone, Copy, Debug, PartialEq, Eq, Error)]
pub enum BasicBlockVerifyErr {
    /// The block has no last operation, or one that is no terminator.
    #[error("the block has no terminator")]
    MissingTerminator,
    /// A terminator isn't the last operation of its block.
    #[error("the terminator is not the last operation of its block")]
    TerminatorNotLast,
    /// The block stands in no region.
    #[error("no region holds the block")]
    NoParent,
}

/// Why something isn't accepted.
#[derive(Debug, Drop, Error)]
pub enum VerifyErr<F: Debug + Drop> {
    /// A block ends badly.
    #[error("{0}")]
    Block(BasicBlockVerifyErr),
    /// One of the dialect's own tests refuses.
    #[error("{0:?}")]
    Own(F),
}
