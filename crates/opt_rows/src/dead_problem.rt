//! Operations and block arguments as dead code elimination sees them, by numbers.

use crate::dead_candidates::Candidates;

/// What defines a value.
#[derive(Clone, Copy)]
pub enum Definer {
    /// The operation with this number, of which it is a result.
    Result(usize),
    /// It is the argument with this number.
    Argument(usize),
    /// It comes from outside.
    Outside,
}

/// An operand.
#[derive(Clone, Copy)]
pub struct Operand {
    /// What defines the value that it names.
    pub definer: Definer,
    /// The argument that it is forwarded to.
    pub argument: Option<usize>,
}

/// A block argument.
#[derive(Clone, Copy)]
pub struct Argument {
    /// Whether nothing but uses keeps it.
    pub may_go: bool,
    /// The operation that its block is in, if that is not the root.
    pub around: Option<usize>,
}

/// All operations and block arguments below a root.
#[derive(Drop)]
pub struct DeadProblem {
    /// The operations, each behind those that it is in.
    pub operations: Candidates,
    /// The arguments of all blocks.
    pub arguments: Vec<Argument>,
    /// What defines the values that are used from outside or by the root itself.
    pub kept: Vec<Definer>,
}

/// What is dead.
#[derive(Drop)]
pub struct DeadItems {
    /// Of each operation, whether it is dead.
    pub operations: Vec<bool>,
    /// Of each argument, whether it is dead.
    pub arguments: Vec<bool>,
}
