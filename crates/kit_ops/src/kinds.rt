//! The kinds of operations of `kit`.

use crate::arithmetic::{Arithmetic, Comparison};

/// The kinds of operations.
#[derive(Clone, Copy, Debug, PartialEq, Eq)]
pub enum KitOp {
    /// Holds modules and functions under distinct names.
    Module,
    /// A function: blocks of which the first is entered with the arguments.
    Func,
    /// A known value.
    Constant,
    /// What stands for a value that isn't defined yet.
    ForwardRef,
    /// The result of arithmetic.
    Arithmetic(Arithmetic),
    /// The result of a comparison.
    Comparison(Comparison),
    /// Goes on to a block.
    Br,
    /// Goes on to one of two blocks, as a condition says.
    CondBr,
    /// Calls a function by its name.
    Call,
    /// Emits a number.
    Emit,
    /// Leaves the function with values.
    Return,
}
