//! The flat form of functions: values, blocks and functions are numbers.

use kit_ops::{Arithmetic, Comparison};

/// A block that a branch may go on to, and the values that are forwarded to its arguments.
#[derive(Drop)]
pub struct FlatEdge {
    pub target: usize,
    pub operands: Vec<usize>,
}

/// An operation.
#[derive(Drop)]
pub enum Instruction {
    /// The result is a known number.
    Constant {
        result: usize,
        number: u64,
    },
    /// The result is that of arithmetic on numbers of so many bits.
    Calculate {
        function: Arithmetic,
        width: u32,
        result: usize,
        left: usize,
        right: usize,
    },
    /// The result is one bit, whether two numbers compare so.
    Compare {
        function: Comparison,
        result: usize,
        left: usize,
        right: usize,
    },
    /// Emits a number.
    Emit(usize),
    /// Calls a function of the module.
    Call {
        results: Vec<usize>,
        callee: usize,
        operands: Vec<usize>,
    },
    /// Goes on to a block.
    Br(FlatEdge),
    /// Goes on along the first edge if the condition isn't 0, else along the second.
    CondBr {
        condition: usize,
        taken: FlatEdge,
        otherwise: FlatEdge,
    },
    /// Leaves the function with values.
    Return(Vec<usize>),
}

/// A block: its arguments, and its instructions in order.
#[derive(Drop)]
pub struct FlatBlock {
    pub arguments: Vec<usize>,
    pub instructions: Vec<Instruction>,
}

/// A function: how many values it has, and its blocks, the entry first.
#[derive(Drop)]
pub struct FlatFunction {
    pub values: usize,
    pub blocks: Vec<FlatBlock>,
}

/// The functions of a module, which may call each other.
#[derive(Drop)]
pub struct FlatModule {
    pub functions: Vec<FlatFunction>,
}
