//! What dead code elimination takes out.

use ir_program::{BasicBlock, Operation, Ptr};

/// Operands of an operation that go.
#[derive(Drop)]
pub struct LostOperands {
    /// The operation.
    pub op: Ptr<Operation>,
    /// Of each operand, whether it goes.
    pub marks: Vec<bool>,
}

/// Arguments of a block that go.
#[derive(Drop)]
pub struct DeadArguments {
    /// The block.
    pub block: Ptr<BasicBlock>,
    /// Of each argument, whether it goes.
    pub marks: Vec<bool>,
}

/// All that goes.
#[derive(Drop)]
pub struct DeadPlan {
    /// The operations that go, each once, those that are in others too.
    pub operations: Vec<Ptr<Operation>>,
    /// The operations of which operands go, each once.
    pub operands: Vec<LostOperands>,
    /// The blocks of which arguments go, each once.
    pub arguments: Vec<DeadArguments>,
}
