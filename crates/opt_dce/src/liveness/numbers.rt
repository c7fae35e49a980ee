//! The numbers of operations, blocks and values inside an operation.
ghost use Rattle.opt_dce.specs.liveness.Problems.{IsNumberAmong};
ghost use Rattle.opt_inside.specs.Numbered.{numbers_of};

use ir_program::{BasicBlock, Operation, Ptr, Value};
use opt_inside::Inside;

/// The number of an operation, if it is inside.
pub(crate) fn operation_number(inside: &Inside, op: Ptr<Operation>) -> Option<usize>
    ensures { IsNumberAmong (numbers_of inside.now).operations op result }
{
    inside.operations.get_index_of(op)
}

/// The number of a block, if it is inside.
pub(crate) fn block_number(inside: &Inside, block: Ptr<BasicBlock>) -> Option<usize>
    ensures { IsNumberAmong (numbers_of inside.now).blocks block result }
{
    inside.blocks.get_index_of(&block)
}

/// The number of a value, if it is inside.
pub(crate) fn value_number(inside: &Inside, value: Value) -> Option<usize>
    ensures { IsNumberAmong (numbers_of inside.now).values value result }
{
    inside.values.get_index_of(value)
}
