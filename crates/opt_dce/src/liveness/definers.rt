//! The numbers of what defines a value and of what stands around.
ghost use Rattle.std.specs.Prelude.{IsSome};
ghost use Rattle.ir_program.specs.Program.{block_at, operation_at};
ghost use Rattle.opt_inside.specs.Numbered.{numbers_of};
ghost use Rattle.opt_dce.specs.liveness.Problems.{IsNumberOfHolder, IsAroundOperation, IsDefiner};

use crate::liveness::numbers::{operation_number, value_number};
use ir_program::{BasicBlock, DefiningEntity, Operation, Program, Ptr, Value};
use opt_inside::Inside;
use opt_rows::Definer;

/// What defines a value.
pub(crate) fn definer_of(inside: &Inside, value: Value) -> Definer
    ensures { IsDefiner (numbers_of inside.now) value result }
{
    match value.definer() {
        DefiningEntity::Op(op) => match operation_number(inside, op) {
            Some(number) => Definer::Result(number),
            None => Definer::Outside,
        },
        DefiningEntity::Block(_) => match value_number(inside, value) {
            Some(number) => Definer::Argument(number),
            None => Definer::Outside,
        },
    }
}

/// The number of the operation that a block is directly in, if that has one.
pub(crate) fn around_block<O, B>(
    program: &Program<O, B>,
    inside: &Inside,
    block: Ptr<BasicBlock>,
) -> Option<usize>
    requires { IsSome (block_at program.now block) }
    ensures { IsNumberOfHolder program.now (numbers_of inside.now) block result }
{
    program.know_lists();
    let Some(region) = program.parent_region(block) else {
        return None;
    };
    operation_number(inside, program.parent_operation(region))
}

/// The number of the operation that an operation is directly in, if that has one.
pub(crate) fn around_operation<O, B>(
    program: &Program<O, B>,
    inside: &Inside,
    op: Ptr<Operation>,
) -> Option<usize>
    requires { IsSome (operation_at program.now op) }
    ensures { IsAroundOperation program.now (numbers_of inside.now) op result }
{
    let Some(block) = program.parent_block(op) else {
        return None;
    };
    around_block(program, inside, block)
}
