//! Values and blocks by number.
ghost use Rattle.std.specs.Prelude.{◌≡◌, IfOk, OnOk, IsSome, map};
ghost use Rattle.ir_program.specs.Program.{operation_at, block_at, results_at, arguments_at};
ghost use Rattle.ir_program.specs.Lists.{regions_in};
ghost use Rattle.ir_program.specs.Rows.{operands_at};
ghost use Rattle.opt_inside.specs.Numbered.{numbers_of};
ghost use Rattle.opt_inside.specs.facts.Problem.{value_number, block_number, values_of, entries_in};

use crate::Inside;
use ir_program::{BasicBlock, Operation, Program, Ptr, Value};
use std::alloc::{AllocError, Global};

/// The number of a value: for each that comes from outside the one behind those of the values inside.
fn number_of_value(inside: &Inside, value: Value) -> usize
    ensures { result ≡ value_number (numbers_of inside.now) value }
{
    match inside.values.get_index_of(value) {
        Some(number) => number,
        None => inside.values.len(),
    }
}

/// The number of a block that is inside.
pub(crate) fn number_of_block(inside: &Inside, block: Ptr<BasicBlock>) -> usize
    ensures { result ≡ block_number (numbers_of inside.now) block }
{
    match inside.blocks.get_index_of(&block) {
        Some(number) => number,
        None => inside.blocks.len(),
    }
}

/// Puts the numbers of the operands of an operation into a list, in place of what is in it.
pub(crate) fn operand_numbers<O, B>(
    program: &Program<O, B>,
    inside: &Inside,
    op: Ptr<Operation>,
    row: &mut Vec<usize>,
) -> Result<(), AllocError>
    requires { IsSome (operation_at program.now op) }
    ensures { OnOk result (row.new.items ≡ map (value_number (numbers_of inside.now)) (operands_at program.now op)) }
{
    row.clear();
    for i in 0..program.operand_count(op) {
        row.push(number_of_value(inside, program.operand(op, i)))?;
    }
    Ok(())
}

/// Puts the numbers of the results of an operation into a list, in place of what is in it.
pub(crate) fn result_numbers<O, B>(
    program: &Program<O, B>,
    inside: &Inside,
    op: Ptr<Operation>,
    row: &mut Vec<usize>,
) -> Result<(), AllocError>
    requires { IsSome (operation_at program.now op) }
    ensures { OnOk result (row.new.items ≡ map (value_number (numbers_of inside.now))
        (values_of (results_at program.now op))) }
{
    row.clear();
    for i in 0..program.result_count(op) {
        row.push(number_of_value(inside, program.result(op, i)))?;
    }
    Ok(())
}

/// The numbers of the arguments of a block.
pub(crate) fn argument_numbers<O, B>(
    alloc: Global,
    program: &Program<O, B>,
    inside: &Inside,
    block: Ptr<BasicBlock>,
) -> Result<Vec<usize>, AllocError>
    requires { IsSome (block_at program.now block) }
    ensures { IfOk result (λ row. row.items ≡ map (value_number (numbers_of inside.now))
        (values_of (arguments_at program.now block))) }
{
    let mut row = Vec::with_capacity(alloc, program.argument_count(block))?;
    for i in 0..program.argument_count(block) {
        row.push(number_of_value(inside, program.argument(block, i)))?;
    }
    Ok(row)
}

/// Puts the numbers of the entry blocks of the regions of an operation into a list, in place of what is in it.
pub(crate) fn entry_numbers<O, B>(
    program: &Program<O, B>,
    inside: &Inside,
    op: Ptr<Operation>,
    row: &mut Vec<usize>,
) -> Result<(), AllocError>
    requires { IsSome (operation_at program.now op) }
    ensures { OnOk result (row.new.items ≡ map (block_number (numbers_of inside.now))
        (entries_in program.now (regions_in program.now op))) }
{
    program.know_lists();
    row.clear();
    for region in program.regions(op) {
        if let Some(block) = program.first_block(region) {
            row.push(number_of_block(inside, block))?;
        }
    }
    Ok(())
}
