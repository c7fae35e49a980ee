//! The values and blocks of a function by number.
ghost use Rattle.std.specs.Prelude.{◌≡◌, IfOk, IsSome, map};
ghost use Rattle.ir_program.specs.Program.{operation_at, block_at, region_at, results_at, arguments_at};
ghost use Rattle.ir_program.specs.Lists.{blocks_in};
ghost use Rattle.ir_program.specs.Rows.{operands_at, successors_at};
ghost use Rattle.kit_places.specs.Numbers.{value_number, block_number, values_of};

use indexmap::IndexSet;
use ir_program::{BasicBlock, Operation, Program, Ptr, Region, Value};
use opt_inside::NumberedList;
use std::alloc::{AllocError, Global};

/// The blocks of a region, in order: the index of each is its number.
pub(crate) fn number_blocks<O, B>(
    alloc: Global,
    program: &Program<O, B>,
    region: Ptr<Region>,
) -> Result<IndexSet<Ptr<BasicBlock>>, AllocError>
    requires { IsSome (region_at program.now region) }
    ensures { IfOk result (λ blocks. blocks.keys ≡ blocks_in program.now region) }
{
    program.know_lists();
    let mut blocks = IndexSet::new(alloc);
    for block in program.blocks(region) {
        blocks.insert(block)?;
    }
    Ok(blocks)
}

/// The number of a value: for one that has none that behind all others.
fn number_of_value(values: &NumberedList<Value>, value: Value) -> usize
    ensures { result ≡ value_number values.now.keys value }
{
    match values.get_index_of(value) {
        Some(number) => number,
        None => values.len(),
    }
}

/// The number of a block: for one that has none that behind all others.
fn number_of_block(blocks: &IndexSet<Ptr<BasicBlock>>, block: Ptr<BasicBlock>) -> usize
    ensures { result ≡ block_number blocks.now.keys block }
{
    match blocks.get_index_of(&block) {
        Some(number) => number,
        None => blocks.len(),
    }
}

/// The numbers of the operands of an operation.
pub(crate) fn operand_numbers<O, B>(
    alloc: Global,
    program: &Program<O, B>,
    values: &NumberedList<Value>,
    op: Ptr<Operation>,
) -> Result<Vec<usize>, AllocError>
    requires { IsSome (operation_at program.now op) }
    ensures { IfOk result (λ row. row.items ≡ map (value_number values.now.keys) (operands_at program.now op)) }
{
    let mut row = Vec::new(alloc);
    for i in 0..program.operand_count(op) {
        row.push(number_of_value(values, program.operand(op, i)))?;
    }
    Ok(row)
}

/// The numbers of the results of an operation.
pub(crate) fn result_numbers<O, B>(
    alloc: Global,
    program: &Program<O, B>,
    values: &NumberedList<Value>,
    op: Ptr<Operation>,
) -> Result<Vec<usize>, AllocError>
    requires { IsSome (operation_at program.now op) }
    ensures { IfOk result (λ row. row.items ≡ map (value_number values.now.keys)
        (values_of (results_at program.now op))) }
{
    let mut row = Vec::new(alloc);
    for i in 0..program.result_count(op) {
        row.push(number_of_value(values, program.result(op, i)))?;
    }
    Ok(row)
}

/// The numbers of the arguments of a block.
pub(crate) fn argument_numbers<O, B>(
    alloc: Global,
    program: &Program<O, B>,
    values: &NumberedList<Value>,
    block: Ptr<BasicBlock>,
) -> Result<Vec<usize>, AllocError>
    requires { IsSome (block_at program.now block) }
    ensures { IfOk result (λ row. row.items ≡ map (value_number values.now.keys)
        (values_of (arguments_at program.now block))) }
{
    let mut row = Vec::new(alloc);
    for i in 0..program.argument_count(block) {
        row.push(number_of_value(values, program.argument(block, i)))?;
    }
    Ok(row)
}

/// The numbers of the successors of an operation.
pub(crate) fn successor_numbers<O, B>(
    alloc: Global,
    program: &Program<O, B>,
    blocks: &IndexSet<Ptr<BasicBlock>>,
    op: Ptr<Operation>,
) -> Result<Vec<usize>, AllocError>
    requires { IsSome (operation_at program.now op) }
    ensures { IfOk result (λ row. row.items ≡ map (block_number blocks.now.keys) (successors_at program.now op)) }
{
    let mut row = Vec::new(alloc);
    for i in 0..program.successor_count(op) {
        row.push(number_of_block(blocks, program.successor(op, i)))?;
    }
    Ok(row)
}
