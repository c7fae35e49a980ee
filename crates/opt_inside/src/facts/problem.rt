//! The problem of the most precise facts of what is inside an operation.
ghost use Rattle.std.specs.Prelude.{◌≡◌, [], IfOk, OnOk, IsSome};
ghost use Rattle.ir_program.specs.Program.{operation_at, block_at};
ghost use Rattle.ir_program.specs.Lists.{IsLinkedOperation};
ghost use Rattle.ir_trees.specs.Searched.{Lists};
ghost use Rattle.opt_inside.specs.Numbered.{NumbersInside, numbers_of};
ghost use Rattle.opt_inside.specs.facts.Problem.{AreArguments, AreRowsOfOperations, IsFactsProblemOf, PairsByIndex};

use crate::Inside;
use crate::facts::numbers::{argument_numbers, entry_numbers};
use crate::facts::rows::row_of;
use ir_program::{Operation, Program, Ptr};
use opt_dialect::OptDialect;
use opt_rows::{FactsProblem, OperationRows, RowBuffer};
use std::alloc::{AllocError, Global};

/// Puts the rows of the operations inside, in their order, where there are none. Each is put together in the same lists.
fn push_rows<D: OptDialect>(
    alloc: Global,
    program: &Program<D::Operation, D::Block>,
    inside: &Inside,
    row: &mut RowBuffer,
    rows: &mut OperationRows,
) -> Result<(), AllocError>
    requires linked { (p : _) → Lists inside.now.operations.keys p → IsLinkedOperation program.now p }
    requires none { rows.old ≡ [] }
    ensures { OnOk result (AreRowsOfOperations D.meaning program.now
        (numbers_of inside.now) inside.now.operations.keys rows.new) }
{
    for op in inside.operations.as_slice() {
        row_of::<D>(alloc, program, inside, *op, row)?;
        rows.push(row)?;
    }
    Ok(())
}

/// The same with lists of its own, in which each is put together.
fn add_rows<D: OptDialect>(
    alloc: Global,
    program: &Program<D::Operation, D::Block>,
    inside: &Inside,
    rows: &mut OperationRows,
) -> Result<(), AllocError>
    requires linked { (p : _) → Lists inside.now.operations.keys p → IsLinkedOperation program.now p }
    requires none { rows.old ≡ [] }
    ensures { OnOk result (AreRowsOfOperations D.meaning program.now
        (numbers_of inside.now) inside.now.operations.keys rows.new) }
{
    let mut row = RowBuffer::new(alloc)?;
    push_rows::<D>(alloc, program, inside, &mut row, rows)
}

/// The rows of the operations inside, in their order.
fn rows_of<D: OptDialect>(
    alloc: Global,
    program: &Program<D::Operation, D::Block>,
    inside: &Inside,
) -> Result<OperationRows, AllocError>
    requires { (p : _) → Lists inside.now.operations.keys p → IsLinkedOperation program.now p }
    ensures { IfOk result (λ rows. AreRowsOfOperations D.meaning program.now
        (numbers_of inside.now) inside.now.operations.keys rows) }
{
    let mut rows = OperationRows::with_capacity(alloc, inside.operations.len())?;
    add_rows::<D>(alloc, program, inside, &mut rows)?;
    Ok(rows)
}

/// The arguments of the blocks inside, in their order.
fn arguments_of_blocks<O, B>(
    alloc: Global,
    program: &Program<O, B>,
    inside: &Inside,
) -> Result<Vec<Vec<usize>>, AllocError>
    requires { (b : _) → Lists inside.now.blocks.keys b → IsSome (block_at program.now b) }
    ensures { IfOk result (λ arguments. PairsByIndex
        (AreArguments program.now (numbers_of inside.now)) inside.now.blocks.keys arguments.items) }
{
    let mut arguments = Vec::new(alloc);
    for block in inside.blocks.as_slice() {
        arguments.push(argument_numbers(alloc, program, inside, *block)?)?;
    }
    Ok(arguments)
}

/// The problem of what is inside an operation. All values from outside have one number, behind those inside: each may be
/// any value.
pub(crate) fn problem_of<D: OptDialect>(
    alloc: Global,
    program: &Program<D::Operation, D::Block>,
    op: Ptr<Operation>,
    inside: &Inside,
) -> Result<FactsProblem, AllocError>
    requires live { IsSome (operation_at program.now op) }
    requires numbered { NumbersInside program.now op (numbers_of inside.now) }
    ensures { IfOk result (λ problem. IsFactsProblemOf D.meaning program.now op (numbers_of inside.now) problem) }
{
    let mut entries = Vec::new(alloc);
    entry_numbers(program, inside, op, &mut entries)?;
    let count = inside.values.as_slice().len();
    let outside = vec![in alloc; count]?;
    let arguments = arguments_of_blocks(alloc, program, inside)?;
    let rows = rows_of::<D>(alloc, program, inside)?;
    Ok(FactsProblem {
        rows,
        arguments,
        values: count + 1,
        entries,
        outside,
    })
}
