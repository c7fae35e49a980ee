//! The row of an operation in the problem of the most precise facts.
ghost use Rattle.std.specs.Prelude.{◌≡◌, IfOk, OnOk, IsSome};
ghost use Rattle.ir_program.specs.Program.{operation_at};
ghost use Rattle.ir_program.specs.Lists.{IsLinkedOperation};
ghost use Rattle.opt_inside.specs.Numbered.{numbers_of};
ghost use Rattle.opt_rows.specs.OperationColumns.{buffered};
ghost use Rattle.opt_inside.specs.facts.Problem.{role_of, AreForwarded, IsEdgeCount, AreEdges, IsRowOfOperation};

use crate::Inside;
use crate::facts::numbers::{entry_numbers, number_of_block, operand_numbers, result_numbers};
use ir_program::{Operation, Program, Ptr};
use opt_dialect::OptDialect;
use opt_rows::{EdgeList, Role, RowBuffer};
use std::alloc::{AllocError, Global};

/// What an operation is asked.
fn role_of_operation<D: OptDialect>(payload: &D::Operation) -> Role
    ensures { result ≡ role_of (D.meaning.is_foldable payload.now) (D.meaning.is_branch payload.now) }
{
    if D::is_foldable(payload) {
        Role::Folds
    } else if D::is_branch(payload) {
        Role::Branches
    } else {
        Role::Other
    }
}

/// The indices of the operands that the operation forwards to its successor with this index; an index behind the last
/// operand forwards nothing.
fn forwarded_operands<D: OptDialect>(
    alloc: Global,
    program: &Program<D::Operation, D::Block>,
    op: Ptr<Operation>,
    successor: usize,
) -> Result<Vec<usize>, AllocError>
    requires { IsSome (operation_at program.now op) }
    ensures { IfOk result (λ indices. AreForwarded D.meaning program.now op successor indices.items) }
{
    let count = program.operand_count(op);
    let mut indices = D::successor_operands(alloc, program.payload(op), count, successor)?;
    indices.retain(|i| *i < count);
    Ok(indices)
}

/// How many edges an operation has: none, where it is no branch.
fn edge_count<D: OptDialect>(program: &Program<D::Operation, D::Block>, op: Ptr<Operation>) -> usize
    requires { IsSome (operation_at program.now op) }
    ensures { IsEdgeCount D.meaning program.now op result }
{
    if D::is_branch(program.payload(op)) {
        program.successor_count(op)
    } else {
        0
    }
}

/// Puts the edges of an operation into a list, in place of what is in it.
fn edges_of<D: OptDialect>(
    alloc: Global,
    program: &Program<D::Operation, D::Block>,
    inside: &Inside,
    op: Ptr<Operation>,
    edges: &mut EdgeList,
) -> Result<(), AllocError>
    requires { IsSome (operation_at program.now op) }
    ensures { OnOk result (AreEdges D.meaning program.now (numbers_of inside.now) op edges.new) }
{
    edges.clear();
    for i in 0..edge_count::<D>(program, op) {
        let target = number_of_block(inside, program.successor(op, i));
        let forwards = forwarded_operands::<D>(alloc, program, op, i)?;
        edges.push(target, &forwards)?;
    }
    Ok(())
}

/// Puts together the row of an operation that stands in a block, in place of what was put together before.
pub(crate) fn row_of<D: OptDialect>(
    alloc: Global,
    program: &Program<D::Operation, D::Block>,
    inside: &Inside,
    op: Ptr<Operation>,
    row: &mut RowBuffer,
) -> Result<(), AllocError>
    requires live { IsSome (operation_at program.now op) }
    requires linked { IsLinkedOperation program.now op }
    ensures { OnOk result (IsRowOfOperation D.meaning program.now (numbers_of inside.now) op (buffered row.new)) }
{
    row.block = match program.parent_block(op) {
        Some(block) => number_of_block(inside, block),
        None => unreachable!(),
    };
    row.role = role_of_operation::<D>(program.payload(op));
    operand_numbers(program, inside, op, &mut row.operands)?;
    result_numbers(program, inside, op, &mut row.results)?;
    edges_of::<D>(alloc, program, inside, op, &mut row.edges)?;
    entry_numbers(program, inside, op, &mut row.entries)?;
    Ok(())
}
