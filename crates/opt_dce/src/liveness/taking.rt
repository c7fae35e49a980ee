//! The plan of what goes.
ghost use Rattle.std.specs.Prelude.{◌≡◌, ◌↔◌, ℕ, Some, IfOk, IsSome, IsTrue, OnOk, length};
ghost use Rattle.ir_program.specs.Program.{block_at};
ghost use Rattle.ir_program.specs.declared.handles.Operation.{Operation};
ghost use Rattle.ir_program.specs.declared.handles.Ptr.{Ptr};
ghost use Rattle.ir_trees.specs.Searched.{AreDistinct};
ghost use Rattle.opt_inside.specs.Numbered.{numbers_of};
ghost use Rattle.opt_dce.specs.liveness.Problems.{AreThere};
ghost use Rattle.opt_dce.specs.liveness.Taken.{AreDeadArguments, AreDeadOperations, AreGoing, AreLost, AreLostOperands, HasMarkAt, OperandGoes, TakesArguments, TakesLost, TakesMarked, TakesOperation};

use crate::liveness::numbers::value_number;
use crate::liveness::plan::{DeadArguments, DeadPlan, LostOperands};
use ir_program::{BasicBlock, Operation, Program, Ptr};
use opt_inside::Inside;
use opt_rows::{Candidates, DeadItems, DeadProblem, Operand};
use std::alloc::{AllocError, Global};

/// Whether there is a mark at an index, if there is one.
fn is_marked(marks: &[bool], index: Option<usize>) -> bool
    ensures { IsTrue result ↔ ((x : ℕ) × (index ≡ Some x) × HasMarkAt marks.now x) }
{
    match index {
        Some(index) => index < marks.len() && marks[index],
        None => false,
    }
}

/// Whether there is a mark.
fn has_mark(marks: &[bool]) -> bool
    ensures { IsTrue result ↔ ((i : ℕ) × HasMarkAt marks.now i) }
{
    marks.contains(&true)
}

/// Takes an operation that goes.
fn take_operation(
    op: Ptr<Operation>,
    goes: bool,
    dead: &mut Vec<Ptr<Operation>>,
) -> Result<(), AllocError>
    ensures { OnOk result (TakesOperation op goes dead.old.items dead.new.items) }
{
    if goes {
        dead.push(op)?;
    }
    Ok(())
}

/// The operations that are marked.
fn dead_operations(
    alloc: Global,
    inside: &Inside,
    marks: &[bool],
) -> Result<Vec<Ptr<Operation>>, AllocError>
    requires len { length marks.now ≡ length (numbers_of inside.now).operations }
    requires once { AreDistinct (numbers_of inside.now).operations }
    ensures { IfOk result (λ dead. AreDeadOperations (numbers_of inside.now) marks.now dead.items) }
{
    let mut dead = Vec::new(alloc);
    for (index, op) in inside.operations.as_slice().iter().enumerate() {
        take_operation(*op, marks[index], &mut dead)?;
    }
    Ok(dead)
}

/// Of each operand, whether it goes to a marked argument.
fn lost_marks(
    alloc: Global,
    operands: &[Operand],
    arguments: &[bool],
) -> Result<Vec<bool>, AllocError>
    ensures { IfOk result (λ marks. AreLost operands.now arguments.now marks.items) }
{
    let mut marks = Vec::new(alloc);
    for operand in operands {
        marks.push(is_marked(arguments, operand.argument))?;
    }
    Ok(marks)
}

/// Whether one of these operands goes to a marked argument.
fn loses_some(operands: &[Operand], arguments: &[bool]) -> bool
    ensures { IsTrue result ↔ ((i : ℕ) × OperandGoes operands.now arguments.now i) }
{
    for operand in operands {
        if is_marked(arguments, operand.argument) {
            return true;
        }
    }
    false
}

/// Takes the operands of an operation that go, if there are some.
fn take_lost(
    alloc: Global,
    op: Ptr<Operation>,
    operands: &[Operand],
    arguments: &[bool],
    lost: &mut Vec<LostOperands>,
) -> Result<(), AllocError>
    ensures { OnOk result (TakesLost op operands.now arguments.now lost.old.items lost.new.items) }
{
    if loses_some(operands, arguments) {
        let marks = lost_marks(alloc, operands, arguments)?;
        lost.push(LostOperands { op, marks })?;
    }
    Ok(())
}

/// The operands that go to marked arguments.
fn lost_operands(
    alloc: Global,
    inside: &Inside,
    rows: &Candidates,
    arguments: &[bool],
) -> Result<Vec<LostOperands>, AllocError>
    requires len { length rows.now ≡ length (numbers_of inside.now).operations }
    requires once { AreDistinct (numbers_of inside.now).operations }
    ensures { IfOk result (λ lost. AreLostOperands (numbers_of inside.now) rows.now arguments.now lost.items) }
{
    let mut lost = Vec::new(alloc);
    for (index, op) in inside.operations.as_slice().iter().enumerate() {
        take_lost(alloc, *op, rows.operands(index), arguments, &mut lost)?;
    }
    Ok(lost)
}

/// Of each argument of a block, whether it is marked.
fn argument_marks<O, B>(
    alloc: Global,
    program: &Program<O, B>,
    inside: &Inside,
    block: Ptr<BasicBlock>,
    arguments: &[bool],
) -> Result<Vec<bool>, AllocError>
    requires live { IsSome (block_at program.now block) }
    requires once { AreDistinct (numbers_of inside.now).values }
    ensures { IfOk result (λ marks. AreGoing program.now (numbers_of inside.now) arguments.now block marks.items) }
{
    let mut marks = Vec::new(alloc);
    for index in 0..program.argument_count(block) {
        let number = value_number(inside, program.argument(block, index));
        marks.push(is_marked(arguments, number))?;
    }
    Ok(marks)
}

/// Takes the arguments of a block that go, if there are some.
fn take_arguments<O, B>(
    alloc: Global,
    program: &Program<O, B>,
    inside: &Inside,
    block: Ptr<BasicBlock>,
    arguments: &[bool],
    dead: &mut Vec<DeadArguments>,
) -> Result<(), AllocError>
    requires live { IsSome (block_at program.now block) }
    requires once { AreDistinct (numbers_of inside.now).values }
    ensures { OnOk result (TakesArguments program.now
        (numbers_of inside.now) arguments.now block dead.old.items dead.new.items) }
{
    let marks = argument_marks(alloc, program, inside, block, arguments)?;
    if has_mark(&marks) {
        dead.push(DeadArguments { block, marks })?;
    }
    Ok(())
}

/// The arguments that are marked.
fn dead_arguments<O, B>(
    alloc: Global,
    program: &Program<O, B>,
    inside: &Inside,
    arguments: &[bool],
) -> Result<Vec<DeadArguments>, AllocError>
    requires there { AreThere program.now (numbers_of inside.now) }
    requires once { AreDistinct (numbers_of inside.now).values }
    requires blocks_once { AreDistinct (numbers_of inside.now).blocks }
    ensures { IfOk result (λ dead. AreDeadArguments program.now (numbers_of inside.now) arguments.now dead.items) }
{
    let mut dead = Vec::new(alloc);
    for block in inside.blocks.as_slice() {
        take_arguments(alloc, program, inside, *block, arguments, &mut dead)?;
    }
    Ok(dead)
}

/// The plan of all that is marked.
pub(crate) fn plan_of<O, B>(
    alloc: Global,
    program: &Program<O, B>,
    inside: &Inside,
    problem: &DeadProblem,
    items: &DeadItems,
) -> Result<DeadPlan, AllocError>
    requires there { AreThere program.now (numbers_of inside.now) }
    requires operations_once { AreDistinct (numbers_of inside.now).operations }
    requires blocks_once { AreDistinct (numbers_of inside.now).blocks }
    requires values_once { AreDistinct (numbers_of inside.now).values }
    requires rows { length problem.now.operations ≡ length (numbers_of inside.now).operations }
    requires marks { length items.now.operations.items ≡ length (numbers_of inside.now).operations }
    ensures { IfOk result (λ plan. TakesMarked program.now (numbers_of inside.now) problem.now items.now plan) }
{
    Ok(DeadPlan {
        operations: dead_operations(alloc, inside, &items.operations)?,
        operands: lost_operands(alloc, inside, &problem.operations, &items.arguments)?,
        arguments: dead_arguments(alloc, program, inside, &items.arguments)?,
    })
}
