//! Instructions by the forms of operations.
ghost use Rattle.std.specs.Prelude.{◌≡◌, IfOk, MatchOption};
ghost use Rattle.kit_flat.specs.Machine.{MachineOp, Other};
ghost use Rattle.kit_flat.specs.Forms.{op_of, form_view};
ghost use Rattle.kit_flat.specs.Formed.{IsFormed};
ghost use Rattle.kit_flat.specs.declared.forming.FlatForm.TheVariants as form;

use crate::flat::{FlatEdge, Instruction};
use kit_ops::{Arithmetic, Comparison};
use std::alloc::{AllocError, Global};

/// What an operation has besides its values and blocks.
#[derive(Clone, Copy)]
pub enum FlatForm {
    /// A known number.
    Constant(u64),
    /// Arithmetic on numbers of so many bits.
    Calculate(Arithmetic, u32),
    Compare(Comparison),
    Emit,
    /// A call of a function of the module.
    Call(usize),
    Br,
    /// So many operands behind the condition are forwarded along the first edge.
    CondBr(usize),
    Return,
}

/// A constant.
fn constant(
    number: u64,
    results: &[usize],
    operands: &[usize],
    successors: &[usize],
) -> Option<Instruction>
    ensures { IsFormed (form.Constant number) results.now operands.now successors.now result }
{
    if results.len() != 1 || operands.len() != 0 || successors.len() != 0 {
        return None;
    }
    Some(Instruction::Constant {
        result: results[0],
        number,
    })
}

/// Arithmetic.
fn calculate(
    function: Arithmetic,
    width: u32,
    results: &[usize],
    operands: &[usize],
    successors: &[usize],
) -> Option<Instruction>
    ensures { IsFormed (form.Calculate function width) results.now operands.now successors.now result }
{
    if results.len() != 1 || operands.len() != 2 || successors.len() != 0 {
        return None;
    }
    Some(Instruction::Calculate {
        function,
        width,
        result: results[0],
        left: operands[0],
        right: operands[1],
    })
}

/// A comparison.
fn compare(
    function: Comparison,
    results: &[usize],
    operands: &[usize],
    successors: &[usize],
) -> Option<Instruction>
    ensures { IsFormed (form.Compare function) results.now operands.now successors.now result }
{
    if results.len() != 1 || operands.len() != 2 || successors.len() != 0 {
        return None;
    }
    Some(Instruction::Compare {
        function,
        result: results[0],
        left: operands[0],
        right: operands[1],
    })
}

/// An emission.
fn emit(results: &[usize], operands: &[usize], successors: &[usize]) -> Option<Instruction>
    ensures { IsFormed form.Emit results.now operands.now successors.now result }
{
    if results.len() != 0 || operands.len() != 1 || successors.len() != 0 {
        return None;
    }
    Some(Instruction::Emit(operands[0]))
}

/// A call.
fn call(
    callee: usize,
    results: Vec<usize>,
    operands: Vec<usize>,
    successors: &[usize],
) -> Option<Instruction>
    ensures { IsFormed (form.Call callee) results.items operands.items successors.now result }
{
    if successors.len() != 0 {
        return None;
    }
    Some(Instruction::Call {
        results,
        callee,
        operands,
    })
}

/// A branch.
fn branch(results: &[usize], operands: Vec<usize>, successors: &[usize]) -> Option<Instruction>
    ensures { IsFormed form.Br results.now operands.items successors.now result }
{
    if results.len() != 0 || successors.len() != 1 {
        return None;
    }
    Some(Instruction::Br(FlatEdge {
        target: successors[0],
        operands,
    }))
}

/// A conditional branch, of which so many operands behind the condition are forwarded along the first edge.
fn conditional(
    alloc: Global,
    count: usize,
    results: &[usize],
    operands: &[usize],
    successors: &[usize],
) -> Result<Option<Instruction>, AllocError>
    ensures { IfOk result (IsFormed (form.CondBr count) results.now operands.now successors.now) }
{
    if results.len() != 0 || operands.len() == 0 || successors.len() != 2 {
        return Ok(None);
    }
    let forwarded = &operands[1..];
    let split = count.min(forwarded.len());
    let first = Vec::from_slice(alloc, &forwarded[..split])?;
    let second = Vec::from_slice(alloc, &forwarded[split..])?;
    Ok(Some(Instruction::CondBr {
        condition: operands[0],
        taken: FlatEdge {
            target: successors[0],
            operands: first,
        },
        otherwise: FlatEdge {
            target: successors[1],
            operands: second,
        },
    }))
}

/// A return.
fn leave(results: &[usize], operands: Vec<usize>, successors: &[usize]) -> Option<Instruction>
    ensures { IsFormed form.Return results.now operands.items successors.now result }
{
    if results.len() != 0 || successors.len() != 0 {
        return None;
    }
    Some(Instruction::Return(operands))
}

/// The instruction of a form with these results, operands and successors, or `None` where it hasn't as many as its form
/// asks for.
pub fn instruction(
    alloc: Global,
    shape: FlatForm,
    results: Vec<usize>,
    operands: Vec<usize>,
    successors: &[usize],
) -> Result<Option<Instruction>, AllocError>
    ensures { IfOk result (IsFormed shape results.items operands.items successors.now) }
{
    match shape {
        FlatForm::Constant(number) => Ok(constant(number, &results, &operands, successors)),
        FlatForm::Calculate(function, width) => {
            Ok(calculate(function, width, &results, &operands, successors))
        }
        FlatForm::Compare(function) => Ok(compare(function, &results, &operands, successors)),
        FlatForm::Emit => Ok(emit(&results, &operands, successors)),
        FlatForm::Call(callee) => Ok(call(callee, results, operands, successors)),
        FlatForm::Br => Ok(branch(&results, operands, successors)),
        FlatForm::CondBr(count) => conditional(alloc, count, &results, &operands, successors),
        FlatForm::Return => Ok(leave(&results, operands, successors)),
    }
}
