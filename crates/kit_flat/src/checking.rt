//! Whether the numbers of a flat module are in their bounds.
ghost use Rattle.std.specs.Prelude.{◌≡◌, ◌↔◌, IsTrue};
ghost use Rattle.kit_flat.specs.Sound.{AreBelow, InstructionFits, BlockFits, FunctionFits, FlatFunctionsFit};

use crate::flat::{FlatBlock, FlatFunction, FlatModule, Instruction};

/// Whether each number is below `n`.
fn are_below(names: &[usize], n: usize) -> bool
    ensures { IsTrue result ↔ AreBelow n names.now }
{
    names.iter().all(|v| *v < n)
}

/// Whether an instruction names some of so many values and functions.
fn instruction_fits(functions: usize, values: usize, instruction: &Instruction) -> bool
    ensures { IsTrue result → InstructionFits functions values instruction.now }
{
    match instruction {
        Instruction::Constant { result, .. } => *result < values,
        Instruction::Calculate {
            width,
            result,
            left,
            right,
            ..
        } => *width <= 64 && *result < values && *left < values && *right < values,
        Instruction::Compare {
            result,
            left,
            right,
            ..
        } => *result < values && *left < values && *right < values,
        Instruction::Emit(value) => *value < values,
        Instruction::Call {
            results,
            callee,
            operands,
        } => {
            are_below(results.as_slice(), values)
                && are_below(operands.as_slice(), values)
                && *callee < functions
        }
        Instruction::Br(edge) => are_below(edge.operands.as_slice(), values),
        Instruction::CondBr {
            condition,
            taken,
            otherwise,
        } => {
            *condition < values
                && are_below(taken.operands.as_slice(), values)
                && are_below(otherwise.operands.as_slice(), values)
        }
        Instruction::Return(operands) => are_below(operands.as_slice(), values),
    }
}

/// Whether the instructions of a block do, and its arguments.
fn block_fits(functions: usize, values: usize, block: &FlatBlock) -> bool
    ensures { IsTrue result → BlockFits functions values block.now }
{
    if !are_below(block.arguments.as_slice(), values) {
        return false;
    }
    for instruction in &block.instructions {
        if !instruction_fits(functions, values, instruction) {
            return false;
        }
    }
    true
}

/// Whether the blocks of a function do.
fn function_fits(functions: usize, function: &FlatFunction) -> bool
    ensures { IsTrue result → FunctionFits functions function.now }
{
    for block in &function.blocks {
        if !block_fits(functions, function.values, block) {
            return false;
        }
    }
    true
}

/// Whether the numbers of a module are in their bounds, so that `interpret` may run its functions.
pub fn is_sound(code: &FlatModule) -> bool
    ensures { IsTrue result → FlatFunctionsFit code.now.functions.items }
{
    for function in &code.functions {
        if !function_fits(code.functions.len(), function) {
            return false;
        }
    }
    true
}
