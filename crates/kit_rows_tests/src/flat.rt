//! A flat module that is built by calls.
use crate::asserting::same;
use kit_flat::{FlatBlock, FlatEdge, FlatFunction, FlatModule, Instruction, Outcome, is_sound};
use kit_machine::interpret;
use kit_ops::{Arithmetic, Comparison};
use std::alloc::{AllocError, Global};
use std::test::Fail;

/// A branch to a block with these values.
fn edge(alloc: Global, target: usize, operands: &[usize]) -> Result<FlatEdge, AllocError> {
    Ok(FlatEdge {
        target,
        operands: Vec::from_slice(alloc, operands)?,
    })
}

/// The entry block: it goes on to block 1 while the argument is 1 or more.
fn test(alloc: Global) -> Result<FlatBlock, AllocError> {
    let compare = Instruction::Compare {
        function: Comparison::LessOrEqual,
        result: 2,
        left: 1,
        right: 0,
    };
    let branch = Instruction::CondBr {
        condition: 2,
        taken: edge(alloc, 1, &[])?,
        otherwise: edge(alloc, 2, &[0])?,
    };
    let one = Instruction::Constant {
        result: 1,
        number: 1,
    };
    Ok(FlatBlock {
        arguments: vec![in alloc; 0usize]?,
        instructions: vec![in alloc; one, compare, branch]?,
    })
}

/// Block 1: it emits the number below the argument, and calls the function on it.
fn descend(alloc: Global) -> Result<FlatBlock, AllocError> {
    let below = Instruction::Calculate {
        function: Arithmetic::Sub,
        width: 32,
        result: 3,
        left: 0,
        right: 1,
    };
    let call = Instruction::Call {
        results: vec![in alloc; 4usize]?,
        callee: 0,
        operands: vec![in alloc; 3usize]?,
    };
    let branch = Instruction::Br(edge(alloc, 2, &[0])?);
    Ok(FlatBlock {
        arguments: Vec::new(alloc),
        instructions: vec![in alloc; below, Instruction::Emit(3), call, branch]?,
    })
}

/// Block 2: it returns what it was handed.
fn finish(alloc: Global) -> Result<FlatBlock, AllocError> {
    Ok(FlatBlock {
        arguments: vec![in alloc; 5usize]?,
        instructions: vec![in alloc; Instruction::Return(vec![in alloc; 5usize]?)]?,
    })
}

/// A module whose function emits the numbers below its argument and returns the argument, with an instruction of each
/// kind. It has six values.
fn module_of(alloc: Global, values: usize) -> Result<FlatModule, AllocError> {
    let counts = FlatFunction {
        values,
        blocks: vec![in alloc; test(alloc)?, descend(alloc)?, finish(alloc)?]?,
    };
    Ok(FlatModule {
        functions: vec![in alloc; counts]?,
    })
}

/// What the function does to 2, if its numbers are in their bounds where it has so many values.
fn run(alloc: Global, values: usize) -> Result<Option<Outcome>, AllocError> {
    let code = module_of(alloc, values)?;
    if !code.functions.is_empty() && is_sound(&code) {
        return Ok(Some(interpret(alloc, &code, 0, &[2], 100)?));
    }
    Ok(None)
}

#[test]
fn sound_modules_run(rt: HostRuntime) -> Result<(), Fail> {
    let alloc = rt.alloc();
    let values = vec![in alloc; 2u64]?;
    let emissions = vec![in alloc; 1u64, 0u64]?;
    same(&rt, run(alloc, 6)?, Some(Outcome::Ended(values, emissions)));
    same(&rt, run(alloc, 5)?, None);
    Ok(())
}
