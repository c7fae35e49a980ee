//! The rows of operations and blocks, whole.
ghost use Rattle.std.specs.Prelude.{◌≡◌, ◌↔◌, Contains, IsSome, IsTrue, IfOk};
ghost use Rattle.ir_program.specs.Program.{operation_at, block_at, results_at, arguments_at};
ghost use Rattle.ir_program.specs.Rows.{operands_at, successors_at};
ghost use Rattle.ir_program.specs.Lists.{regions_in};
ghost use Rattle.ir_queries.specs.Rows.{values_of, types_of, AreTypesOf, ArePlacesOf};

use ir_names::TypeHandle;
use ir_program::{BasicBlock, Operation, Program, Ptr, Region, Use, Value};
use std::alloc::{AllocError, Global};

/// The results of an operation, in order.
pub(crate) fn results_of<O, B>(
    program: &Program<O, B>,
    alloc: Global,
    op: Ptr<Operation>,
) -> Result<Vec<Value>, AllocError>
    requires { IsSome (operation_at program.now op) }
    ensures { IfOk result (λ r. r.items ≡ values_of (results_at program.now op)) }
{
    let mut results = Vec::new(alloc);
    for i in 0..program.result_count(op) {
        results.push(program.result(op, i))?;
    }
    Ok(results)
}

/// The types of the results of an operation, in order.
pub(crate) fn result_types_of<O, B>(
    program: &Program<O, B>,
    alloc: Global,
    op: Ptr<Operation>,
) -> Result<Vec<TypeHandle>, AllocError>
    requires { IsSome (operation_at program.now op) }
    ensures { IfOk result (λ r. r.items ≡ types_of (results_at program.now op)) }
{
    let mut types = Vec::new(alloc);
    for i in 0..program.result_count(op) {
        types.push(program.result_type(op, i))?;
    }
    Ok(types)
}

/// The arguments of a block, in order.
pub(crate) fn arguments_of<O, B>(
    program: &Program<O, B>,
    alloc: Global,
    block: Ptr<BasicBlock>,
) -> Result<Vec<Value>, AllocError>
    requires { IsSome (block_at program.now block) }
    ensures { IfOk result (λ r. r.items ≡ values_of (arguments_at program.now block)) }
{
    let mut arguments = Vec::new(alloc);
    for i in 0..program.argument_count(block) {
        arguments.push(program.argument(block, i))?;
    }
    Ok(arguments)
}

/// The operands of an operation, in order.
pub(crate) fn operands_of<O, B>(
    program: &Program<O, B>,
    alloc: Global,
    op: Ptr<Operation>,
) -> Result<Vec<Value>, AllocError>
    requires { IsSome (operation_at program.now op) }
    ensures { IfOk result (λ r. r.items ≡ operands_at program.now op) }
{
    let mut operands = Vec::new(alloc);
    for i in 0..program.operand_count(op) {
        operands.push(program.operand(op, i))?;
    }
    Ok(operands)
}

/// The types of the operands of an operation, in order.
pub(crate) fn operand_types_of<O, B>(
    program: &Program<O, B>,
    alloc: Global,
    op: Ptr<Operation>,
) -> Result<Vec<TypeHandle>, AllocError>
    requires { IsSome (operation_at program.now op) }
    ensures { IfOk result (λ r. AreTypesOf program.now (operands_at program.now op) r.items) }
{
    let mut types = Vec::new(alloc);
    for i in 0..program.operand_count(op) {
        types.push(program.value_type(program.operand(op, i)))?;
    }
    Ok(types)
}

/// The successors of an operation, in order.
pub(crate) fn successors_of<O, B>(
    program: &Program<O, B>,
    alloc: Global,
    op: Ptr<Operation>,
) -> Result<Vec<Ptr<BasicBlock>>, AllocError>
    requires { IsSome (operation_at program.now op) }
    ensures { IfOk result (λ r. r.items ≡ successors_at program.now op) }
{
    let mut successors = Vec::new(alloc);
    for i in 0..program.successor_count(op) {
        successors.push(program.successor(op, i))?;
    }
    Ok(successors)
}

/// The regions of an operation, in order.
pub(crate) fn regions_of<O, B>(
    program: &Program<O, B>,
    alloc: Global,
    op: Ptr<Operation>,
) -> Result<Vec<Ptr<Region>>, AllocError>
    requires { IsSome (operation_at program.now op) }
    ensures { IfOk result (λ r. r.items ≡ regions_in program.now op) }
{
    program.regions(op).collect(alloc)
}

/// The places of the operands of an operation, in order.
pub(crate) fn operand_places<O, B>(
    program: &Program<O, B>,
    alloc: Global,
    op: Ptr<Operation>,
) -> Result<Vec<Use<Value>>, AllocError>
    requires { IsSome (operation_at program.now op) }
    ensures { IfOk result (λ r. ArePlacesOf op (operands_at program.now op) r.items) }
{
    let mut places = Vec::new(alloc);
    for index in 0..program.operand_count(op) {
        let def = program.operand(op, index);
        places.push(Use {
            user_op: op,
            index,
            def,
        })?;
    }
    Ok(places)
}

/// The places of the successors of an operation, in order.
pub(crate) fn successor_places<O, B>(
    program: &Program<O, B>,
    alloc: Global,
    op: Ptr<Operation>,
) -> Result<Vec<Use<Ptr<BasicBlock>>>, AllocError>
    requires { IsSome (operation_at program.now op) }
    ensures { IfOk result (λ r. ArePlacesOf op (successors_at program.now op) r.items) }
{
    let mut places = Vec::new(alloc);
    for index in 0..program.successor_count(op) {
        let def = program.successor(op, index);
        places.push(Use {
            user_op: op,
            index,
            def,
        })?;
    }
    Ok(places)
}

/// Whether a block is among the successors of an operation.
pub(crate) fn has_successor<O, B>(
    program: &Program<O, B>,
    op: Ptr<Operation>,
    block: Ptr<BasicBlock>,
) -> bool
    requires { IsSome (operation_at program.now op) }
    ensures { IsTrue result ↔ Contains (successors_at program.now op) block }
{
    for i in 0..program.successor_count(op) {
        if program.successor(op, i) == block {
            return true;
        }
    }
    false
}
