//! Numbers of values that come to an end.
use crate::arenas::finish_program;
use crate::asserting::same;
use ir_base::{GrowError, TypeHandle};
use ir_program::{Operation, Program, Ptr, Value};
use std::alloc::Global;
use std::process::Abort;
use std::test::Fail;

/// Gives an operation one result more, behind the others.
fn push_result(
    rt: &impl Abort,
    program: &mut Program<u32, u64>,
    op: Ptr<Operation>,
) -> Result<Value, GrowError> {
    assert!(rt; program.has_operation(op));
    program.push_result(op, TypeHandle::new(3))
}

/// How many results an operation has.
fn result_count(rt: &impl Abort, program: &Program<u32, u64>, op: Ptr<Operation>) -> usize {
    assert!(rt; program.has_operation(op));
    program.result_count(op)
}

/// The test of the same name, in a new program that has one number left.
fn numbers_come_to_an_end_in(
    rt: &impl Abort,
    alloc: Global,
    program: &mut Program<u32, u64>,
) -> Result<(), Fail> {
    let op = program.new_operation(alloc, 1)?;
    push_result(rt, program, op)?;
    same(
        rt,
        push_result(rt, program, op),
        Err(GrowError::CounterFull),
    );
    same(rt, result_count(rt, program, op), 1);
    Ok(())
}

#[test]
fn numbers_come_to_an_end(rt: HostRuntime) -> Result<(), Fail> {
    let mut program: Program<u32, u64> = Program::counting_from(rt.alloc(), u64::MAX - 1);
    let outcome = numbers_come_to_an_end_in(&rt, rt.alloc(), &mut program);
    finish_program(program);
    outcome
}
