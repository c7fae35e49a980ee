//! Which interfaces accept an operation with given rows.

use ir_context::{
    OperandCalls, OperationCalls, ResultCalls, TypeCalls, TypeTable, TypedProgram, ValueCalls,
};
use ir_names::{GrowError, TypeHandle};
use ir_program::{Operation, Ptr};
use op_ifaces::{
    AtLeastNResultsInterface, AtMostNOpdsInterface, NOpdsInterface, OneOpdInterface,
    OneRegionInterface, OneResultInterface, OptionalOpdInterface, SameOperandsAndResultType,
    SameOperandsType, SameOperandsTypeVerifyErr, SingleBlockRegionInterface,
};
use std::alloc::Global;
use std::process::Abort;
use std::test::Fail;

/// So many types.
#[derive(Drop)]
pub struct Few(usize);

impl TypeTable for Few {
    ghost type_count = { λ few. few.0 };

    fn is_known(&self, ty: TypeHandle) -> bool {
        ty.number() < self.0
    }
}

/// Operations without a payload, and two types.
pub type Plain = TypedProgram<(), (), Few>;

/// Asserts what accepts an operation without operands.
fn check_source(rt: &impl Abort, ctx: &Plain, op: Ptr<Operation>) {
    if op.is_live(ctx) {
        assert!(rt; NOpdsInterface::<0>::verify(op, ctx).is_ok());
        assert!(rt; OptionalOpdInterface::verify(op, ctx).is_ok());
        assert!(rt; OneOpdInterface::verify(op, ctx).is_err());
        assert!(rt; AtLeastNResultsInterface::<2>::verify(op, ctx).is_ok());
        assert!(rt; AtLeastNResultsInterface::<3>::verify(op, ctx).is_err());
        assert!(rt; OneResultInterface::verify(op, ctx).is_err());
        assert!(rt; OneRegionInterface::verify(op, ctx).is_err());
        assert!(rt; SingleBlockRegionInterface::verify(op, ctx).is_ok());
        let none = SameOperandsType::verify(op, ctx);
        assert!(rt; none == Err(SameOperandsTypeVerifyErr::NoOperands));
    }
}

/// Asserts what accepts an operation with two operands of one type, and a result of it.
fn check_sum(rt: &impl Abort, ctx: &Plain, op: Ptr<Operation>) {
    if op.is_live(ctx) {
        assert!(rt; NOpdsInterface::<2>::verify(op, ctx).is_ok());
        assert!(rt; AtMostNOpdsInterface::<1>::verify(op, ctx).is_err());
        assert!(rt; OneResultInterface::verify(op, ctx).is_ok());
        match SameOperandsAndResultType::verify(op, ctx) {
            Ok(()) => {
                let ty = SameOperandsAndResultType::common_type(op, ctx);
                assert!(rt; ty == TypeHandle::new(1));
            }
            Err(_) => assert!(rt; false),
        }
    }
}

/// Gives an operation a result of the type with this number.
fn put_result(
    alloc: Global,
    ctx: &mut Plain,
    op: Ptr<Operation>,
    number: usize,
) -> Result<(), GrowError> {
    let ty = TypeHandle::new(number);
    if op.is_live(ctx) {
        if ty.is_live(ctx) {
            op.push_result(alloc, ctx, ty)?;
        }
    }
    Ok(())
}

/// Gives an operation the last result of another one as operand.
fn put_operand(
    alloc: Global,
    ctx: &mut Plain,
    op: Ptr<Operation>,
    from: Ptr<Operation>,
) -> Result<(), GrowError> {
    if from.is_live(ctx) {
        let count = from.get_num_results(ctx);
        if count > 0 {
            let value = from.get_result(ctx, count - 1);
            if op.is_live(ctx) {
                if value.is_live(ctx) {
                    op.push_operand(alloc, ctx, value)?;
                }
            }
        }
    }
    Ok(())
}

/// Makes an operation with results of two types, and one that takes the second of them twice, and asserts what accepts them.
fn check(rt: &impl Abort, alloc: Global, ctx: &mut Plain) -> Result<(), GrowError> {
    let source = ctx.new_operation(alloc, (), &[], &[], &[], 0)?;
    put_result(alloc, ctx, source, 0)?;
    put_result(alloc, ctx, source, 1)?;
    check_source(rt, ctx, source);
    let sum = ctx.new_operation(alloc, (), &[], &[], &[], 0)?;
    put_operand(alloc, ctx, sum, source)?;
    put_operand(alloc, ctx, sum, source)?;
    put_result(alloc, ctx, sum, 1)?;
    check_sum(rt, ctx, sum);
    Ok(())
}

/// Lets a context go. It stands in a function of its own so that it is proved once.
fn finish(_ctx: Plain) {}

#[test]
fn interfaces_accept_by_rows(rt: HostRuntime) -> Result<(), Fail> {
    let mut ctx: Plain = TypedProgram::with_types(rt.alloc(), Few(2));
    let outcome = check(&rt, rt.alloc(), &mut ctx);
    finish(ctx);
    assert!(rt; outcome.is_ok());
    Ok(())
}
