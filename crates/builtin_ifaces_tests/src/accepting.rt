//! Which operations are accepted, and what the getters of accepted ones give.
use crate::tiny::{Tiny, TinyAttr, TinyOp, TinyType, keys as tiny_keys};
use builtin_ifaces::{
    BranchOpInterface, BranchOpInterfaceVerifyErr, CallOpCallable, CallOpInterface,
    CallOpInterfaceErr, FunctionTypeInterface, InterfaceFault, OperandSegmentInterface,
    OperandSegmentInterfaceVerifyErr, SymbolOpInterface, SymbolOpInterfaceErr, VerifyFault, keys,
    verify_interfaces,
};
use ir_context::{
    ArgumentCalls, Context, NewBlock, NewOperation, OperandCalls, OperationCalls, ResultCalls,
    SuccessorCalls, TypeCalls, ValueCalls,
};
use ir_names::{GrowError, Identifier, IdentifierError, OpInterface, TypeHandle};
use ir_program::{BasicBlock, Operation, Ptr};
use op_ifaces::{NSuccsVerifyErr, RowsVerifyErr};
use std::alloc::Global;
use std::process::Abort;
use std::test::Fail;
use symbol_ifaces::SymbolUserOpInterface;

/// Why nothing was made.
fn why(error: IdentifierError) -> GrowError {
    match error {
        IdentifierError::Memory => GrowError::Memory,
        IdentifierError::Invalid(_) => GrowError::CounterFull,
    }
}

/// An operation without operands, results, successors and attributes.
fn make(alloc: Global, ctx: &mut Context<Tiny>, kind: TinyOp) -> Result<Ptr<Operation>, GrowError> {
    Operation::new(alloc, ctx, kind, &[], &[], &[], 0)
}

/// Puts an attribute under a key.
fn put_attr(
    alloc: Global,
    ctx: &mut Context<Tiny>,
    op: Ptr<Operation>,
    key: &str,
    attr: TinyAttr,
) -> Result<(), GrowError> {
    let key = match Identifier::try_new(alloc, key) {
        Ok(key) => key,
        Err(error) => return Err(why(error)),
    };
    if op.is_live(ctx) {
        ctx.payload_mut(op).notes.attributes.set(key, attr)?;
    }
    Ok(())
}

/// An attribute that holds a name.
fn name_attr(alloc: Global, text: &str) -> Result<TinyAttr, GrowError> {
    match Identifier::try_new(alloc, text) {
        Ok(name) => Ok(TinyAttr::Name(name)),
        Err(error) => Err(why(error)),
    }
}

/// An attribute that holds sizes.
fn sizes_attr(alloc: Global, sizes: &[u32]) -> Result<TinyAttr, GrowError> {
    Ok(TinyAttr::Sizes(Vec::from_slice(alloc, sizes)?))
}

/// Gives an operation an operand of this type: the result of an operation of its own.
fn put_operand(
    alloc: Global,
    ctx: &mut Context<Tiny>,
    op: Ptr<Operation>,
    ty: TypeHandle,
) -> Result<(), GrowError> {
    let from = make(alloc, ctx, TinyOp::Def)?;
    if from.is_live(ctx) {
        if ty.is_live(ctx) {
            let value = from.push_result(alloc, ctx, ty)?;
            if op.is_live(ctx) {
                if value.is_live(ctx) {
                    op.push_operand(alloc, ctx, value)?;
                }
            }
        }
    }
    Ok(())
}

/// Gives an operation a block as successor.
fn put_successor(
    alloc: Global,
    ctx: &mut Context<Tiny>,
    op: Ptr<Operation>,
    block: Ptr<BasicBlock>,
) -> Result<(), GrowError> {
    if op.is_live(ctx) {
        if ctx.program().has_block(block) {
            op.push_successor(alloc, ctx, block)?;
        }
    }
    Ok(())
}

/// A block with an argument of this type.
fn make_block(
    alloc: Global,
    ctx: &mut Context<Tiny>,
    ty: TypeHandle,
) -> Result<Ptr<BasicBlock>, GrowError> {
    let block = BasicBlock::new(alloc, ctx, None, &[])?;
    if ctx.program().has_block(block) {
        if ty.is_live(ctx) {
            block.push_argument(alloc, ctx, ty)?;
        }
    }
    Ok(block)
}

/// Asserts that the operation is accepted, or refused like this.
fn check(
    rt: &impl Abort,
    ctx: &Context<Tiny>,
    op: Ptr<Operation>,
    wanted: Result<(), (OpInterface, VerifyFault)>,
) {
    if op.is_live(ctx) {
        match (verify_interfaces(op, ctx), wanted) {
            (Ok(()), Ok(())) => {}
            (Err(found), Err((interface, fault))) => {
                assert!(rt; found == InterfaceFault { interface, fault });
            }
            _ => assert!(rt; false),
        }
    } else {
        assert!(rt; false);
    }
}

/// Gives an operation a name.
fn rename(
    alloc: Global,
    ctx: &mut Context<Tiny>,
    op: Ptr<Operation>,
    text: &str,
) -> Result<(), GrowError> {
    let name = match Identifier::try_new(alloc, text) {
        Ok(name) => name,
        Err(error) => return Err(why(error)),
    };
    if op.is_live(ctx) {
        SymbolOpInterface::set_symbol_name(alloc, op, ctx, name)?;
    }
    Ok(())
}

/// A function with a name is accepted, and one without isn't.
fn check_symbols(rt: &impl Abort, alloc: Global, ctx: &mut Context<Tiny>) -> Result<(), GrowError> {
    let op = make(alloc, ctx, TinyOp::Func)?;
    let nameless = VerifyFault::SymbolOp(SymbolOpInterfaceErr);
    check(rt, ctx, op, Err((OpInterface::SymbolOp, nameless)));
    put_attr(
        alloc,
        ctx,
        op,
        keys::SYMBOL_NAME,
        TinyAttr::Held(TypeHandle::new(0)),
    )?;
    check(rt, ctx, op, Err((OpInterface::SymbolOp, nameless)));
    rename(alloc, ctx, op, "start")?;
    check(rt, ctx, op, Ok(()));
    rename(alloc, ctx, op, "main")?;
    check(rt, ctx, op, Ok(()));
    if op.is_live(ctx) {
        match SymbolOpInterface::verify(op, ctx) {
            Ok(()) => {
                assert!(rt; SymbolOpInterface::get_symbol_name(op, ctx).as_str() == "main");
            }
            Err(_) => assert!(rt; false),
        }
    }
    Ok(())
}

/// What a call by name that is accepted gives.
fn check_call(rt: &impl Abort, ctx: &Context<Tiny>, op: Ptr<Operation>, ty: TypeHandle) {
    if op.is_live(ctx) {
        match CallOpInterface::callee(op, ctx) {
            Some(CallOpCallable::Direct(name)) => assert!(rt; name.as_str() == "main"),
            _ => assert!(rt; false),
        }
        match CallOpInterface::verify(op, ctx) {
            Ok(()) => {
                let found = CallOpInterface::callee_type(op, ctx);
                assert!(rt; found == ty);
                assert!(rt; FunctionTypeInterface::arg_types(found, ctx).len() == 1);
                assert!(rt; FunctionTypeInterface::res_types(found, ctx).len() == 1);
            }
            Err(_) => assert!(rt; false),
        }
    }
}

/// The symbol that a call by name uses, where no table is around the call.
fn check_use(rt: &impl Abort, alloc: Global, ctx: &Context<Tiny>, op: Ptr<Operation>) {
    if op.is_live(ctx) {
        assert!(rt; SymbolUserOpInterface::verify_symbol_uses(op, ctx).is_err());
        match SymbolUserOpInterface::used_symbols(alloc, op, ctx) {
            Ok(names) => assert!(rt; names.len() == 1),
            Err(_) => assert!(rt; false),
        }
    }
}

/// A call without the type of what it calls, with one that is no function's, and with one that is.
fn check_calls(
    rt: &impl Abort,
    alloc: Global,
    ctx: &mut Context<Tiny>,
    integer: TypeHandle,
    function: TypeHandle,
) -> Result<(), GrowError> {
    let op = make(alloc, ctx, TinyOp::Invoke)?;
    put_attr(alloc, ctx, op, tiny_keys::CALLEE, name_attr(alloc, "main")?)?;
    let missing = VerifyFault::CallOp(CallOpInterfaceErr::CalleeTypeAttrNotFoundErr);
    check(rt, ctx, op, Err((OpInterface::CallOp, missing)));
    put_attr(
        alloc,
        ctx,
        op,
        tiny_keys::CALLEE_TYPE,
        TinyAttr::Held(integer),
    )?;
    let incorrect = VerifyFault::CallOp(CallOpInterfaceErr::CalleeTypeAttrIncorrectTypeErr);
    check(rt, ctx, op, Err((OpInterface::CallOp, incorrect)));
    put_attr(
        alloc,
        ctx,
        op,
        tiny_keys::CALLEE_TYPE,
        TinyAttr::Held(function),
    )?;
    check(rt, ctx, op, Ok(()));
    check_call(rt, ctx, op, function);
    check_use(rt, alloc, ctx, op);
    Ok(())
}

/// What a call by value that is accepted gives: its first segment has what is called, its second one what is handed over.
fn check_application(
    rt: &impl Abort,
    alloc: Global,
    ctx: &Context<Tiny>,
    op: Ptr<Operation>,
) -> Result<(), GrowError> {
    if op.is_live(ctx) {
        let args = CallOpInterface::args(alloc, op, ctx)?;
        assert!(rt; args.len() == 1);
        match CallOpInterface::callee(op, ctx) {
            Some(CallOpCallable::Indirect(value)) => {
                assert!(rt; op.get_num_operands(ctx) == 2);
                if op.get_num_operands(ctx) == 2 {
                    assert!(rt; value == op.get_operand(ctx, 0));
                }
            }
            _ => assert!(rt; false),
        }
        match OperandSegmentInterface::verify(op, ctx) {
            Ok(()) => {
                assert!(rt; OperandSegmentInterface::segment_sizes(op, ctx).len() == 2);
                if OperandSegmentInterface::num_segments(op, ctx) > 1 {
                    let segment = OperandSegmentInterface::get_segment(alloc, op, ctx, 1)?;
                    assert!(rt; segment == args);
                }
            }
            Err(_) => assert!(rt; false),
        }
    }
    Ok(())
}

/// Operands in segments: without sizes, with too few, with sizes that don't add up, and with those that do.
fn check_segments(
    rt: &impl Abort,
    alloc: Global,
    ctx: &mut Context<Tiny>,
    integer: TypeHandle,
    function: TypeHandle,
) -> Result<(), GrowError> {
    let op = make(alloc, ctx, TinyOp::Apply)?;
    put_attr(
        alloc,
        ctx,
        op,
        tiny_keys::CALLEE_TYPE,
        TinyAttr::Held(function),
    )?;
    put_operand(alloc, ctx, op, function)?;
    put_operand(alloc, ctx, op, integer)?;
    let missing = OperandSegmentInterfaceVerifyErr::OperandSegmentSizesAttrErr;
    let missing = VerifyFault::OperandSegment(missing);
    check(rt, ctx, op, Err((OpInterface::OperandSegment, missing)));
    put_attr(
        alloc,
        ctx,
        op,
        keys::SEGMENT_SIZES,
        sizes_attr(alloc, &[2])?,
    )?;
    let too_few = OperandSegmentInterfaceVerifyErr::SegmentCountMismatch(2, 1);
    let too_few = VerifyFault::OperandSegment(too_few);
    check(rt, ctx, op, Err((OpInterface::OperandSegment, too_few)));
    put_attr(
        alloc,
        ctx,
        op,
        keys::SEGMENT_SIZES,
        sizes_attr(alloc, &[1, 2])?,
    )?;
    let total = OperandSegmentInterfaceVerifyErr::OperandSegmentSizesTotalMismatchErr(2);
    let total = VerifyFault::OperandSegment(total);
    check(rt, ctx, op, Err((OpInterface::OperandSegment, total)));
    put_attr(
        alloc,
        ctx,
        op,
        keys::SEGMENT_SIZES,
        sizes_attr(alloc, &[2, 0])?,
    )?;
    put_attr(
        alloc,
        ctx,
        op,
        keys::SEGMENT_SIZES,
        sizes_attr(alloc, &[1, 1])?,
    )?;
    check(rt, ctx, op, Ok(()));
    check_application(rt, alloc, ctx, op)
}

/// Branches: what is forwarded must be as many as the block has arguments, and of their types.
fn check_branches(
    rt: &impl Abort,
    alloc: Global,
    ctx: &mut Context<Tiny>,
    integer: TypeHandle,
    function: TypeHandle,
) -> Result<(), GrowError> {
    let block = make_block(alloc, ctx, integer)?;
    let op = make(alloc, ctx, TinyOp::Go)?;
    let none = VerifyFault::Rows(RowsVerifyErr::NSuccs(NSuccsVerifyErr(1, 0)));
    check(rt, ctx, op, Err((OpInterface::OneSucc, none)));
    put_successor(alloc, ctx, op, block)?;
    let number = BranchOpInterfaceVerifyErr::SuccessorOperandsMismatch(0);
    check(
        rt,
        ctx,
        op,
        Err((OpInterface::Branch, VerifyFault::Branch(number))),
    );
    put_operand(alloc, ctx, op, integer)?;
    check(rt, ctx, op, Ok(()));
    let op = make(alloc, ctx, TinyOp::Go)?;
    put_successor(alloc, ctx, op, block)?;
    put_operand(alloc, ctx, op, function)?;
    let types = BranchOpInterfaceVerifyErr::SuccessorOperandTypeMismatch(0);
    check(
        rt,
        ctx,
        op,
        Err((OpInterface::Branch, VerifyFault::Branch(types))),
    );
    Ok(())
}

/// A branch with two edges forwards a segment along each.
fn check_edges(
    rt: &impl Abort,
    alloc: Global,
    ctx: &mut Context<Tiny>,
    integer: TypeHandle,
    function: TypeHandle,
) -> Result<(), GrowError> {
    let first = make_block(alloc, ctx, integer)?;
    let second = make_block(alloc, ctx, function)?;
    let op = make(alloc, ctx, TinyOp::CondGo)?;
    put_successor(alloc, ctx, op, first)?;
    put_successor(alloc, ctx, op, second)?;
    put_operand(alloc, ctx, op, integer)?;
    put_operand(alloc, ctx, op, integer)?;
    put_operand(alloc, ctx, op, function)?;
    put_attr(
        alloc,
        ctx,
        op,
        keys::SEGMENT_SIZES,
        sizes_attr(alloc, &[1, 2, 0])?,
    )?;
    let number = BranchOpInterfaceVerifyErr::SuccessorOperandsMismatch(0);
    check(
        rt,
        ctx,
        op,
        Err((OpInterface::Branch, VerifyFault::Branch(number))),
    );
    put_attr(
        alloc,
        ctx,
        op,
        keys::SEGMENT_SIZES,
        sizes_attr(alloc, &[1, 1, 1])?,
    )?;
    check(rt, ctx, op, Ok(()));
    if op.is_live(ctx) {
        if op.get_num_successors(ctx) == 2 {
            match BranchOpInterface::verify(op, ctx) {
                Ok(()) => {
                    let range = BranchOpInterface::successor_operand_range(op, ctx, 1);
                    assert!(rt; range.start == 2 && range.end == 3);
                    let forwarded = BranchOpInterface::successor_operands(alloc, op, ctx, 1)?;
                    assert!(rt; forwarded.len() == 1);
                }
                Err(_) => assert!(rt; false),
            }
        }
    }
    Ok(())
}

/// Asserts all of it.
fn check_all(rt: &impl Abort, alloc: Global, ctx: &mut Context<Tiny>) -> Result<(), GrowError> {
    let integer = ctx.instantiate_key(alloc, TinyType::Integer)?;
    let function = ctx.instantiate_key(alloc, TinyType::Function(integer, integer))?;
    check_symbols(rt, alloc, ctx)?;
    check_calls(rt, alloc, ctx, integer, function)?;
    check_segments(rt, alloc, ctx, integer, function)?;
    check_branches(rt, alloc, ctx, integer, function)?;
    check_edges(rt, alloc, ctx, integer, function)
}

/// Lets a context go. It stands in a function of its own so that it is proved once.
fn finish(_ctx: Context<Tiny>) {}

#[test]
fn interfaces_accept_what_fits(rt: HostRuntime) -> Result<(), Fail> {
    let mut ctx: Context<Tiny> = Context::new(rt.alloc());
    let outcome = check_all(&rt, rt.alloc(), &mut ctx);
    finish(ctx);
    assert!(rt; outcome.is_ok());
    Ok(())
}
