//! What verifying finds.
use crate::tiny::{Tiny, TinyAttr};
use ir_core::{
    BasicBlock, BasicBlockVerifyErr, BlockCalls, Context, Operation, OperationCalls, Ptr,
    TypeHandle, Verifiers, Verify, VerifyErr, verify_operation,
};

/// Tests that accept everything.
struct AcceptsAll;

impl Verifiers<Tiny> for AcceptsAll {
    ghost use Rattle.std.specs.Prelude.{⊤};

    type Fault = u8;

    ghost accepts = { λ _ _ _. ⊤ };

    ghost answers = { λ _ _ _ _. ⊤ };

    fn verify_op(&self, _op: Ptr<Operation>, _ctx: &Context<Tiny>) -> Result<(), u8> {
        Ok(())
    }

    fn verify_attr(&self, _attr: &TinyAttr, _ctx: &Context<Tiny>) -> Result<(), u8> {
        Ok(())
    }

    fn verify_type(&self, _ty: TypeHandle, _ctx: &Context<Tiny>) -> Result<(), u8> {
        Ok(())
    }
}

/// What is wrong with a block inside an operation.
pub fn flaw_of_operation(ctx: &Context<Tiny>, op: Ptr<Operation>) -> &'static str {
    if !op.is_live(ctx) {
        return "gone";
    }
    flaw_word(verify_operation(op, ctx, &AcceptsAll))
}

/// What is wrong with a block.
pub fn flaw_of_block(ctx: &Context<Tiny>, block: Ptr<BasicBlock>) -> &'static str {
    if !block.is_live(ctx) {
        return "gone";
    }
    flaw_word(block.verify(ctx, &AcceptsAll))
}

/// The word for what is wrong.
fn flaw_word(outcome: Result<(), VerifyErr<u8>>) -> &'static str {
    match outcome {
        Ok(()) => "fine",
        Err(VerifyErr::Own(_)) => "the dialect's fault",
        Err(VerifyErr::Block(BasicBlockVerifyErr::MissingTerminator)) => "MissingTerminator",
        Err(VerifyErr::Block(BasicBlockVerifyErr::TerminatorNotLast)) => "TerminatorNotLast",
        Err(VerifyErr::Block(BasicBlockVerifyErr::NoParent)) => "NoParent",
    }
}
