//! Whether blocks end as they have to.
ghost use Rattle.std.specs.Prelude.{◌≡◌, ◌↔◌, IsSome, IsTrue};
ghost use Rattle.ir_names.specs.declared.interfaces.OpInterface.TheVariants.{NoTerminator, IsTerminator};
ghost use Rattle.ir_program.specs.Program.{operation_at, block_at};
ghost use Rattle.ir_program.specs.Lists.{IsLiveNode};
ghost use Rattle.ir_core.specs.verification.Tests.{NodeIsLive};
ghost use Rattle.ir_core.specs.verification.Endings.{implements, NeedsTerminator, ends_in_terminator, HasEarlyTerminator, HasFlaw, IsFlawed, SomeHasFlaw};

use crate::verification::BasicBlockVerifyErr;
use crate::verification::nodes::nodes_inside;
use ir_context::{BlockCalls, ContainsOperations, Context, OperationCalls};
use ir_names::OpInterface;
use ir_program::{BasicBlock, IRNode, Operation, Ptr};
use ir_types::DialectTables;

/// Whether the operation's kind implements the interface.
fn implements<D: DialectTables>(
    op: Ptr<Operation>,
    interface: OpInterface,
    ctx: &Context<D>,
) -> bool
    requires { IsSome (operation_at ctx.now.program op) }
    ensures { result ≡ implements D.op_has ctx.now.program interface op }
{
    D::op_implements(op.kind(ctx), interface)
}

/// Whether the block's last operation has to be a terminator: the kind of the operation that holds
/// it may say that its blocks need none.
fn needs_terminator<D: DialectTables>(block: Ptr<BasicBlock>, ctx: &Context<D>) -> bool
    requires { IsSome (block_at ctx.now.program block) }
    ensures { IsTrue result ↔ NeedsTerminator D.op_has ctx.now.program block }
{
    match block.get_parent_op(ctx) {
        Some(op) => !implements(op, OpInterface::NoTerminator, ctx),
        None => true,
    }
}

/// Whether the block has a last operation, and it is a terminator.
fn ends_in_terminator<D: DialectTables>(block: Ptr<BasicBlock>, ctx: &Context<D>) -> bool
    requires { IsSome (block_at ctx.now.program block) }
    ensures { result ≡ ends_in_terminator D.op_has ctx.now.program block }
{
    match block.get_tail(ctx) {
        Some(op) => implements(op, OpInterface::IsTerminator, ctx),
        None => false,
    }
}

/// Whether an operation of the block that isn't its last is a terminator.
fn has_early_terminator<D: DialectTables>(block: Ptr<BasicBlock>, ctx: &Context<D>) -> bool
    requires { IsSome (block_at ctx.now.program block) }
    ensures { IsTrue result ↔ HasEarlyTerminator D.op_has ctx.now.program block }
{
    // Whether the operation before is a terminator.
    let mut found = false;
    for op in block.iter(ctx) {
        if found {
            return true;
        }
        found = implements(op, OpInterface::IsTerminator, ctx);
    }
    false
}

/// Whether the block has the flaw.
pub(crate) fn has_flaw<D: DialectTables>(
    flaw: BasicBlockVerifyErr,
    block: Ptr<BasicBlock>,
    ctx: &Context<D>,
) -> bool
    requires { IsSome (block_at ctx.now.program block) }
    ensures { IsTrue result ↔ HasFlaw D.op_has ctx.now.program flaw block }
{
    match flaw {
        BasicBlockVerifyErr::MissingTerminator => {
            needs_terminator(block, ctx) && !ends_in_terminator(block, ctx)
        }
        BasicBlockVerifyErr::TerminatorNotLast => {
            needs_terminator(block, ctx) && has_early_terminator(block, ctx)
        }
        BasicBlockVerifyErr::NoParent => block.get_parent_region(ctx).is_none(),
    }
}

/// Whether the entity is a block that has the flaw; a handle that leads nowhere has none.
fn is_flawed<D: DialectTables>(flaw: BasicBlockVerifyErr, node: IRNode, ctx: &Context<D>) -> bool
    ensures { NodeIsLive ctx.now.program node → (IsTrue result ↔ IsFlawed D.op_has ctx.now.program flaw node) }
{
    match node {
        IRNode::BasicBlock(block) => block.is_live(ctx) && has_flaw(flaw, block, ctx),
        IRNode::Operation(_) | IRNode::Region(_) => false,
    }
}

/// Whether a block that is `outer` or stands inside it has the flaw.
pub(crate) fn some_has_flaw<D: DialectTables>(
    flaw: BasicBlockVerifyErr,
    outer: IRNode,
    ctx: &Context<D>,
) -> bool
    requires { IsLiveNode ctx.now.program outer }
    ensures { IsTrue result ↔ SomeHasFlaw D.op_has ctx.now.program flaw outer }
{
    for node in nodes_inside(outer, ctx) {
        if is_flawed(flaw, node, ctx) {
            return true;
        }
    }
    false
}
