//! One decided branch, made unconditional.
ghost use Rattle.std.specs.Prelude.{◌≡◌, ◌≢◌, [], IfErr, IfOk, IsSome, OnErr, slice_get};
ghost use Rattle.ir_program.specs.Lists.{IsLinkedOperation, IsUnlinkedOperation, regions_in};
ghost use Rattle.ir_program.specs.Program.{operation_at, results_at};
ghost use Rattle.ir_program.specs.Rows.{successors_at};
ghost use Rattle.opt_dialect.specs.declared.status.OptError.TheVariants.{Memory};
ghost use Rattle.opt_decide.specs.Replaced.{BuildsBranch, DecidesBranch, LeadsAlikeForGood, SwapsIn};
ghost use Rattle.opt_trees.specs.Occurrences.{cons_if};

use crate::Decision;
use ir_context::{OperationErasing, OperationLists, TypeTable, TypedProgram};
use ir_program::{BasicBlock, Operation, Program, Ptr};
use opt_dialect::{OptDialect, OptError};
use opt_inside::forwarding::forwarded_operands;
use std::alloc::{AllocError, Global};

/// The block that an edge leads to, if there is such an edge.
fn target_of<O, B>(
    alloc: Global,
    program: &Program<O, B>,
    op: Ptr<Operation>,
    edge: usize,
) -> Result<Vec<Ptr<BasicBlock>>, AllocError>
    requires { IsSome (operation_at program.now op) }
    ensures { IfOk result (λ targets. targets.items ≡ cons_if (slice_get (successors_at program.now op) edge) []) }
{
    let mut targets = Vec::new(alloc);
    if edge < program.successor_count(op) {
        targets.push(program.successor(op, edge))?;
    }
    Ok(targets)
}

/// Makes the unconditional branch along the edge of a decision. It stands in no block.
///
/// # Errors
/// There may be no memory. Each handle leads to what it led to then.
fn new_branch<D: OptDialect, T: TypeTable>(
    alloc: Global,
    ctx: &mut TypedProgram<D::Operation, D::Block, T>,
    decision: Decision,
) -> Result<Ptr<Operation>, OptError>
    requires there { IsSome (operation_at ctx.old.program decision.op) }
    requires plain { IsSome D.meaning.plain }
    ensures built { IfOk result (λ branch. BuildsBranch D.meaning ctx.old.program ctx.new.program decision branch) }
    ensures same { OnErr result (LeadsAlikeForGood ctx.old.program ctx.new.program) }
    ensures refused { IfErr result (λ e. e ≡ Memory) }
    ensures numbers { ctx.new.program.counter ≡ ctx.old.program.counter }
    ensures types { ctx.new.types ≡ ctx.old.types }
{
    let program = ctx.program();
    program.know_values();
    program.know_operands();
    program.know_successors();
    let Some(payload) = D::unconditional(alloc)? else {
        unreachable!()
    };
    let operands = forwarded_operands::<D>(alloc, ctx.program(), decision.op, decision.edge)?;
    let successors = target_of(alloc, ctx.program(), decision.op, decision.edge)?;
    let branch = ctx.new_operation(alloc, payload, &[], &operands, &successors, 0)?;
    Ok(branch)
}

/// Puts an operation that stands in no block in place of another, which is erased. Neither has regions, and the other one
/// has no results.
fn put_in_place<O: Drop, B: Drop, T: TypeTable>(
    ctx: &mut TypedProgram<O, B, T>,
    op: Ptr<Operation>,
    other: Ptr<Operation>,
)
    requires linked { IsLinkedOperation ctx.old.program op }
    requires results { results_at ctx.old.program op ≡ [] }
    requires regions { regions_in ctx.old.program op ≡ [] }
    requires live { IsSome (operation_at ctx.old.program other) }
    requires unlinked { IsUnlinkedOperation ctx.old.program other }
    requires bare { regions_in ctx.old.program other ≡ [] }
    requires two { op ≢ other }
    ensures swaps { SwapsIn ctx.old.program ctx.new.program op other }
    ensures numbers { ctx.new.program.counter ≡ ctx.old.program.counter }
    ensures types { ctx.new.types ≡ ctx.old.types }
{
    ctx.program().know_lists();
    other.insert_before(ctx, op);
    ctx.program().know_values();
    ctx.program().know_operands();
    op.erase(ctx);
}

/// Makes a decided branch the unconditional branch along its edge: a new operation in its place, which forwards what the
/// old one forwarded along that edge. The time is linear in the operands.
///
/// # Errors
/// There may be no memory. Each handle leads to what it led to then.
pub fn decide_branch<D: OptDialect, T: TypeTable>(
    alloc: Global,
    ctx: &mut TypedProgram<D::Operation, D::Block, T>,
    decision: Decision,
) -> Result<Ptr<Operation>, OptError>
    requires linked { IsLinkedOperation ctx.old.program decision.op }
    requires results { results_at ctx.old.program decision.op ≡ [] }
    requires regions { regions_in ctx.old.program decision.op ≡ [] }
    requires plain { IsSome D.meaning.plain }
    ensures decided { IfOk result (λ branch. DecidesBranch D.meaning ctx.old.program ctx.new.program decision branch) }
    ensures same { OnErr result (LeadsAlikeForGood ctx.old.program ctx.new.program) }
    ensures refused { IfErr result (λ e. e ≡ Memory) }
    ensures numbers { ctx.new.program.counter ≡ ctx.old.program.counter }
    ensures types { ctx.new.types ≡ ctx.old.types }
{
    let branch = new_branch::<D, T>(alloc, ctx, decision)?;
    put_in_place(ctx, decision.op, branch);
    Ok(branch)
}
