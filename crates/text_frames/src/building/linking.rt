//! Operations that get their operands and successors.
ghost use Rattle.std.specs.Prelude.{◌≡◌, IsSome, OnErr, OnOk};
ghost use Rattle.text_dialect.specs.Seen.{seen};
ghost use Rattle.text_frames.specs.building.Kept.{GivesNumbers};
ghost use Rattle.text_frames.specs.building.Loose.{AreDefined, AreDefinedBlocks};
ghost use Rattle.text_frames.specs.building.Made.{LinksOperands, LinksSome, LinksSomeSuccessors, LinksSuccessors};

use ir_context::{Context, OperandCalls, SuccessorCalls};
use ir_program::{BasicBlock, Operation, Ptr, Value};
use ir_types::DialectTables;
use std::alloc::{AllocError, Global};

/// Gives an operation these values as operands, in their order, behind those that it has.
///
/// # Errors
/// Without memory it has got a front of them.
pub fn link_operands<D: DialectTables>(
    alloc: Global,
    ctx: &mut Context<D>,
    op: Ptr<Operation>,
    values: &[Value],
) -> Result<(), AllocError>
    requires op { IsSome ((seen ctx.old).operation op) }
    requires values { AreDefined (seen ctx.old) values.now }
    ensures linked { OnOk result (LinksOperands (seen ctx.old) (seen ctx.new) op values.now) }
    ensures err { OnErr result (LinksSome (seen ctx.old) (seen ctx.new) op values.now) }
    ensures numbers { GivesNumbers ctx.old.program ctx.new.program 0 }
    ensures types { ctx.new.types ≡ ctx.old.types }
{
    ctx.program().know_values();
    for value in values {
        op.push_operand(alloc, ctx, *value)?;
    }
    Ok(())
}

/// Gives an operation these blocks as successors, in their order, behind those that it has.
///
/// # Errors
/// Without memory it has got a front of them.
pub fn link_successors<D: DialectTables>(
    alloc: Global,
    ctx: &mut Context<D>,
    op: Ptr<Operation>,
    blocks: &[Ptr<BasicBlock>],
) -> Result<(), AllocError>
    requires op { IsSome ((seen ctx.old).operation op) }
    requires blocks { AreDefinedBlocks (seen ctx.old) blocks.now }
    ensures linked { OnOk result (LinksSuccessors (seen ctx.old) (seen ctx.new) op blocks.now) }
    ensures err { OnErr result (LinksSomeSuccessors (seen ctx.old) (seen ctx.new) op blocks.now) }
    ensures numbers { GivesNumbers ctx.old.program ctx.new.program 0 }
    ensures types { ctx.new.types ≡ ctx.old.types }
{
    for block in blocks {
        op.push_successor(alloc, ctx, *block)?;
    }
    Ok(())
}
