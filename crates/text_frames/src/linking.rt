//! The operands and successors of the operations of a text, once all values and blocks are made.
ghost use Rattle.std.specs.Prelude.{◌≡◌, ◌∷◌, [], ℕ, List, Some, None, IsSome, OnOk};
ghost use Rattle.ir_program.specs.declared.handles.BasicBlock.{BasicBlock};
ghost use Rattle.ir_program.specs.declared.handles.IRNode.{IRNode};
ghost use Rattle.ir_program.specs.declared.handles.Ptr.{Ptr};
ghost use Rattle.ir_program.specs.declared.handles.Value.{Value};
ghost use Rattle.text_dialect.specs.Seen.{Seen, seen};
ghost use Rattle.text_frames.specs.building.Kept.{GivesNumbers};
ghost use Rattle.text_frames.specs.building.Loose.{IsDefinedValue};
ghost use Rattle.text_frames.specs.building.Made.{LinksOperands, LinksSuccessors};
ghost use Rattle.text_frames.specs.Linking.{meant, target, AreMeant, AreTargets, CanLink, Links};
ghost use Rattle.text_frames.specs.Raised.{AreWaiting, HoldsAllNew};
ghost use Rattle.text_frames.specs.Worlds.{NameTokens};

use crate::assembly::Assembly;
use crate::building::{link_operands, link_successors};
use ir_context::Context;
use ir_program::{BasicBlock, Operation, Ptr, Value};
use ir_scopes::scopes::Resolution;
use ir_types::DialectTables;
use std::alloc::{AllocError, Global};

/// The value that a token names.
fn value_of(values: &[Option<Value>], resolution: &Resolution, token: usize) -> Option<Value>
    ensures { result ≡ meant values.now resolution.now.definitions token }
{
    let number = resolution.definitions.get(token)?;
    *values.get(number)?
}

/// Gives an operation the operands that its names mean.
fn link_one<D: DialectTables>(
    alloc: Global,
    ctx: &mut Context<D>,
    resolution: &Resolution,
    values: &[Option<Value>],
    op: Ptr<Operation>,
    tokens: &[usize],
) -> Result<(), AllocError>
    requires op { IsSome ((seen ctx.old).operation op) }
    requires meant { (vs : List Value)
        × AreMeant (seen ctx.old) values.now resolution.now.definitions vs tokens.now }
    ensures linked { (vs : List Value)
        → AreMeant (seen ctx.old) values.now resolution.now.definitions vs tokens.now
        → OnOk result (LinksOperands (seen ctx.old) (seen ctx.new) op vs) }
    // The loose things stay what they are, whatever the start was before which the operation wasn't there.
    ensures held { (start : Seen D.OpKind D.Attr D.TypeKey) (xs : List IRNode) → HoldsAllNew start (seen ctx.old) xs
        → start.operation op ≡ None → HoldsAllNew start (seen ctx.new) xs }
    ensures numbers { GivesNumbers ctx.old.program ctx.new.program 0 }
    ensures types { ctx.new.types ≡ ctx.old.types }
{
    for token in tokens {
        if let Some(value) = value_of(values, resolution, *token) {
            link_operands(alloc, ctx, op, &[value])?;
        }
    }
    Ok(())
}

/// The block that a label's token names.
fn block_of(
    blocks: &[Ptr<BasicBlock>],
    resolution: &Resolution,
    token: usize,
) -> Option<Ptr<BasicBlock>>
    ensures { result ≡ target blocks.now resolution.now.definitions token }
{
    let number = resolution.definitions.get(token)?;
    Some(*blocks.get(number)?)
}

/// Gives an operation the successors that its labels mean.
fn link_edges<D: DialectTables>(
    alloc: Global,
    ctx: &mut Context<D>,
    resolution: &Resolution,
    blocks: &[Ptr<BasicBlock>],
    op: Ptr<Operation>,
    labels: &[usize],
) -> Result<(), AllocError>
    requires op { IsSome ((seen ctx.old).operation op) }
    requires meant { (bs : List (Ptr BasicBlock))
        × AreTargets (seen ctx.old) blocks.now resolution.now.definitions bs labels.now }
    ensures linked { (bs : List (Ptr BasicBlock))
        → AreTargets (seen ctx.old) blocks.now resolution.now.definitions bs labels.now
        → OnOk result (LinksSuccessors (seen ctx.old) (seen ctx.new) op bs) }
    // The loose things stay what they are, whatever the start was before which the operation wasn't there.
    ensures held { (start : Seen D.OpKind D.Attr D.TypeKey) (xs : List IRNode) → HoldsAllNew start (seen ctx.old) xs
        → start.operation op ≡ None → HoldsAllNew start (seen ctx.new) xs }
    ensures numbers { GivesNumbers ctx.old.program ctx.new.program 0 }
    ensures types { ctx.new.types ≡ ctx.old.types }
{
    for label in labels {
        if let Some(block) = block_of(blocks, resolution, *label) {
            link_successors(alloc, ctx, op, &[block])?;
        }
    }
    Ok(())
}

/// Gives each operation of a text the operands that its names mean, and the successors that its labels mean.
///
/// # Errors
/// Without memory some have theirs, and others not.
pub fn link<D: DialectTables>(
    alloc: Global,
    ctx: &mut Context<D>,
    resolution: &Resolution,
    assembly: &Assembly,
) -> Result<(), AllocError>
    requires waiting { (start : Seen D.OpKind D.Attr D.TypeKey) × (names : NameTokens)
        × AreWaiting start (seen ctx.old) assembly.now.pending.items names }
    requires meant { CanLink (seen ctx.old) assembly.now.values.items assembly.now.blocks.items
        resolution.now.definitions assembly.now.pending.items }
    ensures linked { OnOk result (Links (seen ctx.old) (seen ctx.new) assembly.now.values.items
        assembly.now.blocks.items resolution.now.definitions assembly.now.pending.items) }
    // The loose things stay what they are, on an error too.
    ensures held { (start : Seen D.OpKind D.Attr D.TypeKey) (names : NameTokens) (xs : List IRNode)
        → AreWaiting start (seen ctx.old) assembly.now.pending.items names → HoldsAllNew start (seen ctx.old) xs
        → HoldsAllNew start (seen ctx.new) xs }
    ensures numbers { GivesNumbers ctx.old.program ctx.new.program 0 }
    ensures types { ctx.new.types ≡ ctx.old.types }
{
    let pending = &assembly.pending;
    for index in 0..pending.len() {
        let op = pending.op(index);
        let tokens = pending.tokens(index);
        link_one(alloc, ctx, resolution, &assembly.values, op, tokens)?;
        let labels = pending.labels(index);
        link_edges(alloc, ctx, resolution, &assembly.blocks, op, labels)?;
    }
    Ok(())
}
