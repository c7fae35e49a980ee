//! Which operations have the name of an earlier one of their block.
ghost use Rattle.std.specs.Prelude.{◌≡◌, ◌↔◌, ◌⊎◌, ℕ, List, IfOk, IsSome, IsTrue, OnOk, Some, map};
ghost use Rattle.ir_program.specs.Lists.{IsLiveNode, operations_in};
ghost use Rattle.ir_program.specs.Program.{block_at, operation_at};
ghost use Rattle.ir_program.specs.declared.handles.Operation.{Operation};
ghost use Rattle.ir_program.specs.declared.handles.Ptr.{Ptr};
ghost use Rattle.kit_checks.specs.World.{world_of};
ghost use Rattle.kit_verifier.specs.Reading.{name_at};
ghost use Rattle.kit_verifier.specs.Repeats.{AreRepeats, HasNameAmong, IsRepeat, IsRepeatAt};
ghost use Rattle.kit_verifier.specs.Sets.{Gains, texts_of};
ghost use Rattle.opt_trees.specs.Occurrences.{Has};

use crate::reading::text_under;
use indexmap::IndexSet;
use ir_context::Context;
use ir_hashing::TextKey;
use ir_program::{BasicBlock, IRNode, Operation, Ptr};
use kit::Kit;
use kit_ops::keys;
use std::alloc::{AllocError, Global};

/// Puts a text to others. It answers whether it was one of them.
fn add_text<'a>(texts: &mut IndexSet<&'a str, TextKey>, text: &'a str) -> Result<bool, AllocError>
    ensures known { IfOk result (λ is. IsTrue is ↔ Has text.now (texts_of texts.old.keys)) }
    ensures texts { OnOk result (Gains (texts_of texts.old.keys) (texts_of texts.new.keys) (λ t. t ≡ text.now)) }
{
    Ok(!texts.insert(text)?)
}

/// Puts an operation to others.
fn add_operation(
    operations: &mut IndexSet<Ptr<Operation>>,
    op: Ptr<Operation>,
) -> Result<(), AllocError>
    ensures { OnOk result (Gains operations.old.keys operations.new.keys (λ p. p ≡ op)) }
{
    operations.insert(op)?;
    Ok(())
}

/// Whether an operation has a name that is among these. Its name is put to them.
pub(crate) fn is_repeat<'a>(
    ctx: &'a Context<Kit>,
    names: &mut IndexSet<&'a str, TextKey>,
    op: Ptr<Operation>,
) -> Result<bool, AllocError>
    requires { IsSome (operation_at ctx.now.program op) }
    ensures is { IfOk result (λ is. IsTrue is ↔
        HasNameAmong (world_of ctx.now) ctx.now.program (texts_of names.old.keys) op) }
    ensures names { OnOk result (Gains (texts_of names.old.keys) (texts_of names.new.keys)
        (λ t. name_at (world_of ctx.now) ctx.now.program op ≡ Some t)) }
{
    match text_under(ctx, op, keys::SYMBOL_NAME) {
        Some(name) => add_text(names, name),
        None => Ok(false),
    }
}

/// Puts an operation to others if it has a name that is among these. Its name is put to them.
fn add_if_repeat<'a>(
    ctx: &'a Context<Kit>,
    names: &mut IndexSet<&'a str, TextKey>,
    repeats: &mut IndexSet<Ptr<Operation>>,
    op: Ptr<Operation>,
) -> Result<(), AllocError>
    requires { IsSome (operation_at ctx.now.program op) }
    ensures names { OnOk result (Gains (texts_of names.old.keys) (texts_of names.new.keys)
        (λ t. name_at (world_of ctx.now) ctx.now.program op ≡ Some t)) }
    ensures repeats { OnOk result (Gains repeats.old.keys repeats.new.keys
        (λ p. (p ≡ op) × HasNameAmong (world_of ctx.now) ctx.now.program (texts_of names.old.keys) op)) }
{
    if is_repeat(ctx, names, op)? {
        return add_operation(repeats, op);
    }
    Ok(())
}

/// Puts the operations of a block that have the name of an earlier one there to others.
fn add_repeats(
    alloc: Global,
    ctx: &Context<Kit>,
    repeats: &mut IndexSet<Ptr<Operation>>,
    block: Ptr<BasicBlock>,
) -> Result<(), AllocError>
    requires { IsSome (block_at ctx.now.program block) }
    ensures { OnOk result (Gains repeats.old.keys repeats.new.keys
        (IsRepeat (world_of ctx.now) ctx.now.program (operations_in ctx.now.program block))) }
{
    let program = ctx.program();
    program.know_lists();
    let mut names = IndexSet::with_hasher(alloc, ctx.hash_key());
    for op in program.operations(block) {
        add_if_repeat(ctx, &mut names, repeats, op)?;
    }
    Ok(())
}

/// The same of an entity, if it is a block.
fn add_repeats_at(
    alloc: Global,
    ctx: &Context<Kit>,
    repeats: &mut IndexSet<Ptr<Operation>>,
    node: IRNode,
) -> Result<(), AllocError>
    requires { IsLiveNode ctx.now.program node }
    ensures { OnOk result (Gains repeats.old.keys repeats.new.keys
        (IsRepeatAt (world_of ctx.now) ctx.now.program node)) }
{
    match node {
        IRNode::BasicBlock(block) => add_repeats(alloc, ctx, repeats, block),
        IRNode::Operation(_) | IRNode::Region(_) => Ok(()),
    }
}

/// The operations inside a root that have the name of an earlier one of their block. The time is linear in what is
/// inside the root.
///
/// # Errors
/// No memory.
pub(crate) fn repeats_inside(
    alloc: Global,
    ctx: &Context<Kit>,
    root: Ptr<Operation>,
) -> Result<IndexSet<Ptr<Operation>>, AllocError>
    requires { IsSome (operation_at ctx.now.program root) }
    ensures { IfOk result (λ repeats. AreRepeats (world_of ctx.now) ctx.now.program root repeats.keys) }
{
    let program = ctx.program();
    let mut repeats = IndexSet::new(alloc);
    for node in program.nodes_inside(IRNode::Operation(root)) {
        add_repeats_at(alloc, ctx, &mut repeats, node)?;
    }
    Ok(repeats)
}
