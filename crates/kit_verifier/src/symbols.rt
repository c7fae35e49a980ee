//! Whether the blocks of modules have what a module may hold.
ghost use Rattle.std.specs.Prelude.{◌≡◌, ◌↔◌, IfOk, IsSome, IsTrue, Some, map};
ghost use Rattle.ir_program.specs.Lists.{operations_in};
ghost use Rattle.ir_program.specs.Program.{block_at, operation_at};
ghost use Rattle.kit_checks.specs.World.{world_of};
ghost use Rattle.kit_verifier.specs.Names.{AreSymbols, IsOfModule, IsSymbolAt};
ghost use Rattle.kit_verifier.specs.Reading.{name_at};
ghost use Rattle.kit_verifier.specs.Repeats.{HasNameAmong};
ghost use Rattle.kit_verifier.specs.Sets.{Gains, texts_of};

use crate::reading::kind_of;
use crate::repeats::is_repeat;
use indexmap::IndexSet;
use ir_context::{BlockCalls, Context};
use ir_hashing::TextKey;
use ir_program::{BasicBlock, Operation, Ptr};
use kit::Kit;
use kit_checks::{is_module, is_symbol};
use std::alloc::{AllocError, Global};

/// Whether a block is one of a module.
fn is_of_module(ctx: &Context<Kit>, block: Ptr<BasicBlock>) -> bool
    requires { IsSome (block_at ctx.now.program block) }
    ensures { IsTrue result ↔ IsOfModule (world_of ctx.now) ctx.now.program block }
{
    match block.get_parent_op(ctx) {
        Some(owner) => is_module(kind_of(ctx, owner)),
        None => false,
    }
}

/// Whether an operation is a module or a function whose name is none of these. Where it is, its name is put to them.
fn is_new_symbol<'a>(
    ctx: &'a Context<Kit>,
    names: &mut IndexSet<&'a str, TextKey>,
    op: Ptr<Operation>,
) -> Result<bool, AllocError>
    requires { IsSome (operation_at ctx.now.program op) }
    ensures is { IfOk result (λ is. IsTrue is ↔ (IsSymbolAt (world_of ctx.now) ctx.now.program op
        × (HasNameAmong (world_of ctx.now) ctx.now.program (texts_of names.old.keys) op → ⊥))) }
    ensures names { IfOk result (λ is. IsTrue is → Gains (texts_of names.old.keys) (texts_of names.new.keys)
        (λ t. name_at (world_of ctx.now) ctx.now.program op ≡ Some t)) }
{
    if !is_symbol(kind_of(ctx, op)) {
        return Ok(false);
    }
    let repeats = is_repeat(ctx, names, op)?;
    Ok(!repeats)
}

/// Whether the operations of a block are modules and functions, and none has the name of an earlier one.
fn are_symbols(
    alloc: Global,
    ctx: &Context<Kit>,
    block: Ptr<BasicBlock>,
) -> Result<bool, AllocError>
    requires { IsSome (block_at ctx.now.program block) }
    ensures { IfOk result (λ are. IsTrue are ↔
        AreSymbols (world_of ctx.now) ctx.now.program (operations_in ctx.now.program block)) }
{
    let program = ctx.program();
    program.know_lists();
    let mut names = IndexSet::with_hasher(alloc, ctx.hash_key());
    for op in program.operations(block) {
        let is_new = is_new_symbol(ctx, &mut names, op)?;
        if !is_new {
            return Ok(false);
        }
    }
    Ok(true)
}

/// Whether a block has what a module may hold, if it is one of a module. Only then its operations are gone over.
///
/// # Errors
/// No memory for their names.
pub(crate) fn holds_symbols(
    alloc: Global,
    ctx: &Context<Kit>,
    block: Ptr<BasicBlock>,
) -> Result<bool, AllocError>
    requires { IsSome (block_at ctx.now.program block) }
    ensures { IfOk result (λ holds. IsTrue holds ↔ (IsOfModule (world_of ctx.now) ctx.now.program block →
        AreSymbols (world_of ctx.now) ctx.now.program (operations_in ctx.now.program block))) }
{
    if !is_of_module(ctx, block) {
        return Ok(true);
    }
    are_symbols(alloc, ctx, block)
}
