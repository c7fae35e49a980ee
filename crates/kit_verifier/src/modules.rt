//! Whether a module holds what it may.
ghost use Rattle.std.specs.Prelude.{◌≡◌, ◌↔◌, IsSome, IsTrue, Some};
ghost use Rattle.ir_program.specs.Program.{operation_at, region_at};
ghost use Rattle.kit_checks.specs.Passing.{OfRegion};
ghost use Rattle.kit_checks.specs.Reading.{OfSite, OfTree};
ghost use Rattle.kit_checks.specs.Rules.{HasModuleBody, ModuleHolds};
ghost use Rattle.kit_checks.specs.World.{world_of};
ghost use Rattle.kit_checks.specs.Sites.{Around};
ghost use Rattle.kit_checks.specs.Words.{kind_of};
ghost use Rattle.kit_ops.specs.declared.kinds.KitOp.TheVariants.{Module};
ghost use Rattle.kit_verifier.specs.Repeats.{AreRepeats, HasPlainBlock, MayBeHeld};
ghost use Rattle.opt_trees.specs.Occurrences.{Has};

use crate::reading::kind_of;
use indexmap::IndexSet;
use ir_context::{Context, OperationCalls};
use ir_program::{Operation, Program, Ptr, Region};
use kit::Kit;
use kit_checks::{is_in_module, is_module, is_symbol};

/// Whether a region has one block, and that has no arguments.
fn has_plain_block<O, B>(program: &Program<O, B>, region: Ptr<Region>) -> bool
    requires { IsSome (region_at program.now region) }
    ensures { OfRegion program.now region (λ blocks. IsTrue result ↔ HasPlainBlock blocks) }
{
    match program.first_block(region) {
        Some(block) => match program.next_block(block) {
            Some(_) => false,
            None => program.argument_count(block) == 0,
        },
        None => false,
    }
}

/// Whether an operation has one region with one block without arguments.
pub(crate) fn has_module_body<O, B>(program: &Program<O, B>, op: Ptr<Operation>) -> bool
    requires { IsSome (operation_at program.now op) }
    ensures { OfTree program.now op (λ u. IsTrue result ↔ HasModuleBody u) }
{
    if program.region_count(op) != 1 {
        return false;
    }
    match program.region(op, 0) {
        Some(region) => has_plain_block(program, region),
        None => false,
    }
}

/// Whether an operation has a module's body if it is a module.
fn has_body_if_module(ctx: &Context<Kit>, op: Ptr<Operation>) -> bool
    requires { IsSome (operation_at ctx.now.program op) }
    ensures { OfTree ctx.now.program op (λ u. IsTrue result ↔
        (kind_of (world_of ctx.now) u ≡ Module → HasModuleBody u)) }
{
    if !is_module(kind_of(ctx, op)) {
        return true;
    }
    has_module_body(ctx.program(), op)
}

/// Whether an operation isn't one of these.
fn is_none_of(operations: &IndexSet<Ptr<Operation>>, op: Ptr<Operation>) -> bool
    ensures { IsTrue result ↔ (Has op operations.now.keys → ⊥) }
{
    !operations.contains(&op)
}

/// Whether a module may hold an operation: a module or a function, with a name that none before it has.
fn may_be_held(
    ctx: &Context<Kit>,
    root: Ptr<Operation>,
    repeats: &IndexSet<Ptr<Operation>>,
    op: Ptr<Operation>,
) -> bool
    requires op { IsSome (operation_at ctx.now.program op) }
    requires table { AreRepeats (world_of ctx.now) ctx.now.program root repeats.now.keys }
    ensures { OfSite ctx.now.program root op (λ s. (a : Around _ _) → s.around ≡ Some a →
        IsTrue result ↔ MayBeHeld (world_of ctx.now) s a) }
{
    ctx.program().know_lists();
    if !is_symbol(kind_of(ctx, op)) {
        return false;
    }
    is_none_of(repeats, op)
}

/// Whether an operation has a module's body if it is one, and is what a module may hold if it is in one.
pub(crate) fn module_holds(
    ctx: &Context<Kit>,
    root: Ptr<Operation>,
    repeats: &IndexSet<Ptr<Operation>>,
    op: Ptr<Operation>,
) -> bool
    requires op { IsSome (operation_at ctx.now.program op) }
    requires table { AreRepeats (world_of ctx.now) ctx.now.program root repeats.now.keys }
    ensures { OfSite ctx.now.program root op (λ s. IsTrue result ↔ ModuleHolds (world_of ctx.now) s) }
{
    if !has_body_if_module(ctx, op) {
        return false;
    }
    if !is_in_module(ctx, root, op) {
        return true;
    }
    may_be_held(ctx, root, repeats, op)
}
