//! Whether the two rules on names are kept inside a root, found out by one walk.
ghost use Rattle.std.specs.Prelude.{◌≡◌, ◌↔◌, IfOk, IsSome, IsTrue, None, OnOk, map};
ghost use Rattle.ir_program.specs.Lists.{IsLiveNode};
ghost use Rattle.ir_program.specs.Program.{operation_at};
ghost use Rattle.ir_program.specs.declared.handles.IRNode.TheVariants.{Operation as OperationNode};
ghost use Rattle.kit_checks.specs.Reading.{OfTree};
ghost use Rattle.kit_checks.specs.Rules.{HasModuleBody};
ghost use Rattle.kit_checks.specs.Searching.{IsFirstBreakIn};
ghost use Rattle.kit_checks.specs.World.{world_of};
ghost use Rattle.kit_checks.specs.declared.rule.Rule.TheVariants.{ModuleHolds, CallsFit};
ghost use Rattle.kit_ops.specs.declared.kinds.KitOp.TheVariants.{Call};
ghost use Rattle.kit_verifier.specs.Callees.{IsCallableAt, callables_of};
ghost use Rattle.kit_verifier.specs.Names.{HoldsAt, IsCallAt, IsGathered};
ghost use Rattle.kit_verifier.specs.Sets.{Gains};

use crate::callees::{Callee, add_callee_at};
use crate::calls::all_fit;
use crate::modules::has_module_body;
use crate::reading::kind_of;
use crate::symbols::holds_symbols;
use indexmap::IndexSet;
use ir_context::Context;
use ir_hashing::TextKey;
use ir_program::{IRNode, Operation, Ptr};
use ir_trees::know_tree;
use kit::Kit;
use kit_ops::KitOp;
use std::alloc::{AllocError, Global};

/// The calls inside a root, and what they can call.
#[derive(Drop)]
struct CallsInside<'a> {
    /// The functions that can be called.
    callees: IndexSet<Callee<'a>, TextKey>,
    /// The calls, in walk order.
    calls: Vec<Ptr<Operation>>,
}

/// Whether an operation has a module's body.
fn has_body(ctx: &Context<Kit>, op: Ptr<Operation>) -> bool
    requires { IsSome (operation_at ctx.now.program op) }
    ensures { IsTrue result ↔ OfTree ctx.now.program op HasModuleBody }
{
    let program = ctx.program();
    know_tree(program, op);
    has_module_body(program, op)
}

/// Puts an operation to others.
fn add_call(calls: &mut Vec<Ptr<Operation>>, op: Ptr<Operation>) -> Result<(), AllocError>
    ensures { OnOk result (Gains calls.old.items calls.new.items (λ p. p ≡ op)) }
{
    calls.push(op)?;
    Ok(())
}

/// Puts an operation to the functions that can be called or to the calls, if it is one. It answers whether it has a
/// module's body if it is a module.
fn gather_operation<'a>(
    ctx: &'a Context<Kit>,
    callees: &mut IndexSet<Callee<'a>, TextKey>,
    calls: &mut Vec<Ptr<Operation>>,
    op: Ptr<Operation>,
) -> Result<bool, AllocError>
    requires { IsSome (operation_at ctx.now.program op) }
    ensures holds { IfOk result (λ holds. IsTrue holds ↔
        HoldsAt (world_of ctx.now) ctx.now.program (OperationNode op)) }
    ensures callees { OnOk result (Gains (callables_of callees.old.keys) (callables_of callees.new.keys)
        (IsCallableAt (world_of ctx.now) ctx.now.program (OperationNode op))) }
    ensures calls { OnOk result (Gains calls.old.items calls.new.items
        (IsCallAt (world_of ctx.now) ctx.now.program (OperationNode op))) }
{
    match kind_of(ctx, op) {
        KitOp::Module => Ok(has_body(ctx, op)),
        KitOp::Func => {
            add_callee_at(ctx, callees, IRNode::Operation(op))?;
            Ok(true)
        }
        KitOp::Call => {
            add_call(calls, op)?;
            Ok(true)
        }
        _ => Ok(true),
    }
}

/// The same of an entity. It answers whether a module holds what it may, as far as the entity itself says.
fn gather_at<'a>(
    alloc: Global,
    ctx: &'a Context<Kit>,
    callees: &mut IndexSet<Callee<'a>, TextKey>,
    calls: &mut Vec<Ptr<Operation>>,
    node: IRNode,
) -> Result<bool, AllocError>
    requires { IsLiveNode ctx.now.program node }
    ensures holds { IfOk result (λ holds. IsTrue holds ↔ HoldsAt (world_of ctx.now) ctx.now.program node) }
    ensures callees { OnOk result (Gains (callables_of callees.old.keys) (callables_of callees.new.keys)
        (IsCallableAt (world_of ctx.now) ctx.now.program node)) }
    ensures calls { OnOk result (Gains calls.old.items calls.new.items
        (IsCallAt (world_of ctx.now) ctx.now.program node)) }
{
    match node {
        IRNode::Operation(op) => gather_operation(ctx, callees, calls, op),
        IRNode::BasicBlock(block) => holds_symbols(alloc, ctx, block),
        IRNode::Region(_) => Ok(true),
    }
}

/// The calls inside a root and what they can call; none where a module there holds what it may not. The time is linear
/// in what is inside the root.
///
/// # Errors
/// No memory.
fn gather<'a>(
    alloc: Global,
    ctx: &'a Context<Kit>,
    root: Ptr<Operation>,
) -> Result<Option<CallsInside<'a>>, AllocError>
    requires { IsSome (operation_at ctx.now.program root) }
    ensures { IfOk result (IsGathered (world_of ctx.now) ctx.now.program root) }
{
    let program = ctx.program();
    let mut callees = IndexSet::with_hasher(alloc, ctx.hash_key());
    let mut calls = Vec::new(alloc);
    for node in program.nodes_inside(IRNode::Operation(root)) {
        let holds = gather_at(alloc, ctx, &mut callees, &mut calls, node)?;
        if !holds {
            return Ok(None);
        }
    }
    Ok(Some(CallsInside { callees, calls }))
}

/// Whether all modules inside a root hold what they may, and all calls there call a function that is there. One walk
/// tests the modules and gathers the calls, which are tested when all functions are known.
///
/// # Errors
/// No memory.
pub(crate) fn keeps_names(
    alloc: Global,
    ctx: &Context<Kit>,
    root: Ptr<Operation>,
) -> Result<bool, AllocError>
    requires { IsSome (operation_at ctx.now.program root) }
    ensures { IfOk result
        (λ kept. IsTrue kept ↔ (IsFirstBreakIn (world_of ctx.now) ctx.now.program root ModuleHolds None
        × IsFirstBreakIn (world_of ctx.now) ctx.now.program root CallsFit None)) }
{
    let program = ctx.program();
    program.know_lists();
    know_tree(program, root);
    let _inside = program.nodes_inside(IRNode::Operation(root));
    let gathered = gather(alloc, ctx, root)?;
    match gathered {
        Some(found) => Ok(all_fit(ctx, root, &found.callees, found.calls.as_slice())),
        None => Ok(false),
    }
}
