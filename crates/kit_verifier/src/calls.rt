//! Whether a call calls a function that is there.
ghost use Rattle.std.specs.Prelude.{◌≡◌, ◌↔◌, IsSome, IsTrue, None, Some, option_map};
ghost use Rattle.ir_program.specs.Lists.{StandsInside};
ghost use Rattle.ir_program.specs.Program.{operation_at};
ghost use Rattle.ir_program.specs.declared.handles.IRNode.TheVariants.{Operation as OperationNode};
ghost use Rattle.kit_checks.specs.Reading.{OfSite};
ghost use Rattle.kit_checks.specs.Rules.{CallsFit};
ghost use Rattle.kit_checks.specs.Searching.{IsFirstBreakIn};
ghost use Rattle.kit_checks.specs.World.{world_of};
ghost use Rattle.kit_checks.specs.declared.rule.Rule.TheVariants.{CallsFit as CallsRule};
ghost use Rattle.kit_ops.specs.declared.kinds.KitOp.TheVariants.{Call};
ghost use Rattle.kit_verifier.specs.Callees.{AreCallees, Calls, CallsOne, Callable, callable_of, callables_of};
ghost use Rattle.kit_verifier.specs.Names.{AreCalls};
ghost use Rattle.kit_verifier.specs.Reading.{kind_at};

use crate::callees::{Callee, callee_from, has_callee};
use crate::reading::{kind_of, text_under, type_under};
use crate::scopes::nearest_module;
use crate::signatures::has_signature;
use indexmap::IndexSet;
use ir_context::Context;
use ir_hashing::TextKey;
use ir_program::{IRNode, Operation, Ptr};
use ir_trees::know_tree;
use kit::Kit;
use kit_ops::{KitOp, keys};

/// Whether operations of this kind are calls.
fn is_call(kind: KitOp) -> bool
    ensures { IsTrue result ↔ (kind ≡ Call) }
{
    match kind {
        KitOp::Call => true,
        _ => false,
    }
}

/// What a call calls: a function of the nearest module that the call is in, by the name and the type that it says.
fn called_by<'a>(
    ctx: &'a Context<Kit>,
    root: Ptr<Operation>,
    op: Ptr<Operation>,
) -> Option<Callee<'a>>
    requires root { IsSome (operation_at ctx.now.program root) }
    requires inside { StandsInside ctx.now.program (OperationNode root) (OperationNode op) }
    requires op { IsSome (operation_at ctx.now.program op) }
    requires call { kind_at (world_of ctx.now) ctx.now.program op ≡ Some Call }
    ensures { OfSite ctx.now.program root op (λ s. (q : Callable) → (option_map callable_of result ≡ Some q) ↔
        Calls (world_of ctx.now) ctx.now.program s q) }
{
    callee_from(
        nearest_module(ctx, root, op),
        text_under(ctx, op, keys::CALLEE),
        type_under(ctx, op, keys::CALLEE_TYPE),
    )
}

/// Whether a call calls a function that is there, and has its type.
fn calls_function<'a>(
    ctx: &'a Context<Kit>,
    root: Ptr<Operation>,
    callees: &IndexSet<Callee<'a>, TextKey>,
    op: Ptr<Operation>,
) -> bool
    requires root { IsSome (operation_at ctx.now.program root) }
    requires inside { StandsInside ctx.now.program (OperationNode root) (OperationNode op) }
    requires op { IsSome (operation_at ctx.now.program op) }
    requires call { kind_at (world_of ctx.now) ctx.now.program op ≡ Some Call }
    requires table { AreCallees (world_of ctx.now) ctx.now.program root (callables_of callees.now.keys) }
    ensures { OfSite ctx.now.program root op (λ s. IsTrue result ↔ CallsOne (world_of ctx.now) s) }
{
    ctx.program().know_lists();
    match called_by(ctx, root, op) {
        Some(callee) => {
            if !has_callee(callees, callee) {
                return false;
            }
            has_signature(ctx, op, callee.ty)
        }
        None => false,
    }
}

/// Whether an operation, if it is a call, calls a function that is there, and has its type.
pub(crate) fn calls_fit<'a>(
    ctx: &'a Context<Kit>,
    root: Ptr<Operation>,
    callees: &IndexSet<Callee<'a>, TextKey>,
    op: Ptr<Operation>,
) -> bool
    requires root { IsSome (operation_at ctx.now.program root) }
    requires inside { StandsInside ctx.now.program (OperationNode root) (OperationNode op) }
    requires op { IsSome (operation_at ctx.now.program op) }
    requires table { AreCallees (world_of ctx.now) ctx.now.program root (callables_of callees.now.keys) }
    ensures { OfSite ctx.now.program root op (λ s. IsTrue result ↔ CallsFit (world_of ctx.now) s) }
{
    if !is_call(kind_of(ctx, op)) {
        return true;
    }
    calls_function(ctx, root, callees, op)
}

/// Whether the rule on calls is kept in the tree that the root stands for, where these are the calls inside the root.
pub(crate) fn all_fit<'a>(
    ctx: &'a Context<Kit>,
    root: Ptr<Operation>,
    callees: &IndexSet<Callee<'a>, TextKey>,
    calls: &[Ptr<Operation>],
) -> bool
    requires root { IsSome (operation_at ctx.now.program root) }
    requires calls { AreCalls (world_of ctx.now) ctx.now.program root calls.now }
    requires table { AreCallees (world_of ctx.now) ctx.now.program root (callables_of callees.now.keys) }
    ensures { IsTrue result ↔ IsFirstBreakIn (world_of ctx.now) ctx.now.program root CallsRule None }
{
    let program = ctx.program();
    program.know_lists();
    know_tree(program, root);
    let _inside = program.nodes_inside(IRNode::Operation(root));
    for call in calls {
        if !calls_fit(ctx, root, callees, *call) {
            return false;
        }
    }
    true
}
