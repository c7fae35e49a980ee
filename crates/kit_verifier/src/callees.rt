//! What functions there are to be called.
ghost use Rattle.std.specs.Prelude.{◌≡◌, ◌↔◌, IfOk, IsSome, IsTrue, OnOk, Some, map, option_map};
ghost use Rattle.ir_program.specs.Lists.{IsLiveNode};
ghost use Rattle.ir_program.specs.Program.{operation_at};
ghost use Rattle.kit_checks.specs.World.{world_of};
ghost use Rattle.kit_verifier.specs.Callees.{AreCallees, Callable, IsCallable, IsCallableAt};
ghost use Rattle.kit_verifier.specs.Callees.{callable_from, callable_of, callables_of};
ghost use Rattle.kit_verifier.specs.Sets.{Gains};
ghost use Rattle.opt_trees.specs.Occurrences.{Has};

use crate::reading::{kind_of, text_under, type_under};
use indexmap::IndexSet;
use ir_context::{Context, OperationCalls};
use ir_hashing::TextKey;
use ir_names::TypeHandle;
use ir_program::{IRNode, Operation, Ptr};
use kit::Kit;
use kit_checks::is_function;
use kit_ops::keys;
use std::alloc::{AllocError, Global};

/// What a call may call: a function by the operation that it is in, its name and its type.
#[derive(Clone, Copy, PartialEq, Eq, Hash)]
pub(crate) struct Callee<'a> {
    pub(crate) scope: Ptr<Operation>,
    pub(crate) name: &'a str,
    pub(crate) ty: TypeHandle,
}

/// Puts what is known of a function together, if all of it is.
pub(crate) fn callee_from<'a>(
    scope: Option<Ptr<Operation>>,
    name: Option<&'a str>,
    ty: Option<TypeHandle>,
) -> Option<Callee<'a>>
    ensures { option_map callable_of result ≡ callable_from scope (option_map (λ text. text.now) name.entry) ty }
{
    match scope {
        Some(scope) => match name {
            Some(name) => match ty {
                Some(ty) => Some(Callee { scope, name, ty }),
                None => None,
            },
            None => None,
        },
        None => None,
    }
}

/// Puts a function to others.
fn add_callee<'a>(
    callees: &mut IndexSet<Callee<'a>, TextKey>,
    callee: Callee<'a>,
) -> Result<(), AllocError>
    ensures { OnOk result (Gains (callables_of callees.old.keys) (callables_of callees.new.keys)
        (λ q. q ≡ callable_of callee.entry)) }
{
    callees.insert(callee)?;
    Ok(())
}

/// Whether there is such a function.
pub(crate) fn has_callee<'a>(callees: &IndexSet<Callee<'a>, TextKey>, callee: Callee<'a>) -> bool
    ensures { IsTrue result ↔ Has (callable_of callee.entry) (callables_of callees.now.keys) }
{
    callees.contains(&callee)
}

/// As what an operation can be called, if it is a function that has a name and a type, and is in an operation.
fn callee_of<'a>(ctx: &'a Context<Kit>, op: Ptr<Operation>) -> Option<Callee<'a>>
    requires { IsSome (operation_at ctx.now.program op) }
    ensures { (q : Callable) → (option_map callable_of result ≡ Some q) ↔
        IsCallable (world_of ctx.now) ctx.now.program op q }
{
    if !is_function(kind_of(ctx, op)) {
        return None;
    }
    callee_from(
        op.get_parent_op(ctx),
        text_under(ctx, op, keys::SYMBOL_NAME),
        type_under(ctx, op, keys::FUNCTION_TYPE),
    )
}

/// Puts an entity to the functions that can be called, if it is one.
pub(crate) fn add_callee_at<'a>(
    ctx: &'a Context<Kit>,
    callees: &mut IndexSet<Callee<'a>, TextKey>,
    node: IRNode,
) -> Result<(), AllocError>
    requires { IsLiveNode ctx.now.program node }
    ensures { OnOk result (Gains (callables_of callees.old.keys) (callables_of callees.new.keys)
        (IsCallableAt (world_of ctx.now) ctx.now.program node)) }
{
    match node {
        IRNode::Operation(op) => match callee_of(ctx, op) {
            Some(callee) => add_callee(callees, callee),
            None => Ok(()),
        },
        IRNode::BasicBlock(_) | IRNode::Region(_) => Ok(()),
    }
}

/// The functions inside a root that can be called. The time is linear in what is inside the root.
///
/// # Errors
/// No memory.
pub(crate) fn callees_inside<'a>(
    alloc: Global,
    ctx: &'a Context<Kit>,
    root: Ptr<Operation>,
) -> Result<IndexSet<Callee<'a>, TextKey>, AllocError>
    requires { IsSome (operation_at ctx.now.program root) }
    ensures { IfOk result (λ callees. AreCallees (world_of ctx.now) ctx.now.program root (callables_of callees.keys)) }
{
    let program = ctx.program();
    let mut callees = IndexSet::with_hasher(alloc, ctx.hash_key());
    for node in program.nodes_inside(IRNode::Operation(root)) {
        add_callee_at(ctx, &mut callees, node)?;
    }
    Ok(callees)
}
