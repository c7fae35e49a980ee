//! The module whose functions a call may name.
ghost use Rattle.std.specs.Prelude.{◌≡◌, ◌↔◌, IsSome, IsTrue};
ghost use Rattle.ir_program.specs.Lists.{IsLiveNode, StandsInside};
ghost use Rattle.ir_program.specs.Program.{operation_at};
ghost use Rattle.ir_program.specs.declared.handles.IRNode.TheVariants.{Operation as OperationNode};
ghost use Rattle.kit_checks.specs.Reading.{OfSite};
ghost use Rattle.kit_checks.specs.Words.{first_module};
ghost use Rattle.kit_checks.specs.World.{world_of};
ghost use Rattle.kit_verifier.specs.Scopes.{IsModuleAt, StandsIf, with_outer};

use crate::reading::kind_of;
use ir_context::Context;
use ir_program::{IRNode, Operation, Ptr};
use kit::Kit;
use kit_checks::is_module;

/// An entity, if it is an operation that is a module.
fn module_at(ctx: &Context<Kit>, node: IRNode) -> Option<Ptr<Operation>>
    requires { IsLiveNode ctx.now.program node }
    ensures { IsModuleAt (world_of ctx.now) ctx.now.program node result }
{
    match node {
        IRNode::Operation(op) => {
            if is_module(kind_of(ctx, op)) {
                return Some(op);
            }
            None
        }
        IRNode::BasicBlock(_) | IRNode::Region(_) => None,
    }
}

/// Whether an entity is this operation.
fn is_operation(node: IRNode, op: Ptr<Operation>) -> bool
    ensures { IsTrue result ↔ (node ≡ OperationNode op) }
{
    match node {
        IRNode::Operation(other) => other == op,
        IRNode::BasicBlock(_) | IRNode::Region(_) => false,
    }
}

/// The first module of an operation and of those that it is in, the nearest first, as far as the root. The time is
/// linear in how far up it is.
pub(crate) fn nearest_module(
    ctx: &Context<Kit>,
    root: Ptr<Operation>,
    op: Ptr<Operation>,
) -> Option<Ptr<Operation>>
    requires root { IsSome (operation_at ctx.now.program root) }
    requires inside { StandsInside ctx.now.program (OperationNode root) (OperationNode op) }
    ensures { OfSite ctx.now.program root op (λ s.
        StandsIf ctx.now.program (first_module (world_of ctx.now) (with_outer s)) result) }
{
    let program = ctx.program();
    for node in program.nodes_around(IRNode::Operation(op)) {
        match module_at(ctx, node) {
            Some(module) => return Some(module),
            None => {}
        }
        if is_operation(node, root) {
            return None;
        }
    }
    unreachable!()
}
