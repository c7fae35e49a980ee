//! The first place where a rule is broken, and whether any rule is that asks for no table of names.
ghost use Rattle.std.specs.Prelude.{◌≡◌, ◌↔◌, IfOk, IsSome, IsTrue};
ghost use Rattle.ir_program.specs.Lists.{IsLiveNode, StandsInside};
ghost use Rattle.ir_program.specs.Program.{operation_at};
ghost use Rattle.ir_program.specs.declared.handles.IRNode.TheVariants.{Operation as OperationNode};
ghost use Rattle.ir_program.specs.declared.handles.Operation.{Operation};
ghost use Rattle.ir_program.specs.declared.handles.Ptr.{Ptr};
ghost use Rattle.kit_checks.specs.Naming.{IsOrderAt, IsOrderFor};
ghost use Rattle.kit_checks.specs.Searching.{IsBrokenAt, IsFirstBreakIn, IsSearched, IsTested, KeepsLocalRules};
ghost use Rattle.kit_checks.specs.Searching.{TellsAll, TellsAllAt};
ghost use Rattle.kit_checks.specs.World.{world_of};

use crate::constants::constants_fit;
use crate::edges::edges_fit;
use crate::format::fits_format;
use crate::naming::{operands_are_visible, order_for};
use crate::operands::types_agree;
use crate::places::{next, place_of};
use crate::rule::{Rule, RuleFault};
use crate::signatures::{function_has_type, returns_fit};
use crate::tests::{
    attributes_are_known, blocks_end, function_holds, keeps, root_is_module, values_are_integers,
};
use crate::walk_order::WalkOrder;
use ir_context::Context;
use ir_names::Place;
use ir_program::{IRNode, Operation, Ptr};
use ir_trees::know_tree;
use kit::Kit;
use std::alloc::{AllocError, Global};

/// An entity inside the root, if it is an operation that breaks a rule.
fn broken_at(
    ctx: &Context<Kit>,
    root: Ptr<Operation>,
    rule: Rule,
    order: &WalkOrder,
    node: IRNode,
) -> Option<Ptr<Operation>>
    requires order { IsOrderFor ctx.now.program rule root order.now }
    requires inside { StandsInside ctx.now.program (OperationNode root) node }
    requires tested { IsTested rule }
    requires live { IsLiveNode ctx.now.program node }
    ensures { IsBrokenAt (world_of ctx.now) ctx.now.program root rule node result }
{
    match node {
        IRNode::Operation(op) => {
            if keeps(ctx, root, rule, order, op) {
                return None;
            }
            Some(op)
        }
        IRNode::BasicBlock(_) | IRNode::Region(_) => None,
    }
}

/// The first operation inside the root, in walk order, that breaks a rule.
fn first_operation(
    ctx: &Context<Kit>,
    root: Ptr<Operation>,
    rule: Rule,
    order: &WalkOrder,
) -> Option<Ptr<Operation>>
    requires order { IsOrderFor ctx.now.program rule root order.now }
    requires tested { IsTested rule }
    requires root { IsSome (operation_at ctx.now.program root) }
    ensures { IsSearched (world_of ctx.now) ctx.now.program root rule result }
{
    let program = ctx.program();
    for node in program.nodes_inside(IRNode::Operation(root)) {
        match broken_at(ctx, root, rule, order, node) {
            Some(op) => return Some(op),
            None => {}
        }
    }
    None
}

/// The first operation inside the root, in walk order, that breaks a rule, found with the order that the rule's test
/// reads.
///
/// # Errors
/// No memory for the order.
fn find_operation(
    alloc: Global,
    ctx: &Context<Kit>,
    root: Ptr<Operation>,
    rule: Rule,
) -> Result<Option<Ptr<Operation>>, AllocError>
    requires tested { IsTested rule }
    requires root { IsSome (operation_at ctx.now.program root) }
    ensures { IfOk result (IsSearched (world_of ctx.now) ctx.now.program root rule) }
{
    let order = order_for(alloc, ctx.program(), root, rule)?;
    Ok(first_operation(ctx, root, rule, &order))
}

/// The first place where a rule is broken in the tree that the root stands for, if it is broken at all. Only rules that are
/// tested so far can be asked for. The time is linear in what is inside the root and, where operands are tested, in the
/// greatest slot of an operation there.
///
/// # Errors
/// `Memory` where no memory is left for the place or, where operands are tested, for the order of operations.
pub fn first_place(
    alloc: Global,
    ctx: &Context<Kit>,
    root: Ptr<Operation>,
    rule: Rule,
) -> Result<Option<Place>, RuleFault>
    requires tested { IsTested rule }
    requires root { IsSome (operation_at ctx.now.program root) }
    ensures { IfOk result (IsFirstBreakIn (world_of ctx.now) ctx.now.program root rule) }
{
    let program = ctx.program();
    program.know_lists();
    let _inside = program.nodes_inside(IRNode::Operation(root));
    let found = find_operation(alloc, ctx, root, rule)?;
    match found {
        Some(op) => {
            let place = place_of(alloc, program, root, op)?;
            Ok(Some(place))
        }
        None => Ok(None),
    }
}

/// Whether an operation inside the root keeps all local rules.
fn keeps_all(
    ctx: &Context<Kit>,
    root: Ptr<Operation>,
    order: &WalkOrder,
    op: Ptr<Operation>,
) -> bool
    requires order { IsOrderAt ctx.now.program root op order.now }
    requires inside { StandsInside ctx.now.program (OperationNode root) (OperationNode op) }
    requires op { IsSome (operation_at ctx.now.program op) }
    ensures { TellsAll (world_of ctx.now) ctx.now.program root op result }
{
    root_is_module(ctx, root, op)
        && function_has_type(ctx, op)
        && function_holds(ctx, root, op)
        && values_are_integers(ctx, root, op)
        && blocks_end(ctx, root, op)
        && operands_are_visible(ctx, root, order, op)
        && types_agree(ctx, op)
        && edges_fit(ctx, root, op)
        && returns_fit(ctx, root, op)
        && constants_fit(ctx, op)
        && attributes_are_known(ctx, root, op)
        && fits_format(ctx, op)
}

/// Whether an entity inside the root is no operation, or is one that keeps all local rules.
fn keeps_all_at(ctx: &Context<Kit>, root: Ptr<Operation>, order: &WalkOrder, node: IRNode) -> bool
    requires order { (op : Ptr Operation) → node ≡ OperationNode op → IsOrderAt ctx.now.program root op order.now }
    requires inside { StandsInside ctx.now.program (OperationNode root) node }
    requires live { IsLiveNode ctx.now.program node }
    ensures { TellsAllAt (world_of ctx.now) ctx.now.program root node result }
{
    match node {
        IRNode::Operation(op) => keeps_all(ctx, root, order, op),
        IRNode::BasicBlock(_) | IRNode::Region(_) => true,
    }
}

/// Whether all local rules are kept in the tree that the root stands for: those that `first_place` can be asked for.
/// One walk numbers the operations and tests each by all rules before the next one is, and it tells no place.
///
/// # Errors
/// No memory for the order of operations.
pub fn keeps_local_rules(
    alloc: Global,
    ctx: &Context<Kit>,
    root: Ptr<Operation>,
) -> Result<bool, AllocError>
    requires { IsSome (operation_at ctx.now.program root) }
    ensures { IfOk result (λ kept. IsTrue kept ↔ KeepsLocalRules (world_of ctx.now) ctx.now.program root) }
{
    let program = ctx.program();
    program.know_lists();
    know_tree(program, root);
    let mut order = WalkOrder::new(alloc);
    let mut number = 0;
    for node in program.nodes_inside(IRNode::Operation(root)) {
        // What has a number by now comes before this entity.
        number = next(number)?;
        order.number_entity(node, number)?;
        if !keeps_all_at(ctx, root, &order, node) {
            return Ok(false);
        }
    }
    Ok(true)
}
