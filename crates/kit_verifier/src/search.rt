//! The first place where a rule is broken that asks for a table of names.
ghost use Rattle.std.specs.Prelude.{IfOk, IsSome};
ghost use Rattle.ir_program.specs.Lists.{IsLiveNode, StandsInside};
ghost use Rattle.ir_program.specs.Program.{operation_at};
ghost use Rattle.ir_program.specs.declared.handles.IRNode.TheVariants.{Operation as OperationNode};
ghost use Rattle.kit_checks.specs.Searching.{IsBrokenAt, IsFirstBreakIn, IsSearched};
ghost use Rattle.kit_checks.specs.World.{world_of};
ghost use Rattle.kit_verifier.specs.Tables.{IsTable, rule_of};

use crate::table::{Table, keeps};
use ir_context::Context;
use ir_names::Place;
use ir_program::{IRNode, Operation, Ptr};
use kit::Kit;
use kit_checks::place_of;
use std::alloc::{AllocError, Global};

/// An entity inside the root, if it is an operation that breaks the rule.
fn broken_at<'a>(
    ctx: &'a Context<Kit>,
    root: Ptr<Operation>,
    table: &Table<'a>,
    node: IRNode,
) -> Option<Ptr<Operation>>
    requires root { IsSome (operation_at ctx.now.program root) }
    requires inside { StandsInside ctx.now.program (OperationNode root) node }
    requires live { IsLiveNode ctx.now.program node }
    requires table { IsTable (world_of ctx.now) ctx.now.program root table.now }
    ensures { IsBrokenAt (world_of ctx.now) ctx.now.program root (rule_of table.now) node result }
{
    match node {
        IRNode::Operation(op) => {
            if keeps(ctx, root, table, op) {
                return None;
            }
            Some(op)
        }
        IRNode::BasicBlock(_) | IRNode::Region(_) => None,
    }
}

/// The first operation inside the root, in walk order, that breaks the rule.
fn first_operation<'a>(
    ctx: &'a Context<Kit>,
    root: Ptr<Operation>,
    table: &Table<'a>,
) -> Option<Ptr<Operation>>
    requires root { IsSome (operation_at ctx.now.program root) }
    requires table { IsTable (world_of ctx.now) ctx.now.program root table.now }
    ensures { IsSearched (world_of ctx.now) ctx.now.program root (rule_of table.now) result }
{
    let program = ctx.program();
    for node in program.nodes_inside(IRNode::Operation(root)) {
        match broken_at(ctx, root, table, node) {
            Some(op) => return Some(op),
            None => {}
        }
    }
    None
}

/// The first place where the rule is broken in the tree that the root stands for, if it is broken at all.
///
/// # Errors
/// No memory for the place.
pub(crate) fn first_place_by<'a>(
    alloc: Global,
    ctx: &'a Context<Kit>,
    root: Ptr<Operation>,
    table: &Table<'a>,
) -> Result<Option<Place>, AllocError>
    requires root { IsSome (operation_at ctx.now.program root) }
    requires table { IsTable (world_of ctx.now) ctx.now.program root table.now }
    ensures { IfOk result (IsFirstBreakIn (world_of ctx.now) ctx.now.program root (rule_of table.now)) }
{
    let program = ctx.program();
    program.know_lists();
    let _inside = program.nodes_inside(IRNode::Operation(root));
    match first_operation(ctx, root, table) {
        Some(op) => match place_of(alloc, program, root, op) {
            Ok(place) => Ok(Some(place)),
            Err(_) => Err(AllocError),
        },
        None => Ok(None),
    }
}
