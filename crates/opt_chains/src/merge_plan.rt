//! Joining all chains of blocks.
ghost use Rattle.std.specs.Prelude.{◌≡◌, IsSome};
ghost use Rattle.ir_program.specs.Program.{operation_at};
ghost use Rattle.ir_trees.specs.Stands.{ProgramTree, StandsFor, by_handle};
ghost use Rattle.opt_handles.specs.Handles.{KeepsHandles};
ghost use Rattle.opt_inside.specs.reach.Edges.{HasLocalEdgesFrom};
ghost use Rattle.opt_inside.specs.reach.Starts.{IsStartIn};
ghost use Rattle.opt_trees.specs.Simplify.{StartingRegions};
ghost use Rattle.opt_chains.specs.Chained.{StartsSomewhere, IsJoiningPlan};
ghost use Rattle.opt_chains.specs.Phases.{MergesBlocks};

use crate::merge_values::{StandIn, replace_arguments};
use crate::merging::{Join, join_all};
use ir_context::{TypeTable, TypedProgram};
use ir_program::{Operation, Ptr};
use ir_trees::know_tree;
use opt_dialect::Meanings;
use opt_inside::know_occurrences;
use opt_inside::reach::Start;
use std::alloc::Global;

/// Joins all chains of blocks below an operation: the branches and the blocks that go are erased, and all else keeps its
/// handle. No memory is asked for.
pub fn apply_plan<D: Meanings, T: TypeTable>(
    alloc: Global,
    op: Ptr<Operation>,
    _start: Start,
    ctx: &mut TypedProgram<D::Operation, D::Block, T>,
    stand_ins: &[StandIn],
    joins: &[Join],
)
    requires live { IsSome (operation_at ctx.old.program op) }
    requires edges { HasLocalEdgesFrom D.meaning.is_terminator ctx.old.program _start }
    requires begins { StartsSomewhere ctx.old.program _start }
    requires plan { (p : StartingRegions by_handle) → IsStartIn ctx.old.program _start p
        → (t : ProgramTree D.Operation D.Block) → StandsFor ctx.old.program op t
        → IsJoiningPlan D.meaning p ctx.old.program t joins.now stand_ins.now }
    ensures merged { (p : StartingRegions by_handle) → IsStartIn ctx.old.program _start p
        → (t : ProgramTree D.Operation D.Block) → StandsFor ctx.old.program op t
        → MergesBlocks D.meaning p ctx.old.program ctx.new.program op t }
    ensures handles { KeepsHandles ctx.old.program ctx.new.program op }
    ensures numbers { ctx.new.program.counter ≡ ctx.old.program.counter }
    ensures types { ctx.new.types ≡ ctx.old.types }
{
    ctx.program().know_lists();
    ctx.program().know_values();
    know_occurrences(ctx.program(), op);
    know_tree(ctx.program(), op);
    replace_arguments(alloc, ctx, stand_ins);
    join_all(ctx, joins);
}
