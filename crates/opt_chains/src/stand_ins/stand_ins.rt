//! What stands for the arguments of blocks that are joined.
ghost use Rattle.std.specs.Prelude.{◌≡◌, Ok, Some, None, IfOk, IsSome};
ghost use Rattle.std.specs.declared.alloc.Global.{Global as AGlobal};
ghost use Rattle.std.specs.declared.vec.Vec.{Vec as AVec};
ghost use Rattle.ir_program.specs.Program.{operation_at};
ghost use Rattle.ir_trees.specs.Stands.{ProgramTree, StandsFor, by_handle};
ghost use Rattle.opt_chains.specs.Chained.{AreChains, StartsSomewhere, IsJoiningPlan};
ghost use Rattle.opt_chains.specs.declared.merge_values.StandIn.{StandIn as AStandIn};
ghost use Rattle.opt_inside.specs.Numbered.{NumbersInside, numbers_of};
ghost use Rattle.opt_inside.specs.reach.Edges.{FitsEdgesFrom, HasLocalEdgesFrom};
ghost use Rattle.opt_inside.specs.reach.Starts.{IsStartIn};
ghost use Rattle.opt_trees.specs.Simplify.{ComesBack, StartingRegions};

use crate::stand_ins::following::{numbers_of_given, stand_ins_at_ends};
use crate::stand_ins::forwarding::forwarded_values;
use crate::{Join, StandIn};
use ir_program::{Operation, Program, Ptr};
use ir_trees::know_tree;
use opt_dialect::OptDialect;
use opt_inside::reach::Start;
use opt_inside::{Inside, know_occurrences};
use opt_solvers::followed;
use std::alloc::{AllocError, Global};

/// For each argument of a block that is joined behind another, what was forwarded to it, followed to its end: with the
/// steps that join all chains, a plan. None where following comes back to where it began. The time is linear in what is
/// inside.
///
/// # Errors
/// There may be no memory.
pub fn find_stand_ins<D: OptDialect>(
    alloc: Global,
    program: &Program<D::Operation, D::Block>,
    op: Ptr<Operation>,
    _start: Start,
    inside: &Inside,
    joins: &[Join],
) -> Result<Option<Vec<StandIn>>, AllocError>
    requires live { IsSome (operation_at program.now op) }
    requires edges { HasLocalEdgesFrom D.meaning.is_terminator program.now _start }
    requires fits { FitsEdgesFrom D.meaning program.now _start }
    requires numbered { NumbersInside program.now op (numbers_of inside.now) }
    requires begins { StartsSomewhere program.now _start }
    requires chains { (p : StartingRegions by_handle) → IsStartIn program.now _start p
        → (t : ProgramTree D.Operation D.Block) → StandsFor program.now op t
        → AreChains D.meaning p program.now t joins.now }
    ensures plan { (found : AVec AStandIn AGlobal) → result ≡ Ok (Some found)
        → (p : StartingRegions by_handle) → IsStartIn program.now _start p
        → (t : ProgramTree D.Operation D.Block) → StandsFor program.now op t
        → IsJoiningPlan D.meaning p program.now t joins.now found.items }
    ensures circle { result ≡ Ok None → (p : StartingRegions by_handle) → IsStartIn program.now _start p
        → (t : ProgramTree D.Operation D.Block) → StandsFor program.now op t
        → ComesBack D.meaning p t }
{
    program.know_lists();
    program.know_values();
    know_occurrences(program, op);
    know_tree(program, op);
    let given = forwarded_values::<D>(alloc, program, inside, joins)?;
    let next = numbers_of_given(alloc, inside, given.as_slice())?;
    let Some(finals) = followed(alloc, next.as_slice())? else {
        return Ok(None);
    };
    let values = inside.values.as_slice();
    let found = stand_ins_at_ends(alloc, values, given.as_slice(), finals.as_slice())?;
    Ok(Some(found))
}
