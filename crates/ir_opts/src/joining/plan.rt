//! What there is to join.
ghost use Rattle.std.specs.Prelude.{◌≡◌, ◌⊎◌, IfErr, IfOk, IsSome};
ghost use Rattle.ir_program.specs.Program.{operation_at};
ghost use Rattle.opt_dialect.specs.declared.status.OptError.TheVariants.{LiveUse, Memory};
ghost use Rattle.opt_inside.specs.Numbered.{NumbersInside, numbers_of};
ghost use Rattle.ir_opts.specs.joining.Answers.{HasCircle};
ghost use Rattle.ir_opts.specs.joining.Plans.{FindsPlan};
ghost use Rattle.opt_inside.specs.reach.Edges.{FitsEdgesFrom, HasLocalEdgesFrom};

use ir_program::{Operation, Program, Ptr};
use ir_trees::know_tree;
use opt_chains::stand_ins::find_stand_ins;
use opt_chains::{Join, StandIn, find_joins};
use opt_dialect::{OptDialect, OptError};
use opt_inside::reach::Start;
use opt_inside::{Inside, number_inside};
use std::alloc::Global;

/// The steps that join all chains of blocks, and what stands for the arguments of the blocks that go.
#[derive(Drop)]
pub(crate) struct MergePlan {
    /// The steps, each chain from its first block on.
    pub joins: Vec<Join>,
    /// The arguments, and the values in their place.
    pub stand_ins: Vec<StandIn>,
}

/// The plan that joins each chain of blocks, by the numbers of what is inside.
///
/// # Errors
/// `Memory`, and `LiveUse` where following what was forwarded to an argument comes back to it.
fn plan_inside<D: OptDialect>(
    alloc: Global,
    program: &Program<D::Operation, D::Block>,
    op: Ptr<Operation>,
    start: Start,
    inside: &Inside,
) -> Result<Option<MergePlan>, OptError>
    requires live { IsSome (operation_at program.now op) }
    requires edges { HasLocalEdgesFrom D.meaning.is_terminator program.now start }
    requires fits { FitsEdgesFrom D.meaning program.now start }
    requires numbered { NumbersInside program.now op (numbers_of inside.now) }
    ensures found { IfOk result (FindsPlan D.meaning program.now op start) }
    ensures refused { IfErr result (λ e. (e ≡ Memory) ⊎ ((e ≡ LiveUse) × HasCircle D.meaning program.now op start)) }
{
    know_tree(program, op);
    let joins = find_joins::<D>(alloc, program, op, start, inside)?;
    if joins.is_empty() {
        return Ok(None);
    }
    let found = find_stand_ins::<D>(alloc, program, op, start, inside, joins.as_slice())?;
    match found {
        Some(stand_ins) => Ok(Some(MergePlan { joins, stand_ins })),
        None => Err(OptError::LiveUse),
    }
}

/// The plan that joins each chain of blocks of visited SSA regions below an operation at its first block, where looking
/// begins there. None where no two blocks can be joined. The time is linear in what is inside.
///
/// # Errors
/// `Memory`, and `LiveUse` where following what was forwarded to an argument comes back to it.
pub(crate) fn find_plan<D: OptDialect>(
    alloc: Global,
    program: &Program<D::Operation, D::Block>,
    op: Ptr<Operation>,
    start: Start,
) -> Result<Option<MergePlan>, OptError>
    requires live { IsSome (operation_at program.now op) }
    requires edges { HasLocalEdgesFrom D.meaning.is_terminator program.now start }
    requires fits { FitsEdgesFrom D.meaning program.now start }
    ensures found { IfOk result (FindsPlan D.meaning program.now op start) }
    ensures refused { IfErr result (λ e. (e ≡ Memory) ⊎ ((e ≡ LiveUse) × HasCircle D.meaning program.now op start)) }
{
    let inside = number_inside(alloc, program, op)?;
    plan_inside::<D>(alloc, program, op, start, &inside)
}
