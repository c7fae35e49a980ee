//! What is dead inside an operation.
ghost use Rattle.std.specs.Prelude.{IfOk, IsSome};
ghost use Rattle.ir_program.specs.Program.{operation_at};
ghost use Rattle.ir_trees.specs.Stands.{ProgramTree};
ghost use Rattle.opt_dce.specs.liveness.Plans.{IsDeadPlan};
ghost use Rattle.opt_inside.specs.Edges.{HasLocalEdgesBelow};
ghost use Rattle.opt_inside.specs.Numbered.{NumbersInside, numbers_of};

use crate::liveness::plan::DeadPlan;
use crate::liveness::problem::{know_there, problem_of};
use crate::liveness::taking::plan_of;
use ir_program::{Operation, Program, Ptr};
use ir_trees::know_tree;
use opt_dialect::OptDialect;
use opt_inside::{Inside, know_occurrences, number_inside};
use opt_solvers::dead;
use std::alloc::{AllocError, Global};

/// What is dead inside an operation, found by the numbers of what is inside.
fn plan_by_numbers<D: OptDialect>(
    alloc: Global,
    program: &Program<D::Operation, D::Block>,
    inside: &Inside,
    op: Ptr<Operation>,
) -> Result<DeadPlan, AllocError>
    requires live { IsSome (operation_at program.now op) }
    requires edges { HasLocalEdgesBelow D.meaning.is_terminator program.now op }
    requires numbers { NumbersInside program.now op (numbers_of inside.now) }
    ensures { IfOk result (λ plan. (t : ProgramTree D.Operation D.Block) → IsDeadPlan D.meaning program.now op plan t) }
{
    program.know_lists();
    program.know_values();
    program.know_operands();
    know_tree(program, op);
    know_occurrences(program, op);
    know_there(program, inside, op);
    let problem = problem_of::<D>(alloc, program, inside, op)?;
    let items = dead(alloc, &problem)?;
    plan_of(alloc, program, inside, &problem, &items)
}

/// What is dead inside an operation.
///
/// Source: Cytron and others, Efficiently computing static single assignment form, 1991; here as the least set, with
/// block arguments and what operations hold. Time: that of `opt_solvers::dead`, and linear in what is inside, its edges
/// and the uses of its values.
///
/// # Errors
/// There may be no memory.
pub fn dead_plan<D: OptDialect>(
    alloc: Global,
    program: &Program<D::Operation, D::Block>,
    op: Ptr<Operation>,
) -> Result<DeadPlan, AllocError>
    requires live { IsSome (operation_at program.now op) }
    requires edges { HasLocalEdgesBelow D.meaning.is_terminator program.now op }
    ensures { IfOk result (λ plan. (t : ProgramTree D.Operation D.Block) → IsDeadPlan D.meaning program.now op plan t) }
{
    let inside = number_inside(alloc, program, op)?;
    plan_by_numbers::<D>(alloc, program, &inside, op)
}
