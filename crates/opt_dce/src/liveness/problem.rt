//! The numbered problem of an operation.
ghost use Rattle.std.specs.Prelude.{IfOk, IsSome};
ghost use Rattle.ir_program.specs.Program.{operation_at};
ghost use Rattle.opt_inside.specs.Numbered.{NumbersInside, numbers_of};
ghost use Rattle.opt_dce.specs.liveness.Problems.{AreThere, IsProblemOf};

use crate::liveness::candidates::candidates;
use crate::liveness::closing::value_rows;
use crate::liveness::keeping::kept_definers;
use ir_program::{Operation, Program, Ptr};
use opt_dialect::OptDialect;
use opt_inside::Inside;
use opt_rows::DeadProblem;
use std::alloc::{AllocError, Global};

/// Tells that all that is numbered is there. It does nothing.
pub(crate) fn know_there<O, B>(program: &Program<O, B>, inside: &Inside, op: Ptr<Operation>)
    requires { NumbersInside program.now op (numbers_of inside.now) }
    ensures { AreThere program.now (numbers_of inside.now) }
{
    program.know_values();
    let _ = inside;
    let _ = op;
}

/// The problem of what is dead inside an operation.
pub(crate) fn problem_of<D: OptDialect>(
    alloc: Global,
    program: &Program<D::Operation, D::Block>,
    inside: &Inside,
    op: Ptr<Operation>,
) -> Result<DeadProblem, AllocError>
    requires live { IsSome (operation_at program.now op) }
    requires numbers { NumbersInside program.now op (numbers_of inside.now) }
    ensures { IfOk result (λ problem. IsProblemOf D.meaning program.now (numbers_of inside.now) op problem) }
{
    know_there(program, inside, op);
    Ok(DeadProblem {
        operations: candidates::<D>(alloc, program, inside)?,
        arguments: value_rows::<D>(alloc, program, inside)?,
        kept: kept_definers(alloc, program, inside, op)?,
    })
}
