//! Operations that may go.
ghost use Rattle.std.specs.Prelude.{◌≡◌, ◌++◌, ◌∷◌, [], IfOk, IsSome, OnOk, length};
ghost use Rattle.ir_program.specs.Program.{operation_at};
ghost use Rattle.ir_program.specs.Rows.{operands_at};
ghost use Rattle.opt_inside.specs.Numbered.{numbers_of};
ghost use Rattle.opt_rows.specs.DeadCandidates.{Candidate};
ghost use Rattle.opt_dce.specs.liveness.Problems.{AreCandidates, AreOperandsOf, AreThere, IsBranch, IsCandidate, SaysMayGo};

use crate::liveness::definers::{around_operation, definer_of};
use crate::liveness::forwarding::targets_of;
use ir_program::{Operation, Program, Ptr};
use opt_dialect::OptDialect;
use opt_inside::Inside;
use opt_rows::{Candidates, Operand};
use std::alloc::{AllocError, Global};

/// Brings together the operands of an operation that is no branch, by numbers: none of them is forwarded.
fn plain_operands<D: OptDialect>(
    program: &Program<D::Operation, D::Block>,
    inside: &Inside,
    op: Ptr<Operation>,
    operands: &mut Vec<Operand>,
) -> Result<(), AllocError>
    requires live { IsSome (operation_at program.now op) }
    requires plain { IsBranch D.meaning program.now op → ⊥ }
    ensures len { OnOk result (length operands.new.items ≡ length (operands_at program.now op)) }
    ensures operands { OnOk result (AreOperandsOf D.meaning program.now
        (numbers_of inside.now) op operands.new.items) }
{
    operands.clear();
    for index in 0..program.operand_count(op) {
        operands.push(Operand {
            definer: definer_of(inside, program.operand(op, index)),
            argument: None,
        })?;
    }
    Ok(())
}

/// Brings together the operands of an operation, by numbers.
fn operands_of<D: OptDialect>(
    alloc: Global,
    program: &Program<D::Operation, D::Block>,
    inside: &Inside,
    op: Ptr<Operation>,
    operands: &mut Vec<Operand>,
) -> Result<(), AllocError>
    requires { IsSome (operation_at program.now op) }
    ensures len { OnOk result (length operands.new.items ≡ length (operands_at program.now op)) }
    ensures operands { OnOk result (AreOperandsOf D.meaning program.now
        (numbers_of inside.now) op operands.new.items) }
{
    if !D::is_branch(program.payload(op)) {
        return plain_operands::<D>(program, inside, op, operands);
    }
    let targets = targets_of::<D>(alloc, program, inside, op)?;
    operands.clear();
    for (index, target) in targets.iter().enumerate() {
        operands.push(Operand {
            definer: definer_of(inside, program.operand(op, index)),
            argument: *target,
        })?;
    }
    Ok(())
}

/// Whether nothing but uses keeps an operation.
fn may_go<D: OptDialect>(program: &Program<D::Operation, D::Block>, op: Ptr<Operation>) -> bool
    requires { IsSome (operation_at program.now op) }
    ensures { SaysMayGo D.meaning program.now op result }
{
    let payload = program.payload(op);
    !D::has_side_effects(payload) && !D::is_terminator(payload)
}

/// Puts an operation behind the others, by numbers. Its operands are brought together in a list that is used again for
/// the next one.
fn push_candidate<D: OptDialect>(
    alloc: Global,
    program: &Program<D::Operation, D::Block>,
    inside: &Inside,
    op: Ptr<Operation>,
    operands: &mut Vec<Operand>,
    rows: &mut Candidates,
) -> Result<(), AllocError>
    requires { IsSome (operation_at program.now op) }
    ensures { OnOk result ((row : Candidate) × (rows.new ≡ rows.old ++ row ∷ [])
        × IsCandidate D.meaning program.now (numbers_of inside.now) op row) }
{
    operands_of::<D>(alloc, program, inside, op, operands)?;
    let may_go = may_go::<D>(program, op);
    let around = around_operation(program, inside, op);
    rows.push(may_go, around, operands)?;
    Ok(())
}

/// How many operands the operations inside have, for the room that is asked for ahead.
fn operand_total<O, B>(program: &Program<O, B>, inside: &Inside) -> usize
    requires { AreThere program.now (numbers_of inside.now) }
{
    let mut count: usize = 0;
    for op in inside.operations.as_slice() {
        count = count.saturating_add(program.operand_count(*op));
    }
    count
}

/// The operations inside, by numbers.
pub(crate) fn candidates<D: OptDialect>(
    alloc: Global,
    program: &Program<D::Operation, D::Block>,
    inside: &Inside,
) -> Result<Candidates, AllocError>
    requires { AreThere program.now (numbers_of inside.now) }
    ensures len { IfOk result (λ rows. length rows ≡ length (numbers_of inside.now).operations) }
    ensures rows { IfOk result (λ rows. AreCandidates D.meaning program.now (numbers_of inside.now) rows) }
{
    let total = operand_total(program, inside);
    let mut rows = Candidates::with_capacity(alloc, inside.operations.len(), total)?;
    let mut operands = Vec::new(alloc);
    for op in inside.operations.as_slice() {
        push_candidate::<D>(alloc, program, inside, *op, &mut operands, &mut rows)?;
    }
    Ok(rows)
}
