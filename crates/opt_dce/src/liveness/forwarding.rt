//! Which operands of a branch go to which arguments.
ghost use Rattle.std.specs.Prelude.{◌≡◌, IfOk, IsSome, OnOk, length};
ghost use Rattle.ir_program.specs.Program.{block_at, operation_at};
ghost use Rattle.ir_program.specs.Rows.{operands_at};
ghost use Rattle.opt_inside.specs.Numbered.{numbers_of};
ghost use Rattle.opt_dce.specs.liveness.Problems.{AreForwardTargets, Forwards, GoesAlong, GoesAt, IsBranch, Notes, OthersStay};

use crate::liveness::numbers::value_number;
use ir_program::{BasicBlock, Operation, Program, Ptr};
use opt_dialect::OptDialect;
use opt_inside::Inside;
use std::alloc::{AllocError, Global};

/// Notes that the operand at `index` goes to the block's argument at `place`, where both are there.
fn forward_one<O, B>(
    program: &Program<O, B>,
    inside: &Inside,
    block: Ptr<BasicBlock>,
    place: usize,
    index: usize,
    targets: &mut Vec<Option<usize>>,
)
    requires { IsSome (block_at program.now block) }
    ensures { Notes (GoesAt program.now (numbers_of inside.now) block place index) targets.old.items targets.new.items }
{
    if place < program.argument_count(block) && index < targets.len() {
        if let Some(number) = value_number(inside, program.argument(block, place)) {
            targets[index] = Some(number);
        }
    }
}

/// Notes that the operands with these indices go to the arguments of a block, in order.
fn forward_along<O, B>(
    program: &Program<O, B>,
    inside: &Inside,
    block: Ptr<BasicBlock>,
    indices: &[usize],
    targets: &mut Vec<Option<usize>>,
)
    requires { IsSome (block_at program.now block) }
    ensures { Notes
        (GoesAlong program.now (numbers_of inside.now) block indices.now) targets.old.items targets.new.items }
{
    for (place, index) in indices.iter().enumerate() {
        forward_one(program, inside, block, place, *index, targets);
    }
}

/// Notes which operands of a branch go to which arguments.
fn forward_edges<D: OptDialect>(
    alloc: Global,
    program: &Program<D::Operation, D::Block>,
    inside: &Inside,
    op: Ptr<Operation>,
    targets: &mut Vec<Option<usize>>,
) -> Result<(), AllocError>
    requires live { IsSome (operation_at program.now op) }
    requires branch { IsBranch D.meaning program.now op }
    ensures { OnOk result (Notes (Forwards D.meaning program.now
        (numbers_of inside.now) op) targets.old.items targets.new.items) }
{
    let payload = program.payload(op);
    let operands = program.operand_count(op);
    for edge in 0..program.successor_count(op) {
        let indices = D::successor_operands(alloc, payload, operands, edge)?;
        forward_along(
            program,
            inside,
            program.successor(op, edge),
            &indices,
            targets,
        );
    }
    Ok(())
}

/// The number of the argument that each operand of a branch goes to, if it goes to one.
pub(crate) fn targets_of<D: OptDialect>(
    alloc: Global,
    program: &Program<D::Operation, D::Block>,
    inside: &Inside,
    op: Ptr<Operation>,
) -> Result<Vec<Option<usize>>, AllocError>
    requires live { IsSome (operation_at program.now op) }
    requires branch { IsBranch D.meaning program.now op }
    ensures len { IfOk result (λ targets. length targets.items ≡ length (operands_at program.now op)) }
    ensures found { IfOk result (λ targets. AreForwardTargets D.meaning program.now
        (numbers_of inside.now) op targets.items) }
    ensures none { IfOk result (λ targets. OthersStay D.meaning program.now (numbers_of inside.now) op targets.items) }
{
    let mut targets = vec![in alloc; None; program.operand_count(op)]?;
    forward_edges::<D>(alloc, program, inside, op, &mut targets)?;
    Ok(targets)
}
