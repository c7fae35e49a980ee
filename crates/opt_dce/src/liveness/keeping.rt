//! What is kept from outside.
ghost use Rattle.std.specs.Prelude.{◌↔◌, IfOk, IsSome, IsTrue, OnOk};
ghost use Rattle.ir_program.specs.Program.{IsLiveValue, operation_at};
ghost use Rattle.ir_program.specs.Rows.{operands_at};
ghost use Rattle.ir_trees.specs.Searched.{Lists};
ghost use Rattle.opt_inside.specs.Numbered.{NumbersInside, numbers_of};
ghost use Rattle.opt_dce.specs.liveness.Problems.{AreKept, AreThere, IsPinned, ListsDefiners, KeepsIf};

use crate::liveness::definers::definer_of;
use crate::liveness::numbers::operation_number;
use ir_program::{Operation, Program, Ptr, Value};
use opt_inside::Inside;
use opt_rows::Definer;
use std::alloc::{AllocError, Global};

/// Whether an operation that isn't inside the root takes a value.
fn is_pinned<O, B>(
    program: &Program<O, B>,
    inside: &Inside,
    op: Ptr<Operation>,
    value: Value,
) -> bool
    requires live { IsLiveValue program.now value }
    requires numbers { NumbersInside program.now op (numbers_of inside.now) }
    ensures { IsTrue result ↔ IsPinned program.now op value }
{
    for place in program.uses_of(value) {
        let user = place.user_op();
        if user != op && operation_number(inside, user).is_none() {
            return true;
        }
    }
    false
}

/// Keeps what defines a value where that is used from outside.
fn keep_pinned<O, B>(
    program: &Program<O, B>,
    inside: &Inside,
    op: Ptr<Operation>,
    value: Value,
    kept: &mut Vec<Definer>,
) -> Result<(), AllocError>
    requires live { IsLiveValue program.now value }
    requires numbers { NumbersInside program.now op (numbers_of inside.now) }
    ensures { OnOk result (KeepsIf (numbers_of inside.now)
        (IsPinned program.now op value) value kept.old.items kept.new.items) }
{
    if is_pinned(program, inside, op, value) {
        kept.push(definer_of(inside, value))?;
    }
    Ok(())
}

/// What defines the operands of the root.
fn root_operands<O, B>(
    alloc: Global,
    program: &Program<O, B>,
    inside: &Inside,
    op: Ptr<Operation>,
) -> Result<Vec<Definer>, AllocError>
    requires { IsSome (operation_at program.now op) }
    ensures { IfOk result
        (λ kept. ListsDefiners (numbers_of inside.now) (Lists (operands_at program.now op)) kept.items) }
{
    let mut kept = Vec::new(alloc);
    for index in 0..program.operand_count(op) {
        kept.push(definer_of(inside, program.operand(op, index)))?;
    }
    Ok(kept)
}

/// What defines the values that the root takes, or that are inside and used from outside. Each use of a value inside
/// is looked at once.
pub(crate) fn kept_definers<O, B>(
    alloc: Global,
    program: &Program<O, B>,
    inside: &Inside,
    op: Ptr<Operation>,
) -> Result<Vec<Definer>, AllocError>
    requires live { IsSome (operation_at program.now op) }
    requires there { AreThere program.now (numbers_of inside.now) }
    requires numbers { NumbersInside program.now op (numbers_of inside.now) }
    ensures { IfOk result (λ kept. AreKept program.now (numbers_of inside.now) op kept.items) }
{
    let mut kept = root_operands(alloc, program, inside, op)?;
    for value in inside.values.as_slice() {
        keep_pinned(program, inside, op, *value, &mut kept)?;
    }
    Ok(kept)
}
