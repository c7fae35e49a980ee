//! Constant propagation.
ghost use Rattle.std.specs.Prelude.{◌≡◌, ◌≢◌, ◌≤◌, ◌^◌, ℕ, [], Err, Ok, IfErr, IfOk, IsSome, OnErr, OnOk};
ghost use Rattle.ir_program.specs.Edits.{KeepsErased};
ghost use Rattle.ir_program.specs.Program.{operation_at};
ghost use Rattle.ir_program.specs.declared.handles.Operation.{Operation};
ghost use Rattle.ir_program.specs.declared.handles.Ptr.{Ptr};
ghost use Rattle.ir_context.specs.Known.{HasKnownTypes};
ghost use Rattle.opt_dialect.specs.declared.status.IRStatus.TheVariants.{Unchanged};
ghost use Rattle.opt_dialect.specs.declared.status.OptError.TheVariants.{CounterFull, UndeterminedOperand};
ghost use Rattle.opt_inside.specs.facts.ByNumber.{LeadsBelow};
ghost use Rattle.opt_inside.specs.Numbered.{NumbersInside, numbers_of};
ghost use Rattle.opt_inside.specs.Occurring.{OfItsTree};
ghost use Rattle.opt_sccp.specs.Made.{AreTyped, PutsList};
ghost use Rattle.opt_sccp.specs.Sccp.{IsDecided, IsPartlyPropagated, IsPropagated, IsSccpRefusal, LacksIn, MovesCounterTo};

use crate::wanted::{is_lacking, made_constants};
use crate::{Made, put_constants};
use ir_context::{TypeTable, TypedProgram};
use ir_program::{Operation, Program, Ptr};
use ir_trees::know_tree;
use opt_dialect::{IRStatus, OptDialect, OptError};
use opt_inside::facts::best_facts;
use opt_inside::{Inside, know_occurrences, know_taken, number_inside};
use std::alloc::Global;

/// Which values get constants, and which, by the numbers of what is inside an operation. Nothing is changed.
///
/// # Errors
/// `UndeterminedOperand`, where nothing is found out of an operand that an operation is asked for. There may be no
/// memory.
fn decide_inside<D: OptDialect>(
    alloc: Global,
    program: &Program<D::Operation, D::Block>,
    op: Ptr<Operation>,
    inside: &Inside,
) -> Result<Vec<Made<D::Constant>>, OptError>
    requires live { IsSome (operation_at program.now op) }
    requires edges { LeadsBelow program.now op }
    requires numbered { NumbersInside program.now op (numbers_of inside.now) }
    ensures decided { IfOk result (λ made. IsDecided D.meaning program.now op made.items) }
    ensures known { IfOk result (λ made. (count : ℕ) → HasKnownTypes count program.now
        → AreTyped D.meaning count made.items) }
    ensures lacking { result ≡ Err UndeterminedOperand → OfItsTree program.now op (LacksIn D.meaning) }
    ensures refused { IfErr result IsSccpRefusal }
    ensures counted { result ≢ Err CounterFull }
{
    program.know_lists();
    program.know_values();
    know_tree(program, op);
    know_occurrences(program, op);
    know_taken(program, op);
    let facts = best_facts::<D>(alloc, program, op, inside)?;
    if is_lacking::<D>(program, inside, &facts) {
        return Err(OptError::UndeterminedOperand);
    }
    let made = made_constants::<D>(alloc, program, inside, &facts)?;
    Ok(made)
}

/// Which values below an operation get constants, and which. Nothing is changed.
///
/// # Errors
/// `UndeterminedOperand`, where nothing is found out of an operand that an operation is asked for. There may be no
/// memory.
fn decide<D: OptDialect>(
    alloc: Global,
    program: &Program<D::Operation, D::Block>,
    op: Ptr<Operation>,
) -> Result<Vec<Made<D::Constant>>, OptError>
    requires live { IsSome (operation_at program.now op) }
    requires edges { LeadsBelow program.now op }
    ensures decided { IfOk result (λ made. IsDecided D.meaning program.now op made.items) }
    ensures known { IfOk result (λ made. (count : ℕ) → HasKnownTypes count program.now
        → AreTyped D.meaning count made.items) }
    ensures lacking { result ≡ Err UndeterminedOperand → OfItsTree program.now op (LacksIn D.meaning) }
    ensures refused { IfErr result IsSccpRefusal }
    ensures counted { result ≢ Err CounterFull }
{
    let inside = number_inside(alloc, program, op)?;
    decide_inside::<D>(alloc, program, op, &inside)
}

/// Tells that where nothing is put in, nothing changes. It does nothing.
fn know_nothing_put<D: OptDialect>(program: &Program<D::Operation, D::Block>)
    ensures { (op : Ptr Operation) → PutsList D.meaning program.now program.now op [] }
{
    program.know_lists();
    program.know_values();
}

/// Puts constants in for the values below an operation that are known to be constants whenever they are there, and that
/// have a use: for results of operations that can be folded, and for arguments of blocks. Any operand of the program is
/// a use, wherever it stands: in a block that doesn't run, forwarded along an edge, or outside the operation. Values and
/// blocks are as well known as by the most precise facts that are closed under what operations do. The uses of such a
/// value are uses of its constant then; what defined it stays, without a use.
///
/// Source: Wegman and Zadeck, Constant propagation with conditional branches, 1991.
///
/// # Errors
/// `UndeterminedOperand`, where nothing is found out of an operand that a foldable operation or a branch is asked for;
/// nothing is changed then. `Memory`, and `CounterFull` where there are not so many numbers left as values get
/// constants; some of the constants may have been put in then, each with all uses of its value.
pub fn sccp<D: OptDialect, T: TypeTable>(
    alloc: Global,
    op: Ptr<Operation>,
    ctx: &mut TypedProgram<D::Operation, D::Block, T>,
) -> Result<IRStatus, OptError>
    requires live { IsSome (operation_at ctx.old.program op) }
    requires edges { LeadsBelow ctx.old.program op }
    ensures propagates { IfOk result (IsPropagated D.meaning ctx.old.program ctx.new.program op) }
    ensures unchanged { result ≡ Ok Unchanged → ctx.new ≡ ctx.old }
    ensures part { OnErr result (IsPartlyPropagated D.meaning ctx.old.program ctx.new.program op) }
    ensures lacking { result ≡ Err UndeterminedOperand → OfItsTree ctx.old.program op (LacksIn D.meaning) }
    ensures refused { IfErr result IsSccpRefusal }
    ensures numbers { OnOk result (MovesCounterTo D.meaning ctx.old.program op ctx.new.program.counter) }
    ensures full { result ≡ Err CounterFull → (n : ℕ) × MovesCounterTo D.meaning ctx.old.program op n × (2 ^ 64 ≤ n) }
    ensures refused_same { result ≡ Err UndeterminedOperand → ctx.new ≡ ctx.old }
    ensures erased { KeepsErased ctx.old.program ctx.new.program }
    ensures types { ctx.new.types ≡ ctx.old.types }
{
    know_nothing_put::<D>(ctx.program());
    ctx.know_types();
    let made = decide::<D>(alloc, ctx.program(), op)?;
    if made.is_empty() {
        return Ok(IRStatus::Unchanged);
    }
    put_constants::<D, T>(alloc, ctx, op, &made)?;
    Ok(IRStatus::Changed)
}
