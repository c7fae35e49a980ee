//! Which branches are decided, and along which edge each goes on.
ghost use Rattle.std.specs.Prelude.{◌≡◌, ◌&&◌, IfOk, IsSome, is_some};
ghost use Rattle.ir_program.specs.Lists.{regions_in};
ghost use Rattle.ir_program.specs.Program.{operation_at, results_at};
ghost use Rattle.ir_program.specs.declared.handles.Operation.{Operation};
ghost use Rattle.ir_program.specs.declared.handles.Ptr.{Ptr};
ghost use Rattle.ir_trees.specs.Searched.{Lists};
ghost use Rattle.opt_trees.specs.Simplify.{is_empty};
ghost use Rattle.opt_decide.specs.Planned.{AreDecisions, can_decide, decisions_of, picked_edge};

use crate::alone::known_operands;
use ir_program::{Operation, Program, Ptr};
use opt_dialect::OptDialect;
use opt_inside::number_inside;
use std::alloc::{AllocError, Global};

/// A branch, and the index of the edge along which its known operands make it go on.
#[derive(Clone, Copy)]
pub struct Decision {
    /// A branch without results and regions.
    pub op: Ptr<Operation>,
    /// The index of an edge.
    pub edge: usize,
}

/// Whether an operation has neither results nor regions.
fn is_bare<O, B>(program: &Program<O, B>, op: Ptr<Operation>) -> bool
    requires { IsSome (operation_at program.now op) }
    ensures { result ≡ (is_empty (results_at program.now op) && is_empty (regions_in program.now op)) }
{
    program.result_count(op) == 0 && program.region_count(op) == 0
}

/// Whether an operation is a branch that isn't unconditional, without results and regions.
fn can_decide<D: OptDialect>(program: &Program<D::Operation, D::Block>, op: Ptr<Operation>) -> bool
    requires { IsSome (operation_at program.now op) }
    ensures { result ≡ can_decide D.meaning (operation_at program.now op) }
{
    let payload = program.payload(op);
    if !D::is_branch(payload) {
        return false;
    }
    if D::is_unconditional(payload) {
        return false;
    }
    is_bare(program, op)
}

/// The edge that known operands of such a branch pick, if they pick one.
fn picked_edge<D: OptDialect>(
    alloc: Global,
    program: &Program<D::Operation, D::Block>,
    op: Ptr<Operation>,
) -> Result<Option<usize>, AllocError>
    requires { IsSome (operation_at program.now op) }
    ensures { IfOk result (λ edge. edge ≡ picked_edge D.meaning program.now op) }
{
    if !can_decide::<D>(program, op) {
        return Ok(None);
    }
    let known = known_operands::<D>(alloc, program, op)?;
    Ok(D::fold_edge(program.payload(op), &known))
}

/// The decisions of these operations, in their order.
fn decisions_of<D: OptDialect>(
    alloc: Global,
    program: &Program<D::Operation, D::Block>,
    ops: &[Ptr<Operation>],
) -> Result<Vec<Decision>, AllocError>
    requires { (p : Ptr Operation) → Lists ops.now p → IsSome (operation_at program.now p) }
    ensures { IfOk result (λ decisions. decisions.items ≡ decisions_of (picked_edge D.meaning program.now) ops.now) }
{
    let mut decisions = Vec::new(alloc);
    for op in ops {
        if let Some(edge) = picked_edge::<D>(alloc, program, *op)? {
            decisions.push(Decision { op: *op, edge })?;
        }
    }
    Ok(decisions)
}

/// Whether the dialect has an unconditional branch.
fn has_unconditional<D: OptDialect>(alloc: Global) -> Result<bool, AllocError>
    ensures { IfOk result (λ has. has ≡ is_some D.meaning.plain) }
{
    Ok(D::unconditional(alloc)?.is_some())
}

/// The branches below an operation that their operands decide, in preorder: the branches that aren't unconditional, without
/// results and regions, whose operands pick an edge by what is known of each by its definer alone. There are none where the
/// dialect has no unconditional branch. The time is linear in what is below the operation, and for each operand of such
/// a branch in the results of its definer.
///
/// # Errors
/// There may be no memory.
pub(crate) fn decided_branches<D: OptDialect>(
    alloc: Global,
    program: &Program<D::Operation, D::Block>,
    op: Ptr<Operation>,
) -> Result<Vec<Decision>, AllocError>
    requires { IsSome (operation_at program.now op) }
    ensures { IfOk result (λ decisions. AreDecisions D.meaning program.now op decisions.items) }
{
    if !has_unconditional::<D>(alloc)? {
        return Ok(Vec::new(alloc));
    }
    let inside = number_inside(alloc, program, op)?;
    let decisions = decisions_of::<D>(alloc, program, inside.operations.as_slice())?;
    Ok(decisions)
}
