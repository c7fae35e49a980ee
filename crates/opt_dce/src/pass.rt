//! The pass.
ghost use Rattle.std.specs.Prelude.{◌≡◌, ◌↔◌, Ok, IfErr, IfOk, IsSome, IsTrue};
ghost use Rattle.std.specs.List.{list_any};
ghost use Rattle.ir_program.specs.Program.{operation_at};
ghost use Rattle.ir_trees.specs.Stands.{ProgramTree, StandsFor, by_handle};
ghost use Rattle.opt_dce.specs.Steps.{GoesBelowRoot};
ghost use Rattle.opt_dce.specs.Thins.{IsIdle, IsOutcome, thinned_root};
ghost use Rattle.opt_dce.specs.liveness.Plans.{IsPlan};
ghost use Rattle.opt_dce.specs.declared.liveness.plan.DeadPlan.{DeadPlan};
ghost use Rattle.opt_dialect.specs.declared.status.IRStatus.TheVariants.{Unchanged};
ghost use Rattle.opt_dialect.specs.declared.status.OptError.TheVariants.{Memory};
ghost use Rattle.opt_handles.specs.Handles.{KeepsHandles};
ghost use Rattle.opt_inside.specs.Edges.{HasLocalEdgesBelow};
ghost use Rattle.opt_trees.specs.Dce.{TreeSurroundings, Gone, IsGoneExactly};

use crate::liveness::{DeadArguments, DeadPlan, dead_plan};
use crate::taking::take_out;
use ir_context::{TypeTable, TypedProgram};
use ir_program::{Operation, Program, Ptr};
use ir_trees::know_tree;
use opt_dialect::{IRStatus, OptDialect, OptError};
use opt_inside::know_occurrences;
use std::alloc::Global;

/// Whether some index is marked.
fn has_mark(marks: &[bool]) -> bool
    ensures { result ≡ list_any (λ mark. mark) marks.now }
{
    marks.iter().any(|mark| *mark)
}

/// Whether some argument is marked.
fn has_marks(dead: &[DeadArguments]) -> bool
    ensures { result ≡ list_any (λ a. list_any (λ mark. mark) a.marks.items) dead.now }
{
    dead.iter().any(|a| has_mark(&a.marks))
}

/// Whether a plan takes nothing: it lists no operation and marks no argument, so no operand is lost.
fn takes_nothing(plan: &DeadPlan) -> bool
    ensures { IsTrue result ↔ IsIdle plan.now }
{
    plan.operations.is_empty() && !has_marks(&plan.arguments)
}

/// Tells of what is dead in an operation: the operation stands for a tree; what is dead stands below it; and the tree
/// without it is the tree itself where a plan of it takes nothing, and only there. It does nothing.
fn know_gone<D: OptDialect>(program: &Program<D::Operation, D::Block>, op: Ptr<Operation>)
    requires { IsSome (operation_at program.now op) }
    ensures tree { (t : ProgramTree D.Operation D.Block) × StandsFor program.now op t }
    ensures below { (t : ProgramTree D.Operation D.Block) → StandsFor program.now op t
        → (w : TreeSurroundings by_handle D.Constant) (g : Gone by_handle) → IsGoneExactly D.meaning w t g
        → GoesBelowRoot program.now op g }
    ensures idle { (t : ProgramTree D.Operation D.Block) → StandsFor program.now op t
        → (w : TreeSurroundings by_handle D.Constant) (g : Gone by_handle) → IsGoneExactly D.meaning w t g
        → (plan : DeadPlan) → IsPlan program.now g plan → IsIdle plan ↔ (thinned_root D.meaning g t ≡ t) }
{
    know_tree(program, op);
    know_occurrences(program, op);
    program.know_values();
}

/// Dead code elimination: takes out of an operation what is dead in it. These are operations without side effects that
/// end no block and whose results nothing uses but what is dead, with all that is in them, and arguments of blocks that
/// nothing uses but what is dead, with the operands that are forwarded to them.
///
/// It answers whether anything was dead. Below the operation edges stay in their region, and lead from ends of blocks.
/// What is dead is erased, with the blocks and regions in it: their handles are refused from then on, and so is each that
/// was refused before.
///
/// Source: Cytron and others, Efficiently computing static single assignment form, 1991; here as the least set, with
/// block arguments and what operations hold.
///
/// # Errors
/// There may be no memory. Nothing is changed then.
pub fn dce<D: OptDialect, T: TypeTable>(
    alloc: Global,
    op: Ptr<Operation>,
    ctx: &mut TypedProgram<D::Operation, D::Block, T>,
) -> Result<IRStatus, OptError>
    requires live { IsSome (operation_at ctx.old.program op) }
    requires edges { HasLocalEdgesBelow D.meaning.is_terminator ctx.old.program op }
    ensures made { IfOk result (λ status. (t : ProgramTree D.Operation D.Block) → StandsFor ctx.old.program op t
        → IsOutcome D.meaning ctx.old.program ctx.new.program op t status) }
    ensures unchanged { result ≡ Ok Unchanged → ctx.new ≡ ctx.old }
    ensures error { IfErr result (λ error. error ≡ Memory) }
    ensures err { IfErr result (λ error. ctx.new ≡ ctx.old) }
    ensures handles { KeepsHandles ctx.old.program ctx.new.program op }
    ensures numbers { ctx.new.program.counter ≡ ctx.old.program.counter }
    ensures types { ctx.new.types ≡ ctx.old.types }
{
    let plan = dead_plan::<D>(alloc, ctx.program(), op)?;
    know_gone::<D>(ctx.program(), op);
    if takes_nothing(&plan) {
        return Ok(IRStatus::Unchanged);
    }
    take_out::<D, T>(ctx, op, &plan);
    Ok(IRStatus::Changed)
}
