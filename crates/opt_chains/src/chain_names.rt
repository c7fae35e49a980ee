//! Steps along chains of numbers as steps that join blocks.
ghost use Rattle.std.specs.Prelude.{◌≡◌, ℕ, IfOk, Some, slice_get};
ghost use Rattle.opt_chains.specs.declared.chain_steps.ChainStep.{ChainStep};
ghost use Rattle.opt_chains.specs.NamedSteps.{AreNamedSteps, HasExit, IsNamedStep};

use crate::chain_exits::bare_exit;
use crate::chain_steps::ChainStep;
use crate::merging::Join;
use ir_program::{BasicBlock, Program, Ptr};
use opt_dialect::Meanings;
use std::alloc::{AllocError, Global};

/// The step that joins the block to which a step along a chain leads.
fn name_step<D: Meanings>(
    program: &Program<D::Operation, D::Block>,
    blocks: &[Ptr<BasicBlock>],
    step: ChainStep,
) -> Join
    requires { HasExit D.meaning program.now blocks.now step }
    ensures { IsNamedStep D.meaning program.now blocks.now step result }
{
    let before = blocks[step.before];
    let first = blocks[step.first];
    let Some(exit) = bare_exit::<D>(program, before) else {
        unreachable!()
    };
    Join {
        first,
        branch: exit.branch,
        block: exit.target,
    }
}

/// The steps that join the blocks to which steps along chains lead. The time is linear.
///
/// # Errors
/// There may be no memory.
pub(crate) fn name_steps<D: Meanings>(
    alloc: Global,
    program: &Program<D::Operation, D::Block>,
    blocks: &[Ptr<BasicBlock>],
    steps: &[ChainStep],
) -> Result<Vec<Join>, AllocError>
    requires { (k : ℕ) (s : ChainStep) → slice_get steps.now k ≡ Some s → HasExit D.meaning program.now blocks.now s }
    ensures { IfOk result (λ joins. AreNamedSteps D.meaning program.now blocks.now steps.now joins.items) }
{
    let mut joins = Vec::new(alloc);
    for step in steps {
        joins.push(name_step::<D>(program, blocks, *step))?;
    }
    Ok(joins)
}
