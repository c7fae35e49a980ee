//! Laws of two walks.
ghost use Rattle.ir_program.specs.declared.handles.IRNode.{IRNode};
ghost use Rattle.ir_walks.specs.Laws.{IsReversedByPostOrder};

use ir_program::Program;

/// Lemma: what `WALKCONFIG_PREORDER_FORWARD` calls without skipping, `WALKCONFIG_POSTORDER_REVERSE` calls in the
/// reverse order. It does nothing.
#[tactic(auto, using(crate::proofs::Reversed::post_order_reverses))]
pub fn lemma_post_order_reverses<O, B>(program: &Program<O, B>)
    ensures { (x : IRNode) → IsReversedByPostOrder program.now x }
{
    let _program = program;
}
