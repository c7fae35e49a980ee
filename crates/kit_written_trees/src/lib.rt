//! Trees of operations that can be written, and the texts that they have; and what the passes leave of a tree that can
//! be written can be written.
#![tactic(auto)]

ghost use Rattle.kit_written_trees.specs.Laws.{WritableHaveTexts};
ghost use Rattle.kit_written_trees.specs.PassLaws.{DceStaysWritable, SccpStaysWritable, SimplifyStaysWritable};

/// An operation that can be written, in which operands are in scope, has a tree of texts.
pub fn writable_trees_have_texts()
    ensures { WritableHaveTexts }
{}

/// What is left without what is dead can be written.
pub fn dce_stays_writable()
    ensures { DceStaysWritable }
{}

/// With constants in place of the values that the most precise facts know, a tree that keeps the rules can be written.
pub fn sccp_stays_writable()
    ensures { SccpStaysWritable }
{}

/// With simpler control flow a tree can be written.
pub fn simplify_stays_writable()
    ensures { SimplifyStaysWritable }
{}
