//! What a module says apart from the context that it stands in: the text alone determines whether it keeps the rules and
//! which program it has, whatever context the text was read into, and whatever its labels are; modules of two contexts may
//! say the same, and passes keep that. The functions here have no code, and their contracts are laws over the definitions
//! in specs/.
#![tactic(auto)]

mod laws;

ghost use Rattle.kit_text_programs.specs.Laws.{TextsHaveOneProgram};
ghost use Rattle.kit_text_programs.specs.RuleLaws.{AlikeTreesHaveOneVerdict, TextsHaveOneVerdict};

pub use laws::{passes_keep_same, texts_say_the_same, types_are_numbered};

/// Modules that stand in two contexts for trees of texts that are the same but for their labels have the same program.
pub fn texts_have_one_program()
    ensures { TextsHaveOneProgram }
{}

/// Trees of operations that are alike, in two contexts, have one verdict.
pub fn alike_trees_have_one_verdict()
    ensures { AlikeTreesHaveOneVerdict }
{}

/// Trees that stand in two contexts for trees of texts that are the same but for their labels have one verdict.
pub fn texts_have_one_verdict()
    ensures { TextsHaveOneVerdict }
{}
