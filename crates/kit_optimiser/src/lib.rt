//! The optimisations of a module of `kit` in a context.
//!
//! A module is held by a context where it keeps the rules, and nothing outside it leads into it or takes a value of it.
//! So it is again after each pass that succeeds, and after each list of passes that does; and what stands outside it is
//! then as it was. What a list of passes makes of it is also said of the programs of both: each function that stands here
//! has no code, and its contract is a law over the definitions in specs/.
#![tactic(auto)]

mod lists;
mod outside;
mod passes;
mod soundness;

ghost use Rattle.ir_trees.specs.Renames.{named};
ghost use Rattle.kit_optimiser.specs.Laws.{FunctionsKeepTypes, OptimisedListsCut};
ghost use Rattle.kit_optimiser.specs.Laws.{OptimisedModulesHavePrograms};

pub use kit_ops::KitPass;
pub use lists::run_passes;
pub use passes::{propagate_constants, remove_dead, simplify_control_flow};
pub use soundness::know_sound;

/// A module of a context and what a list of passes left of it have programs. The list of passes on programs makes the
/// one of the other; they behave alike within some factor, the goal of the last pass is met, and functions keep their
/// paths, their numbers of arguments, their names and their types.
pub fn optimised_modules_have_programs()
    ensures { OptimisedModulesHavePrograms }
{}

/// A list of passes may be cut, also from one context to another: the rest of it, run on any module with the program
/// that its beginning left, leaves the program that the whole list leaves of any module with the first program.
pub fn optimised_lists_cut()
    ensures { OptimisedListsCut }
{}

/// Functions keep their paths, and all that they carry beside their blocks, through a list of passes on the tree of a
/// module: their names and their types among it.
pub fn optimised_functions_keep_types<O, B, V>()
    ensures { FunctionsKeepTypes (named O B V) }
{}
