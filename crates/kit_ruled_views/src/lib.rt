//! Functions of a module that keeps the rules of `kit` have flat views and are typed: what the laws that tie the
//! optimisations on trees to those on flat functions ask for. And the program of the tree of a module, with laws that tie
//! the passes on such trees to those on programs. Each function here is a law over the definitions in specs/, and its
//! contract says it.
#![tactic(auto)]

mod functions;
mod trees;

ghost use Rattle.ir_trees.specs.Renames.{named};
ghost use Rattle.kit_ruled_views.specs.FitLaws.{ModulesBoundFunctions, RulesMakeFit};
ghost use Rattle.kit_ruled_views.specs.ProgramLaws.{ProgramsExist, OneProgram, DceIsDce, SccpIsSccp, SimplifyIsSimplify};
ghost use Rattle.kit_ruled_views.specs.ProgramLaws.{RulesMakeSound, SoundIsFlat, ListsAreLists, TreesAlike, TreesGoal};
ghost use Rattle.kit_ruled_views.specs.ProgramLaws.{TreesKeepFaces, TreeListsCut};

pub use functions::know_function;
pub use trees::{
    flat_under_names, functions_are_flat, functions_are_typed, handles_are_told_apart,
    typed_after_cut, typed_after_dce, typed_after_decided, typed_after_sccp, typed_under_names,
    views_are_one,
};

/// The tree of a module whose functions have flat views has a program.
pub fn programs_exist<O, B, V>()
    ensures { ProgramsExist (named O B V) }
{}

/// The tree of a module has one program at most.
pub fn one_program<O, B, V>()
    ensures { OneProgram (named O B V) }
{}

/// Removal of dead values on the tree of a module is removal of dead values on its program.
pub fn dce_is_dce<O, B, V>()
    ensures { DceIsDce (named O B V) }
{}

/// Constants put into the tree of a module are constants put into its program.
pub fn sccp_is_sccp<O, B, V>()
    ensures { SccpIsSccp (named O B V) }
{}

/// Control flow simplified on the tree of a module is control flow simplified on its program.
pub fn simplify_is_simplify<O, B, V>()
    ensures { SimplifyIsSimplify (named O B V) }
{}

/// A list of passes on the tree of a module is the list of passes on its program.
pub fn lists_are_lists<O, B, V>()
    ensures { ListsAreLists (named O B V) }
{}

/// A list of passes on trees keeps behaviour: the programs behave alike, within some factor.
pub fn trees_alike<O, B, V>()
    ensures { TreesAlike (named O B V) }
{}

/// After a list of passes on trees the goal of its last is met.
pub fn trees_goal<O, B, V>()
    ensures { TreesGoal (named O B V) }
{}

/// A list of passes on trees keeps the paths of functions, and how many arguments each takes.
pub fn trees_keep_faces<O, B, V>()
    ensures { TreesKeepFaces (named O B V) }
{}

/// The rest of a list of passes, on what its beginning made, makes a tree with the program that the whole list makes.
pub fn tree_lists_cut<O, B, V>()
    ensures { TreeListsCut (named O B V) }
{}

/// A module that keeps the rules of the dialect, under names that are distinct, is sound.
pub fn rules_make_sound()
    ensures { RulesMakeSound }
{}

/// The functions of a sound module have flat views, so it has a program.
pub fn sound_is_flat<O, B, V>()
    ensures { SoundIsFlat (named O B V) }
{}

/// The program of a module that keeps the rules, under names that are distinct, keeps the flat rules, and there are
/// bounds for its functions.
pub fn rules_make_fit()
    ensures { RulesMakeFit }
{}

/// No function of the program of a module has more operations than the module.
pub fn modules_bound_functions()
    ensures { ModulesBoundFunctions }
{}
