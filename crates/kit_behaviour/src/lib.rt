//! Laws of the machine and of the three passes, on functions of basic blocks: each function here has no code, and its
//! contract is a law over the definitions in specs/. Each law is an abbreviation in specs/Laws.antt, with its premises.
#![tactic(auto)]

ghost use Rattle.kit_behaviour.specs.Laws.{SccpAlike, DceAlike, SimplifyAlike, PassAlike, FiniteIsFit, PassesAlike};
ghost use Rattle.kit_behaviour.specs.Laws.{PassesKeepRules, PassesKeepBounds, PassesKeepFaces, PassesExist, OneResult};
ghost use Rattle.kit_behaviour.specs.Laws.{ListsCut, SccpOfFunctionsGoal, DceOfFunctionsGoal, SimplifyOfFunctionsGoal, PassesGoal, DceSettles};
ghost use Rattle.kit_behaviour.specs.Laws.{LeanSccpSettles, BestExists, DeadExists, OneBestOfFunction, ScopesDetermined};
ghost use Rattle.kit_behaviour.specs.Laws.{FactsStay, ValueFactsKept, BlockFactsKept, KnownAreNamed};
ghost use Rattle.kit_behaviour.specs.Laws.{NumberingForgetsNames, NumberingStays, ConstantsAlike, RemovalAlike};
ghost use Rattle.kit_behaviour.specs.Laws.{DecisionsAlike, ForwardingAlike, JoiningAlike, MergingByPlace};
ghost use Rattle.kit_behaviour.specs.Laws.{SimplifyingByPlace, MergingFits, NumberingForgetsDefined};
ghost use Rattle.kit_behaviour.specs.Laws.{RemovalByPlace, RemovalDefines, PropagationByPlace, PropagationDefines};
ghost use Rattle.kit_behaviour.specs.Laws.{SimplifyingDefines};

/// Constant propagation keeps behaviour, on programs that keep the rules: all functions at once, calls and recursion
/// included; a bound on the length of runs, both ways.
pub fn sccp_alike()
    ensures { SccpAlike }
{}

/// Removal of dead values keeps behaviour, on programs that keep the rules; a bound on the length of runs, both ways.
pub fn dce_alike()
    ensures { DceAlike }
{}

/// The pass on control flow (branches decided, blocks that are not reached dropped, chains of blocks joined) keeps
/// behaviour, on programs that keep the rules; a bound on the length of runs, both ways.
pub fn simplify_alike()
    ensures { SimplifyAlike }
{}

/// Each pass keeps behaviour within one more than the number of operations, on programs that keep the rules.
pub fn pass_alike()
    ensures { PassAlike }
{}

/// A program of finitely many functions that keep the rules is fit for any list of passes.
pub fn finite_is_fit()
    ensures { FiniteIsFit }
{}

/// Any list of passes keeps behaviour; of the first program alone the rules are asked.
pub fn passes_alike()
    ensures { PassesAlike }
{}

/// Any list of passes keeps the rules, and that a program has bounds.
pub fn passes_keep_rules()
    ensures rules { PassesKeepRules }
    ensures bounds { PassesKeepBounds }
{}

/// Any list of passes keeps the paths of functions, and how many arguments each takes.
pub fn passes_keep_faces()
    ensures { PassesKeepFaces }
{}

/// Each list of passes makes a program of a program that keeps the rules.
pub fn passes_exist()
    ensures { PassesExist }
{}

/// A list of passes makes one program at most of a program that keeps the rules.
pub fn one_result()
    ensures { OneResult }
{}

/// The rest of a list, on what its beginning made, makes what the whole list makes; of the first program alone the
/// rules are asked.
pub fn lists_cut()
    ensures { ListsCut }
{}

/// After constant propagation each operand that the result's own most precise facts know is the result of a constant.
pub fn sccp_goal()
    ensures { SccpOfFunctionsGoal }
{}

/// After removal of dead values nothing is dead.
pub fn dce_goal()
    ensures { DceOfFunctionsGoal }
{}

/// After the pass on control flow each block is reached, and no block may be joined behind another.
pub fn simplify_goal()
    ensures { SimplifyOfFunctionsGoal }
{}

/// A second removal of dead values, straight after the first, changes nothing.
pub fn dce_settles()
    ensures { DceSettles }
{}

/// Constant propagation with constants for used values alone: a second one, straight after the first, changes nothing.
pub fn lean_sccp_settles()
    ensures { LeanSccpSettles }
{}

/// After a list of passes the goal of its last is met; of the first program alone the rules are asked.
pub fn passes_goal()
    ensures { PassesGoal }
{}

/// A function that keeps the rules has most precise facts, and any function has a set of dead values.
pub fn analyses_exist()
    ensures facts { BestExists }
    ensures dead { DeadExists }
{}

/// A function has one most precise list of facts at most.
pub fn one_best()
    ensures { OneBestOfFunction }
{}

/// The most precise facts leave no value undetermined that is in scope in a block known to run.
pub fn scopes_determined()
    ensures { ScopesDetermined }
{}

/// The most precise facts of what constant propagation makes say of each old value and block what they said before:
/// also by their names, before values are named by their places again.
pub fn facts_kept()
    ensures places { FactsStay }
    ensures values { ValueFactsKept }
    ensures blocks { BlockFactsKept }
{}

/// Before values are named by their places again: in a block known to run, each known value in scope is used by the
/// name of a constant.
pub fn known_are_named()
    ensures { KnownAreNamed }
{}

/// A function whose values are named by their places is the same, whatever names it had before: so a pass that is
/// stated on places speaks of a function under any names, those of a text or of a store.
pub fn numbering_forgets_names<T, U>()
    ensures { NumberingForgetsNames T U }
{}

/// So it is where names are told apart as before, as far as they are defined in the function: names of other functions
/// don't matter.
pub fn numbering_forgets_defined<T, U>()
    ensures { NumberingForgetsDefined T U }
{}

/// A function that keeps the rules is its own numbering.
pub fn numbering_stays()
    ensures { NumberingStays }
{}

/// A step: constants put in for known values, and uses that name them.
pub fn constants_alike()
    ensures { ConstantsAlike }
{}

/// A step: values removed that nothing needs that stays, with the operations and arguments that make them.
pub fn removal_alike()
    ensures { RemovalAlike }
{}

/// A step: branches that known numbers decide.
pub fn decisions_alike()
    ensures { DecisionsAlike }
{}

/// A step: uses of arguments replaced by what was forwarded to them.
pub fn forwarding_alike()
    ensures { ForwardingAlike }
{}

/// A step: blocks joined behind the blocks before them, in chains.
pub fn joining_alike()
    ensures { JoiningAlike }
{}

/// Chains of blocks joined under any names of values are joined by places, once values are named by their places.
pub fn merging_by_place<T>()
    ensures { MergingByPlace T }
{}

/// The pass on control flow under any names of values is the pass by places, once values are named by their places.
pub fn simplifying_by_place<T>()
    ensures { SimplifyingByPlace T }
{}

/// After the pass on control flow under any names of values the names that are left are defined.
pub fn simplifying_defines<T>()
    ensures { SimplifyingDefines T }
{}

/// Removal of dead values under any names of values is the removal by places, once values are named by their places;
/// and the names that are left are defined.
pub fn removal_by_place<T>()
    ensures places { RemovalByPlace T }
    ensures defined { RemovalDefines T }
{}

/// Constant propagation under any names of values is constant propagation by places, with constants for all known
/// values, once values are named by their places; and the names afterwards are defined.
pub fn propagation_by_place<T>()
    ensures places { PropagationByPlace T }
    ensures defined { PropagationDefines T }
{}

/// Whatever the names of values are: after chains of blocks are joined each edge fits.
pub fn merging_fits<T>()
    ensures { MergingFits T }
{}
