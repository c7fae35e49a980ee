//! The flat view of a function of the dialect `kit`, and laws that tie the optimisations on trees to those on flat
//! functions: each function here has no code, and its contract is a law over the definitions in specs/.
#![tactic(auto)]

ghost use Rattle.ir_trees.specs.Renames.{named};
ghost use Rattle.kit_views.specs.Laws.{FlatDce, FlatFacts, FlatSccp, FlatDecided, FlatReached, FlatMerged};
ghost use Rattle.kit_views.specs.Laws.{FlatSimplify};

/// Removal of dead values on the tree of a function is removal of dead values on its flat view.
pub fn flat_dce<O, B, V>()
    ensures { FlatDce (named O B V) }
{}

/// The most precise facts of the tree of a typed function are those of its flat view.
pub fn flat_facts<O, B, V>()
    ensures { FlatFacts (named O B V) }
{}

/// Constants put into the tree of a typed function are constants put into its flat view.
pub fn flat_sccp<O, B, V>()
    ensures { FlatSccp (named O B V) }
{}

/// Branches that constants decide, decided in the tree of a typed function, are decided in its flat view.
pub fn flat_decided<O, B, V>()
    ensures { FlatDecided (named O B V) }
{}

/// Blocks that are not reached, removed from the tree of a function, are removed from its flat view.
pub fn flat_reached<O, B, V>()
    ensures { FlatReached (named O B V) }
{}

/// Chains of blocks joined in the tree of a function are joined in its flat view.
pub fn flat_merged<O, B, V>()
    ensures { FlatMerged (named O B V) }
{}

/// The pass on control flow on the tree of a typed function is the pass on its flat view.
pub fn flat_simplify<O, B, V>()
    ensures { FlatSimplify (named O B V) }
{}
