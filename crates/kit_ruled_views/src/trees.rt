//! Of trees by themselves.
ghost use Rattle.ir_program.specs.Replacing.{same_block, same_value};
ghost use Rattle.ir_trees.specs.Renames.{holding, named};
ghost use Rattle.kit_ruled_views.specs.Laws.{FlatUnderNames, RuledFunctionsAreFlat, FunctionsAreTyped};
ghost use Rattle.kit_ruled_views.specs.Laws.{TypedAfterCut, TypedAfterDce, TypedAfterDecided, TypedAfterSccp};
ghost use Rattle.kit_ruled_views.specs.Laws.{TypedUnderNames, ViewsAreOne};
ghost use Rattle.kit_views.specs.FlatView.{IsSameness};

/// A function of a module that keeps the rules has a flat view.
pub fn functions_are_flat()
    ensures { RuledFunctionsAreFlat }
{}

/// A function of a module that keeps the rules is typed.
pub fn functions_are_typed()
    ensures { FunctionsAreTyped }
{}

/// A tree whose blocks have distinct names has one flat view at most.
pub fn views_are_one<O, B, V, C, L, T>()
    ensures { ViewsAreOne (named O B V) (holding C L T) }
{}

/// A tree under names that are kept apart has its flat view under these names.
pub fn flat_under_names<O, B, V, O1, B1, V1, C, L, T>()
    ensures { FlatUnderNames (named O B V) (named O1 B1 V1) (holding C L T) }
{}

/// A typed function is typed under names that are kept apart.
pub fn typed_under_names<O, B, V, O1, B1, V1>()
    ensures { TypedUnderNames (named O B V) (named O1 B1 V1) }
{}

/// What is left of the tree of a typed function, without what is dead, is typed.
pub fn typed_after_dce<O, B, V>()
    ensures { TypedAfterDce (named O B V) }
{}

/// The tree of a typed function with constants is typed again.
pub fn typed_after_sccp<O, B, V>()
    ensures { TypedAfterSccp (named O B V) }
{}

/// A typed function whose branches are decided is typed.
pub fn typed_after_decided<O, B, V>()
    ensures { TypedAfterDecided (named O B V) }
{}

/// A typed function without the blocks that nothing reaches is typed, where no use is lost.
pub fn typed_after_cut<O, B, V>()
    ensures { TypedAfterCut (named O B V) }
{}

/// Handles of values, and handles of blocks, can be told apart.
pub fn handles_are_told_apart()
    ensures values { IsSameness same_value }
    ensures blocks { IsSameness same_block }
{}
