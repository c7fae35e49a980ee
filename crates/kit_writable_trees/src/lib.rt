//! Which trees of operations of `kit` can be written as texts.
#![tactic(auto)]

ghost use Rattle.kit_writable_trees.specs.Laws.{TextsAreWritable};

/// An operation that stands for a closed tree of texts can be written: its own tree says so.
pub fn texts_are_writable()
    ensures { TextsAreWritable }
{}
