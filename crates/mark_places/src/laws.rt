//! Laws of items.
ghost use Rattle.std.specs.Prelude.{[], false, List};
ghost use Rattle.ir_grammar.specs.declared.grammar.Event.{Event};
ghost use Rattle.ir_grammar.specs.Nesting.{at_root, FollowTokens, Nests};
ghost use Rattle.mark_places.specs.Operations.{operation_ends, AreRising};

/// Where actions nest and come behind their tokens, as they do where texts are read, each operation ends behind more tokens
/// than the one that ends before it: so no two operations end at one place.
pub fn operations_end_apart()
    ensures { (es : List Event) → Nests at_root [] es → FollowTokens false es → AreRising 0 (operation_ends es) }
{}
