//! Laws of what is built of a text: it is what was read.
ghost use Rattle.std.specs.Prelude.{◌≡◌, ◌⊎◌, ℕ, false, List, []};
ghost use Rattle.ir_names.specs.Tree.{LabelledTree, Trees, a_tree, no_tree};
ghost use Rattle.ir_print.specs.Pieces.{Values, Entity, an_entity, no_entity};
ghost use Rattle.ir_grammar.specs.declared.grammar.Event.{Event};
ghost use Rattle.ir_forest.specs.Forest.{deeds, deeds_from, deeds_of, ActionSpan, AreWhole, IsForestOf};
ghost use Rattle.ir_forest.specs.Meaning.{operations_in};
ghost use Rattle.ir_grammar.specs.Nesting.{Position, Nests, FollowTokens, at_root, at_end};
ghost use Rattle.ir_forest.specs.Building.{Built, built, built_from, behind, first_refusal};
ghost use Rattle.ir_tokens.specs.Faults.{IsNamed};
ghost use Rattle.ir_forest.specs.ValueFaults.{HasNumberFault, HasNamesFault};
ghost use Rattle.ir_forest.specs.Progress.{deeds_so_far, run, Leads};

/// What is built is what was read: its deeds are those of the events. Where all is ended it is the forest of the text.
pub fn built_deeds()
    ensures deeds { (es : List Event) → Nests at_root [] es → deeds es ≡ deeds_so_far (built es) }
    ensures forest { (es : List Event) → Nests at_root [] es → (built es).around ≡ [] → IsForestOf es (built es).here }
{}

/// What was read up to its end is one operation.
pub fn built_root()
    ensures ended { (es : List Event) → Leads at_root [] es at_end [] → (built es).around ≡ [] }
    ensures one { (values : Values) (text : ℕ → List ℕ) (es : List Event) → Leads at_root [] es at_end []
        → (e : Entity ℕ) × (operations_in values text [] (built es).here ≡ an_entity e no_entity) }
    ensures nests { (es : List Event) → Leads at_root [] es at_end [] → Nests at_root [] es }
    ensures leads { (es : List Event) → Nests at_root [] es → (to : Position) × (back : List Position)
        × Leads at_root [] es to back }
{}

/// The deeds of a tree build that tree, behind what stands there; so what was read is one forest at most.
pub fn built_tree()
    ensures runs { (es : List Event) (b : Built) (n : ℕ) → built_from b n es ≡ run b (deeds_from n es) }
    ensures tree { (t : LabelledTree ActionSpan) (b : Built) → AreWhole (a_tree t no_tree)
        → run b (deeds_of t) ≡ record { here = behind b.here t; around = b.around } }
    ensures forest { (es : List Event) (ts : Trees ActionSpan) → IsForestOf es ts
        → built es ≡ record { here = ts; around = [] } }
{}

/// The first refusal is the fault that is named of those that values and names of results have.
pub fn first_refusal_is_named()
    ensures { (values : Values) (text : ℕ → List ℕ) (es : List Event) → Nests at_root [] es → FollowTokens false es
        → IsNamed (λ f. HasNumberFault values text es f
        ⊎ HasNamesFault values text es f) (first_refusal values text es) }
{}
