//! Laws of texts: a text is read in one way, and its faults are met in the order of its tokens; what is printed of a closed
//! tree is read again.
ghost use Rattle.std.specs.Prelude.{◌≡◌, ◌≢◌, ◌≤◌, ◌+◌, ◌++◌, ◌⊎◌, ℕ, Bool, true, false, List, Option, Some, None, IsUtf8, [], chars, length, ◌<◌, ◌^◌, ◌∷◌};
ghost use Rattle.ir_tokens.specs.declared.tokens.Token.{Token};
ghost use Rattle.ir_grammar.specs.declared.grammar.Grammar.{Grammar};
ghost use Rattle.ir_grammar.specs.declared.grammar.Event.{Event};
ghost use Rattle.ir_grammar.specs.declared.grammar.Stop.{Stop};
ghost use Rattle.ir_grammar.specs.declared.grammar.Stop.TheVariants.{Text, Deep};
ghost use Rattle.ir_tokens.specs.Tokens.{ReadsAs};
ghost use Rattle.ir_grammar.specs.Grammar.{IsTextOf};
ghost use Rattle.ir_grammar.specs.Table.{CanRead};
ghost use Rattle.ir_print.specs.Layout.{leaf_text};
ghost use Rattle.ir_print.specs.Pieces.{Entity, Leaf};
ghost use Rattle.ir_print.specs.Shapes.{sort_of, IsInRange};
ghost use Rattle.ir_tokens.specs.declared.faults.Fault.{Fault};
ghost use Rattle.ir_tokens.specs.declared.faults.TextFault.{TextFault};
ghost use Rattle.ir_scopes.specs.Depth.{IsTooDeep};
ghost use Rattle.ir_tokens.specs.Faults.{IsNamed};
ghost use Rattle.ir_rereading.specs.Texts.{HasFault, IsReading, IsTextFault, Says};
ghost use Rattle.ir_forest.specs.Language.{Language};
ghost use Rattle.ir_grammar.specs.Reading.{AreMostlyAlike, OpensMore, Reads, tooks};
ghost use Rattle.ir_formats.specs.Rules.{plain_rules, rules_of, IsGrammarOf};
ghost use Rattle.ir_grammar.specs.Nesting.{at_root, at_end, FollowTokens, OwnTokens};
ghost use Rattle.ir_formats.specs.Ordered.{PartPositions, is_ordered, IsInOrder, LeadsToPosition, OrdersTexts};
ghost use Rattle.ir_forest.specs.Identifiers.{AreSpelt};
ghost use Rattle.ir_formats.specs.Words.{text_of, token_text};
ghost use Rattle.ir_forest.specs.Meaning.{leaf_in};
ghost use Rattle.ir_scopes.specs.Scopes.{HasScopeFault, NamesAreApart, value_names, label_names};
ghost use Rattle.ir_forest.specs.Closed.{IsClosedTree, IsNumbered, IsSameModule};
ghost use Rattle.ir_rereading.specs.Printable.{CanPrint, IsLayoutOf};

/// The characters of a text are one list of tokens.
pub fn tokens_are_unique()
    ensures { (cs : List ℕ) (ts us : List Token) → ReadsAs cs 0 ts → ReadsAs cs 0 us → ts ≡ us }
{}

/// Under a grammar that can be read, reading a whole text does one list of events.
pub fn one_reading()
    ensures { (g : Grammar) (root : ℕ) → CanRead g root → (ts : List ℕ) (es fs : List Event)
        → IsTextOf g root ts es → IsTextOf g root ts fs → es ≡ fs }
{}

/// Where each name of a value or a block has a token of its own, no two of these names have one token.
pub fn names_are_apart()
    ensures { (isolated : ℕ → Bool) (es : List Event) → OwnTokens false es
        → NamesAreApart (value_names isolated es) (label_names isolated es) }
{}

/// A fault of names of a front stays one of all that begins with it, and what more there is has its faults later.
pub fn scope_faults_stay()
    ensures stays { (isolated : ℕ → Bool) (names : List ℕ) (es more : List Event) (f : Fault)
        → HasScopeFault isolated names es f → HasScopeFault isolated names (es ++ more) f }
    ensures later { (isolated : ℕ → Bool) (names : List ℕ) (es more : List Event) (f : Fault)
        → HasScopeFault isolated names (es ++ more) f → HasScopeFault isolated names es f ⊎ (tooks es ≤ f.met + 1) }
{}

/// The same of parts that are too deep; and where the reader stopped at one, there is such a fault.
pub fn deep_faults_stay()
    ensures stays { (es more : List Event) (f : Fault) → IsTooDeep es f → IsTooDeep (es ++ more) f }
    ensures later { (es more : List Event) (f : Fault) → IsTooDeep (es ++ more) f → IsTooDeep es f
        ⊎ (tooks es ≤ f.met + 1) }
    ensures some { (es : List Event) → OpensMore 64 0 es → (f : Fault) × IsTooDeep es f }
{}

/// Where the rules of a grammar pass the test of their order, reading its texts does all in order.
pub fn texts_are_ordered()
    ensures { (g : Grammar) (leads : PartPositions) → is_ordered leads (plain_rules g.rules.items) ≡ true
        → OrdersTexts g }
{}

/// So is all that reading any tokens does; and where they are a text, nothing is begun any more at its end.
pub fn readings_are_ordered()
    ensures order { (g : Grammar) → OrdersTexts g → (many n : ℕ) (ts : List ℕ) (stop : Stop) (es : List Event)
        → Reads g 0 many ts stop n es → IsInOrder es }
    ensures ends { (g : Grammar) → OrdersTexts g → (many n : ℕ) (ts : List ℕ) (es : List Event)
        → Reads g 0 many ts Text n es → LeadsToPosition at_root es at_end }
{}

/// Each name and each label that reading a text keeps is an identifier.
pub fn kept_names_are_identifiers()
    ensures { (l : Language) (cs : List ℕ) (ts : List Token) (names : List ℕ) (stop : Stop) (n : ℕ) (es : List Event)
        → IsReading l cs ts names stop n es → AreSpelt (token_text cs ts) 0 es }
{}

/// A front of what is in order is in order.
pub fn fronts_are_ordered()
    ensures { (es more : List Event) → IsInOrder (es ++ more) → IsInOrder es }
{}

/// Where actions come straight behind their tokens, each name of a value or a block has a token of its own.
pub fn names_have_tokens()
    ensures { (es : List Event) → FollowTokens false es → OwnTokens false es }
{}

/// Of the faults of a text one is named, or none.
pub fn one_fault_is_named()
    ensures one { (l : Language) (cs : List ℕ) (ts : List Token) (names : List ℕ) (stop : Stop) (n : ℕ)
        (es : List Event) (f g : Fault)
        → IsNamed (HasFault l cs ts names stop n es) (Some f) → IsNamed (HasFault l cs ts names stop n es) (Some g)
        → f ≡ g }
    ensures either { (l : Language) (cs : List ℕ) (ts : List Token) (names : List ℕ) (stop : Stop) (n : ℕ)
        (es : List Event) (f : Fault)
        → IsNamed (HasFault l cs ts names stop n es) (Some f) → IsNamed (HasFault l cs ts names stop n es) None → ⊥ }
{}

/// What is alike has the same faults.
pub fn alike_faults()
    ensures { (l : Language) (cs : List ℕ) (ts : List Token) (names : List ℕ) (stop : Stop) (n : ℕ)
        (es fs : List Event) → AreMostlyAlike es fs
        → (f : Fault) → HasFault l cs ts names stop n es f → HasFault l cs ts names stop n fs f }
{}

/// Two readings of one text have the same tokens. Where nothing is too deep, they stop for one reason behind as many tokens, and do
/// the same but for members of lists that begin with the next token.
pub fn readings_agree()
    ensures tokens { (l : Language) (cs : List ℕ) (ts us : List Token) (names numbers : List ℕ) (stop halt : Stop)
        (n m : ℕ) (es fs : List Event)
        → IsReading l cs ts names stop n es → IsReading l cs us numbers halt m fs → ts ≡ us }
    ensures stops { (l : Language) (cs : List ℕ) (ts us : List Token) (names numbers : List ℕ) (stop halt : Stop)
        (n m : ℕ) (es fs : List Event)
        → IsReading l cs ts names stop n es → IsReading l cs us numbers halt m fs → stop ≢ Deep → halt ≢ Deep
        → (stop ≡ halt) × (n ≡ m) × AreMostlyAlike es fs }
{}

/// Where a language is in order, a text has one first fault, or none.
pub fn one_verdict()
    ensures { (l : Language) (leads : PartPositions) → is_ordered leads (rules_of l.formats) ≡ true
        → (cs : List ℕ) (ts us : List Token) (names numbers : List ℕ) (stop halt : Stop) (n m : ℕ)
        (es fs : List Event) (f g : Option Fault)
        → IsReading l cs ts names stop n es → IsReading l cs us numbers halt m fs
        → IsNamed (HasFault l cs ts names stop n es) f → IsNamed (HasFault l cs us numbers halt m fs) g → f ≡ g }
{}

/// So it is refused with one fault at most, and with none where it says a tree.
pub fn texts_have_one_answer()
    ensures one { (l : Language) (leads : PartPositions) → is_ordered leads (rules_of l.formats) ≡ true
        → (cs : List ℕ) (f g : TextFault) → IsTextFault l cs f → IsTextFault l cs g → f ≡ g }
    ensures either { (l : Language) (leads : PartPositions) → is_ordered leads (rules_of l.formats) ≡ true
        → (cs : List ℕ) (f : TextFault) (tree : Entity ℕ) → IsTextFault l cs f → Says l cs tree → ⊥ }
{}

/// What a leaf in range, a name, a number, a width, a text in quotes or a mark, is spelled as is one token, and says the
/// leaf.
pub fn leaves_are_read_again()
    ensures token { (x : Leaf) → IsInRange x → (t : Token) × ReadsAs (leaf_text x) 0 (t ∷ [])
        × (text_of (leaf_text x) t ≡ leaf_text x) }
    ensures says { (x : Leaf) → IsInRange x → leaf_in (sort_of x) (leaf_text x) ≡ x }
{}

/// What is printed of a closed tree is UTF-8, and is read again, as the same tree but for its labels.
pub fn printed_texts_are_read()
    ensures bytes { (l : Language) → CanPrint l → (tree : Entity ℕ) → (text : List ℕ) → IsClosedTree l tree
        → IsLayoutOf l.formats tree text → IsUtf8 (text ++ 10 ∷ []) }
    ensures read { (l : Language) → CanPrint l → (g : Grammar) → IsGrammarOf l.formats g → (tree : Entity ℕ)
        → (text : List ℕ) → IsClosedTree l tree → IsNumbered tree → IsLayoutOf l.formats tree text
        → length (text ++ 10 ∷ []) < 2 ^ 63 → (again : Entity ℕ) × Says l (chars (text ++ 10 ∷ [])) again
        × IsSameModule again tree }
{}

/// In a language that is in order, two trees that one text says are the same.
pub fn texts_say_one_tree()
    ensures { (l : Language) (leads : PartPositions) → is_ordered leads (rules_of l.formats) ≡ true
        → (cs : List ℕ) (t u : Entity ℕ) → Says l cs t → Says l cs u → t ≡ u }
{}
