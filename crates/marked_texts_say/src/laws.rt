//! What texts with the same tokens say.
ghost use Rattle.std.specs.Prelude.{◌≡◌, ◌↔◌, ◌+◌, ◌++◌, ◌∷◌, ℕ, List, [], Some, length, map};
ghost use Rattle.ir_characters.specs.Texts.{owned_codes};
ghost use Rattle.ir_forest.specs.Language.{Language};
ghost use Rattle.ir_grammar.specs.declared.grammar.Event.{Event};
ghost use Rattle.ir_grammar.specs.declared.grammar.Stop.{Stop};
ghost use Rattle.ir_print.specs.Pieces.{Entity};
ghost use Rattle.ir_rereading.specs.Texts.{HasFault, IsReading, Says};
ghost use Rattle.ir_tokens.specs.declared.faults.Fault.{Fault};
ghost use Rattle.ir_tokens.specs.declared.tokens.Token.{Token};
ghost use Rattle.ir_tokens.specs.Tokens.{ReadsAs};
ghost use Rattle.text_marking.specs.declared.taking.MarkedText.{MarkedText};
ghost use Rattle.text_marking.specs.Marks.{marks_of};
ghost use Rattle.text_marking.specs.PutAndTaken.{number_and_tokens, put_number_and_tokens, CanPut};
ghost use Rattle.text_marking.specs.Putting.{with_marks};
ghost use Rattle.text_marking.specs.Taking.{TakesMarks};
ghost use Rattle.outlined_texts.specs.declared.splitting.OutlinedText.{OutlinedText};
ghost use Rattle.outlined_texts.specs.Appended.{IsSectionText};
ghost use Rattle.outlined_texts.specs.Splits.{IsSplit};
ghost use Rattle.marked_texts_say.specs.Alike.{AreAlike};
ghost use Rattle.marked_texts_say.specs.Outlined.{CanOutline};

/// Two texts whose tokens have the same kinds and characters in order are read alike, have the same faults, at the same
/// tokens, and say the same trees.
pub fn alike_texts_say_the_same()
    ensures reads { (l : Language) (cs ds : List ℕ) (ts us : List Token) → AreAlike cs ts ds us → (names : List ℕ)
        (stop : Stop) (n : ℕ) (es : List Event) → IsReading l cs ts names stop n es → IsReading l ds us names stop n es }
    ensures faults { (l : Language) (cs ds : List ℕ) (ts us : List Token) → AreAlike cs ts ds us → (names : List ℕ)
        (stop : Stop) (n : ℕ) (es : List Event) (f : Fault) → HasFault l cs ts names stop n es f
        → HasFault l ds us names stop n es f }
    ensures says { (l : Language) (cs ds : List ℕ) (ts us : List Token) → AreAlike cs ts ds us → (tree : Entity ℕ)
        → Says l cs tree ↔ Says l ds tree }
{}

/// A bare text into which marks were put says the same when they are taken again.
pub fn put_marks_say_the_same()
    ensures { (l : Language) (cs : List ℕ) (ts : List Token) (ms : List (ℕ × ℕ)) (taken : MarkedText)
        → ReadsAs cs 0 ts → marks_of cs ts ≡ [] → CanPut cs ts 0 ms → TakesMarks (with_marks cs ms) taken
        → (tree : Entity ℕ) → Says l cs tree ↔ Says l (owned_codes taken.bare) tree }
{}

/// A text with marks put in and a section behind it is taken apart into what it was made of: the section begins behind its
/// line feed, the marks have their numbers and are behind as many tokens as they were put behind, and the front says what the
/// text said without both.
pub fn outlined_texts_say_the_same()
    ensures { (l : Language) (cs more : List ℕ) (ts us : List Token) (ms : List (ℕ × ℕ)) (taken : MarkedText)
        (split : OutlinedText) → CanOutline cs ts → CanPut cs ts 0 ms → IsSectionText more us
        → TakesMarks (with_marks cs ms) taken → IsSplit (with_marks cs ms ++ 10 ∷ more) split
        → (split.section ≡ Some (length (with_marks cs ms) + 1))
        × (map number_and_tokens split.marks.items ≡ map (put_number_and_tokens ts) ms)
        × ((tree : Entity ℕ) → Says l cs tree ↔ Says l (owned_codes split.front) tree) }
{}
