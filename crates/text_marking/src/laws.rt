//! Laws of marks.
ghost use Rattle.std.specs.Prelude.{◌≡◌, ℕ, List, []};
ghost use Rattle.ir_characters.specs.Texts.{owned_codes};
ghost use Rattle.ir_tokens.specs.declared.tokens.Token.{Token};
ghost use Rattle.ir_tokens.specs.Tokens.{ReadsAs};
ghost use Rattle.text_marking.specs.Marks.{marks_of};
ghost use Rattle.text_marking.specs.Putting.{with_marks};
ghost use Rattle.text_marking.specs.PutAndTaken.{CanPut, GivesBack};
ghost use Rattle.text_marking.specs.Taking.{TakesMarks};
ghost use Rattle.text_marking.specs.declared.taking.MarkedText.{MarkedText};

/// Marks that are put in at ends of tokens of a bare text can be taken again: that gives back the tokens of the bare
/// text, and the marks.
pub fn put_marks_are_taken()
    ensures { (cs : List ℕ) (ts : List Token) (ms : List (ℕ × ℕ)) (taken : MarkedText)
        → ReadsAs cs 0 ts → marks_of cs ts ≡ [] → CanPut cs ts 0 ms
        → TakesMarks (with_marks cs ms) taken → GivesBack cs ts ms taken }
{}

/// A text has one bare text and one list of marks.
pub fn one_bare_text()
    ensures { (cs : List ℕ) (a b : MarkedText) → TakesMarks cs a → TakesMarks cs b
        → (owned_codes a.bare ≡ owned_codes b.bare) × (a.marks.items ≡ b.marks.items) }
{}
