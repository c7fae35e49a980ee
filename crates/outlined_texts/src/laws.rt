//! Laws of texts that are taken apart.
ghost use Rattle.std.specs.Prelude.{◌≡◌, ◌≤◌, ◌+◌, ◌++◌, ◌∷◌, [], ℕ, List, Some, codes, length, take};
ghost use Rattle.ir_characters.specs.Texts.{owned_codes};
ghost use Rattle.ir_tokens.specs.declared.tokens.Token.{Token};
ghost use Rattle.ir_tokens.specs.Tokens.{place, ReadsAs};
ghost use Rattle.text_marking.specs.declared.taking.MarkedText.{MarkedText};
ghost use Rattle.text_marking.specs.Taking.{TakesMarks};
ghost use Rattle.outlined_texts.specs.Appended.{IsSectionText, IsWithoutSection};
ghost use Rattle.outlined_texts.specs.Splits.{IsSplit, KeepsTokens};
ghost use Rattle.outlined_texts.specs.declared.splitting.OutlinedText.{OutlinedText};

/// A text is taken apart in one way.
pub fn one_split()
    ensures { (cs : List ℕ) (a b : OutlinedText) → IsSplit cs a → IsSplit cs b
        → (owned_codes a.front ≡ owned_codes b.front) × (a.marks.items ≡ b.marks.items) × (a.section ≡ b.section) }
{}

/// The parts of a text have its tokens before the section, the marks apart from the others.
pub fn tokens_are_kept()
    ensures { (cs : List ℕ) (ts : List Token) (split : OutlinedText) → ReadsAs cs 0 ts → IsSplit cs split
        → KeepsTokens cs ts split }
{}

/// Each place of the front has the line and the column that it has in the text.
pub fn places_stay()
    ensures { (cs : List ℕ) (split : OutlinedText) (k : ℕ) → IsSplit cs split → k ≤ length (owned_codes split.front)
        → place (take k (owned_codes split.front)) ≡ place (take k cs) }
{}

/// A section that is put behind a text without one is split off again: it begins behind its line feed, the marks are those
/// of the text, and the front is its bare text and the line feed.
pub fn appended_sections_are_split()
    ensures { (cs more : List ℕ) (ts us : List Token) (split : OutlinedText) (taken : MarkedText)
        → IsWithoutSection cs ts → IsSectionText more us → IsSplit (cs ++ 10 ∷ more) split → TakesMarks cs taken
        → (split.section ≡ Some (length cs + 1)) × (split.marks.items ≡ taken.marks.items)
        × (owned_codes split.front ≡ owned_codes taken.bare ++ 10 ∷ []) }
{}

/// What begins with a line feed and `outlined_attributes:` is the text of a section.
pub fn sections_begin_with_their_word()
    ensures { (more : List ℕ) (us : List Token) → ReadsAs (10 ∷ (codes "outlined_attributes:" ++ more)) 0 us
        → IsSectionText (codes "outlined_attributes:" ++ more) us }
{}
