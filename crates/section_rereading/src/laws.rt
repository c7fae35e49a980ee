//! What is printed of a section is read again.
ghost use Rattle.std.specs.Prelude.{◌≡◌, ◌<◌, ◌^◌, ◌∷◌, ◌++◌, [], ℕ, Bool, true, false, List};
ghost use Rattle.std.specs.Char.{is_digit};
ghost use Rattle.ir_locations.specs.declared.location.Location.{Location};
ghost use Rattle.ir_locations.specs.declared.location.Location.TheVariants.{SrcPos, Unknown};
ghost use Rattle.ir_locations.specs.declared.source.Source.TheVariants.{InMemory};
ghost use Rattle.printed_locations.specs.Printed.{IsTextOf};
ghost use Rattle.section_rereading.specs.Places.{place_text};
ghost use Rattle.ir_outlines.specs.Section.{Entry, Section};
ghost use Rattle.section_rereading.specs.Inverse.{behind_spaces, said_section, AreInverse, CanReadSection, IsUtf8Of};
ghost use Rattle.section_rereading.specs.Printed.{printed};
ghost use Rattle.text_locations.specs.Locations.{At, ReadsLocation};
ghost use Rattle.text_marks.specs.Marks.{begins_with_mark};
ghost use Rattle.text_outlines.specs.Sections.{ReadsSection};
ghost use Rattle.text_sections.specs.Texts.{section_tokens, IsSectionText};
ghost use Rattle.text_streams.specs.Positions.{left};
ghost use Rattle.text_writers.specs.declared.state.State.{State};

use text_streams::{ParseResult, StateStream};
use text_writers::{Printable, TextWriter};

/// Where a parser of attributes and what they are printed as are inverse to one another, whatever is read of a printed section
/// says what that section says, and the stream is right behind its last entry. No mark is behind the section, past white space.
pub fn printed_sections_are_read<
    S,
    A: Drop,
    L,
    X,
    Y,
    F: FnMut(&mut StateStream<'_, S>) -> ParseResult<A>,
>()
    ensures { (attribute_text : A → List ℕ) (location_text : L → List ℕ) (says : A → X) (says_place : Location A → Y)
        (prints_place : L → Y) (is_readable : A → Bool) (is_readable_place : L → Bool)
        → AreInverse F.FnMut attribute_text location_text says says_place prints_place is_readable is_readable_place
        → (e : ℕ × Entry A L) (es : Section A L) (read : Section A (Location A)) (v w : At F S) (rest : List ℕ)
        → CanReadSection is_readable is_readable_place (e ∷ es) → begins_with_mark (behind_spaces rest) ≡ false
        → 10 ∷ left v.1.position ≡ printed attribute_text location_text (section_tokens (e ∷ es)) rest
        → ReadsSection F.FnMut v read w
        → (said_section says says_place read ≡ said_section says prints_place (e ∷ es))
        × (left w.1.position ≡ 10 ∷ rest) }
{}

/// Where what is printed of attributes and locations is UTF-8 of such characters, so is what is printed of a section.
pub fn printed_sections_are_texts<C, W: TextWriter, A: Printable<C, W>, L: Printable<C, W>>()
    ensures text { (attribute_text : A → List ℕ) (location_text : L → List ℕ) (is_readable : A → Bool)
        (is_readable_place : L → Bool) (context : C) (state : State)
        → ((a : A) (bytes : List ℕ) → is_readable a ≡ true → A.prints a context state bytes
        → IsUtf8Of (attribute_text a) bytes)
        → ((l : L) (bytes : List ℕ) → is_readable_place l ≡ true → L.prints l context state bytes
        → IsUtf8Of (location_text l) bytes)
        → (s : Section A L) (bytes : List ℕ) → CanReadSection is_readable is_readable_place s
        → IsSectionText (λ a. A.prints a context state) (λ l. L.prints l context state) s bytes
        → IsUtf8Of (printed attribute_text location_text (section_tokens s) []) bytes }
    ensures rest { (attribute_text : A → List ℕ) (location_text : L → List ℕ) (s : Section A L) (rest : List ℕ)
        → printed attribute_text location_text (section_tokens s) [] ++ rest
        ≡ printed attribute_text location_text (section_tokens s) rest }
{}

/// A line and a column in a text without a name are read as they are printed, and so is an unknown place, with no digit
/// behind them.
pub fn plain_places_are_read<S, A: Drop, F: FnMut(&mut StateStream<'_, S>) -> ParseResult<A>>()
    ensures place { (v w : At F S) (l : Location A) (line column c : ℕ) (rest : List ℕ)
        → left v.1.position ≡ place_text line column ++ c ∷ rest → is_digit c 10 ≡ false → line < 2 ^ 64 → column < 2 ^ 64
        → ReadsLocation F.FnMut 64 v l w
        → (l ≡ SrcPos InMemory line column) × (left w.1.position ≡ c ∷ rest) }
    ensures unknown { (v w : At F S) (l : Location A) (rest : List ℕ) → left v.1.position ≡ 63 ∷ rest
        → ReadsLocation F.FnMut 64 v l w → (l ≡ Unknown) × (left w.1.position ≡ rest) }
{}

/// A line and a column in a text without a name are printed so.
pub fn plain_places_are_printed<C, W: TextWriter, A: Printable<C, W>>()
    ensures { (context : C) (state : State) (line column : ℕ) (bytes : List ℕ)
        → IsTextOf (λ a. A.prints a context state) (SrcPos InMemory line column) bytes
        → bytes ≡ place_text line column }
{}
