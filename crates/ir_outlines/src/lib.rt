//! Marks of operations and blocks, and the section behind a root that says what they lead to, whatever attributes and locations are.
//!
//! Definitions, for printing and for reading, and the law that ties the two.
#![tactic(auto)]

ghost use Rattle.std.specs.Prelude.{◌≡◌, ◌<◌, List, Some, ℕ, length, map, true};
ghost use Rattle.ir_outlines.specs.Marks.{Beside, marks_of};
ghost use Rattle.ir_outlines.specs.Section.{Sharing, besides_in, indices_of, section_of, IsSameExactly};
ghost use Rattle.std.specs.List.{range_with_len};

/// The marks with which items are numbered lead back, by the section that is printed behind them, to what stands beside each; and the
/// section's indices are the numbers from 0 on, so none comes twice.
pub fn numbered_marks_resolve<A, L>()
    ensures resolve { (d : Sharing A) → IsSameExactly d → (bs : List (Beside A L))
        → besides_in (section_of d bs) (marks_of bs) ≡ Some bs }
    ensures indices { (d : Sharing A) → (bs : List (Beside A L))
        → indices_of (section_of d bs) ≡ range_with_len 0 (length (section_of d bs)) }
{}
