//! The table by which the texts of a dialect are read, as the dialect gives it.
ghost use Rattle.std.specs.Prelude.{◌≡◌, map, true};
ghost use Rattle.ir_formats.specs.Given.{grammar_value, plain_part};
ghost use Rattle.ir_formats.specs.Ordered.{PartPositions, is_ordered};
ghost use Rattle.ir_formats.specs.Predicting.{fits};
ghost use Rattle.ir_formats.specs.Rules.{rules_of};

use crate::TextDialect;
use ir_formats::PartTable;

/// A dialect whose texts can be read: the next token decides each step.
pub trait ReadDialect: TextDialect {
    /// Where each part of the grammar may stand, and where it leads to.
    ghost leads: { PartPositions };

    /// The table of the grammar that the dialect's formats make, as [`table_of`](crate::table_of) writes it.
    fn table() -> &'static [PartTable]
        ensures { fits (grammar_value Self.formats (map plain_part result.now)) ≡ true };

    ghost ordered: { is_ordered leads (rules_of Self.formats) ≡ true };
}
