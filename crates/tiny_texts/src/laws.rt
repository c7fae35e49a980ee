//! Laws of the language of the dialect.
ghost use Rattle.std.specs.Prelude.{◌≡◌};
ghost use Rattle.ir_rereading.specs.Printable.{CanPrint};
ghost use Rattle.ir_rereading.specs.Texts.{language_of};
ghost use Rattle.text_dialect.specs.formats.Isolated.{is_isolated};
ghost use Rattle.tiny_texts.specs.Language.{tiny_language};

use crate::dialect::TinyText;
use ir_types::DialectTables;
use text_dialect::TextDialect;

/// The language is that of the dialect.
pub fn tiny_speaks()
    ensures { language_of ⟦<TinyText as TextDialect>⟧.formats ⟦<TinyText as TextDialect>⟧.kind_at
        (is_isolated ⟦<TinyText as DialectTables>⟧.op_has) ⟦<TinyText as TextDialect>⟧.values ≡ tiny_language }
{}

/// What is printed in the language is read as it was printed.
pub fn tiny_can_print()
    ensures { CanPrint tiny_language }
{}
