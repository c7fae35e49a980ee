//! Laws of the language of `kit`.
ghost use Rattle.std.specs.Prelude.{◌≡◌};
ghost use Rattle.ir_rereading.specs.Printable.{CanPrint};
ghost use Rattle.ir_rereading.specs.Texts.{language_of};
ghost use Rattle.kit_language.specs.Language.{kit_language};
ghost use Rattle.text_dialect.specs.formats.Isolated.{is_isolated};

use ir_types::DialectTables;
use kit::Kit;
use text_dialect::TextDialect;

/// The language of `kit` is that of the dialect `Kit`.
pub fn kit_speaks()
    ensures { language_of ⟦<Kit as TextDialect>⟧.formats ⟦<Kit as TextDialect>⟧.kind_at
        (is_isolated ⟦<Kit as DialectTables>⟧.op_has) ⟦<Kit as TextDialect>⟧.values ≡ kit_language }
{}

/// What is printed in the language of `kit` is read as it was printed.
pub fn kit_can_print()
    ensures { CanPrint kit_language }
{}
