//! The text of a module, which ends with a line feed.
ghost use Rattle.std.specs.Prelude.{◌≡◌, ◌∷◌, ◌++◌, [], ℕ, List, IsSome, IfOk};
ghost use Rattle.std.specs.String.{string_bytes};
ghost use Rattle.ir_forest.specs.Closed.{IsClosedTree, IsNumbered};
ghost use Rattle.ir_forest.specs.Language.{Language};
ghost use Rattle.ir_formats.specs.Rules.{IsGrammarOf};
ghost use Rattle.ir_grammar.specs.declared.grammar.Grammar.{Grammar};
ghost use Rattle.ir_print.specs.Layout.{layout, IsShallow};
ghost use Rattle.ir_print.specs.Pieces.{Entity};
ghost use Rattle.ir_program.specs.Program.{operation_at};
ghost use Rattle.ir_rereading.specs.Printable.{CanPrint};
ghost use Rattle.text_printing.specs.Again.{IsReadAgain, IsTextOfModule};
ghost use Rattle.text_dialect.specs.Printed.{PrintsAs};
ghost use Rattle.text_dialect.specs.Seen.{seen};
ghost use Rattle.text_dialect.specs.Standing.{StandsForTexts};
ghost use Rattle.text_rereading.specs.Rereading.{Numbering, Named};

use crate::operations::print_root;
use ir_context::Context;
use ir_program::{Operation, Ptr};
use std::alloc::{AllocError, Global};
use text_dialect::TextDialect;
use text_rereading::know_small_numbers;
use text_rereading::laws::{
    know_places, printed_modules_are_read_again, printed_trees_are_layouts,
};

/// The text of an operation with all that stands in it, and a line feed behind it.
///
/// Where the operation stands for a closed tree of texts, the text is one of the tree, and is read again as the same
/// tree but for labels, in each language of the dialect that can be printed.
///
/// # Errors
/// Without memory.
pub fn print_module<D: TextDialect>(
    alloc: Global,
    ctx: &Context<D>,
    root: Ptr<Operation>,
) -> Result<String, AllocError>
    requires { IsSome (operation_at ctx.now.program root) }
    ensures text { (printed : Entity (List ℕ)) → PrintsAs D.says (seen ctx.now) root printed → IsShallow 64 printed →
        IfOk result (λ text. string_bytes text ≡ layout D.formats printed ++ 10 ∷ []) }
    ensures layout { (l : Language) → l.formats ≡ D.formats → (numbering : Numbering) (tree : Entity ℕ)
        → StandsForTexts D.says (Named numbering) (seen ctx.now) root tree → IsClosedTree l tree
        → IfOk result (λ text. IsTextOfModule l tree (string_bytes text)) }
    ensures again { (l : Language) → CanPrint l → l.formats ≡ D.formats → (g : Grammar) → IsGrammarOf l.formats g
        → (numbering : Numbering) (tree : Entity ℕ)
        → StandsForTexts D.says (Named numbering) (seen ctx.now) root tree → IsClosedTree l tree → IsNumbered tree
        → IfOk result (λ text. IsReadAgain l tree (string_bytes text)) }
{
    know_places(ctx);
    know_small_numbers(ctx, root);
    printed_trees_are_layouts::<D>();
    printed_modules_are_read_again::<D>();
    let mut text = print_root(alloc, ctx, root)?;
    text.push_str("\n")?;
    Ok(text)
}
