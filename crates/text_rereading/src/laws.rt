//! Laws of operations of contexts that stand for texts: their trees are closed, and what is printed is read again.
ghost use Rattle.std.specs.Prelude.{◌≡◌, ◌<◌, ◌^◌, ◌++◌, ◌∷◌, [], ℕ, List, IsUtf8, chars, length};
ghost use Rattle.ir_forest.specs.Closed.{IsClosedTree, IsNumbered, IsSameModule};
ghost use Rattle.ir_forest.specs.Language.{Language};
ghost use Rattle.ir_formats.specs.Rules.{IsGrammarOf};
ghost use Rattle.ir_grammar.specs.declared.grammar.Grammar.{Grammar};
ghost use Rattle.ir_print.specs.Pieces.{Entity};
ghost use Rattle.ir_program.specs.declared.handles.Operation.{Operation};
ghost use Rattle.ir_program.specs.declared.handles.Ptr.{Ptr};
ghost use Rattle.ir_rereading.specs.Printable.{CanPrint, IsLayoutOf};
ghost use Rattle.ir_rereading.specs.Texts.{Says};
ghost use Rattle.text_dialect.specs.Seen.{Seen, seen};
ghost use Rattle.text_dialect.specs.Standing.{StandsForTexts};
ghost use Rattle.text_rereading.specs.Places.{HasOwnPlaces, AreSmallInside};
ghost use Rattle.text_rereading.specs.Rereading.{Numbering, Named, IsPrinted, IsPrintedAs};

use ir_context::Context;
use ir_types::DialectTables;
use text_dialect::TextDialect;

/// Tells what holds of every context: each thing is in one place at most and in nothing that is inside it, and no two
/// values have one number. It does nothing.
pub fn know_places<D: DialectTables>(ctx: &Context<D>)
    ensures { HasOwnPlaces (seen ctx.now) }
{
    let program = ctx.program();
    program.know_lists();
    program.know_values();
}

/// The tree of a text, for which an operation of a context stands, is closed, and its definitions and its blocks are
/// numbered in the order of the text.
pub fn trees_of_texts_are_closed<D: TextDialect>()
    ensures { (l : Language) → CanPrint l → l.formats ≡ D.formats → l.values ≡ D.values
        → (numbering : Numbering) (s : Seen D.OpKind D.Attr D.TypeKey) (root : Ptr Operation)
        → (cs : List ℕ) (tree : Entity ℕ)
        → Says l cs tree → StandsForTexts D.says (Named numbering) s root tree → IsClosedTree l tree × IsNumbered tree }
{}

/// An operation that stands for a closed tree is printed, where its numbers fit in 64 bits; and what is printed of it
/// is a layout of the tree.
pub fn printed_trees_are_layouts<D: TextDialect>()
    ensures printed { (l : Language) → l.formats ≡ D.formats → (s : Seen D.OpKind D.Attr D.TypeKey) → HasOwnPlaces s
        → (numbering : Numbering) (root : Ptr Operation) (tree : Entity ℕ)
        → StandsForTexts D.says (Named numbering) s root tree → AreSmallInside s root → IsClosedTree l tree
        → IsPrintedAs l D.says s root tree }
    ensures layouts { (l : Language) → l.formats ≡ D.formats → (s : Seen D.OpKind D.Attr D.TypeKey) → HasOwnPlaces s
        → (numbering : Numbering) (root : Ptr Operation) (tree : Entity ℕ) (text : List ℕ)
        → StandsForTexts D.says (Named numbering) s root tree → AreSmallInside s root → IsClosedTree l tree
        → IsPrinted D.formats D.says s root text → IsLayoutOf l.formats tree text }
{}

/// What is printed of such an operation, with a line feed behind it, is UTF-8, and is read again, as the same tree but
/// for its labels.
pub fn printed_modules_are_read_again<D: TextDialect>()
    ensures bytes { (l : Language) → CanPrint l → l.formats ≡ D.formats → (s : Seen D.OpKind D.Attr D.TypeKey)
        → HasOwnPlaces s → (numbering : Numbering) (root : Ptr Operation) (tree : Entity ℕ) (text : List ℕ)
        → StandsForTexts D.says (Named numbering) s root tree → AreSmallInside s root → IsClosedTree l tree
        → IsPrinted D.formats D.says s root text
        → IsUtf8 (text ++ 10 ∷ []) }
    ensures read { (l : Language) → CanPrint l → l.formats ≡ D.formats → (g : Grammar) → IsGrammarOf l.formats g
        → (s : Seen D.OpKind D.Attr D.TypeKey) → HasOwnPlaces s
        → (numbering : Numbering) (root : Ptr Operation) (tree : Entity ℕ) (text : List ℕ)
        → StandsForTexts D.says (Named numbering) s root tree → AreSmallInside s root → IsClosedTree l tree
        → IsNumbered tree
        → IsPrinted D.formats D.says s root text → length (text ++ 10 ∷ []) < 2 ^ 63
        → (again : Entity ℕ) × Says l (chars (text ++ 10 ∷ [])) again × IsSameModule again tree }
{}
