//! What makes values.
ghost use Rattle.std.specs.Prelude.{◌≡◌, ◌++◌, ℕ, List, None, Some, Err, true, length, slice_get, option_map, IfOk};
ghost use Rattle.ir_names.specs.Tree.{node, no_tree};
ghost use Rattle.ir_formats.specs.Making.{kind_of};
ghost use Rattle.ir_format_checks.specs.Decided.{leaf_class};
ghost use Rattle.ir_print.specs.Formats.{Formats, kinds_of};
ghost use Rattle.ir_print.specs.Pieces.{Leaf, leaf, list, chosen, value_of_kind, ValueTree, Pieces, Values, refused_value, canonical_value};
ghost use Rattle.ir_print.specs.declared.format.LeafSort.{LeafSort};
ghost use Rattle.ir_print.specs.declared.format.ValueSort.{ValueSort};
ghost use Rattle.ir_tokens.specs.Tokens.{Spells};
ghost use Rattle.token_classes.specs.Classes.{is_lexeme_of};
ghost use Rattle.value_texts.specs.Shows.{ShowsAll, ShowsMembers};
ghost use Rattle.value_texts.specs.declared.maker.Refusal.TheVariants.{Refused};

use ir_formats::rules::KindText;
use ir_print::{LeafSort, ValueSort};
use std::alloc::{AllocError, Global};
use stream_tokens::Lexeme;

/// Why a value isn't made of its parts.
#[derive(Clone, Copy, Debug, PartialEq, Eq)]
pub enum Refusal {
    /// The part with this number, from 0 on in the order of the text, is refused. Of lists and choices what is in them counts.
    Refused(usize),
    Memory,
}

/// What makes the values of a language of their parts, beside a store that it may add to.
pub trait ValueMaker {
    /// What values are made in.
    type Store;

    /// A part of a value: a value, what one token says, a list or what one of several formats says.
    type Part: Drop;

    /// The formats of the language.
    ghost formats: { Formats };

    /// What is refused, and what is made of what was read.
    ghost values: { Values };

    /// What a token says that is a leaf of a sort.
    ghost leaf_in: { LeafSort → List ℕ → Leaf };

    /// A part shows this piece.
    ghost shows: { Self.Store → Self.Part → ValueTree → Type 0 };

    /// The second store holds all that the first held.
    ghost keeps: { Self.Store → Self.Store → Type 0 };

    /// The kind of a sort with this number, from 0 on.
    fn kind(sort: ValueSort, number: usize) -> Option<KindText>
        ensures { option_map kind_of result ≡ slice_get (kinds_of formats sort) number };

    /// What a token of this sort says.
    fn leaf(alloc: Global, sort: LeafSort, token: &Lexeme<'_>) -> Result<Self::Part, AllocError>
        requires class { is_lexeme_of token.now (leaf_class sort) ≡ true }
        requires spelled { (rest : List ℕ) × Spells (token.now.text.items ++ rest) 0 (length token.now.text.items) token.now.kind }
        ensures { (s : Self.Store) → IfOk result (λ part. shows s part
            (node (leaf (leaf_in sort token.now.text.items)) no_tree)) };

    /// A list with these members.
    fn list(members: Vec<Vec<Self::Part>>) -> Self::Part
        ensures { (s : Self.Store) (ts : Pieces) → ShowsMembers (shows s) members.items ts → shows s result (node list ts) };

    /// What the format with this number says.
    fn choice(number: usize, parts: Vec<Self::Part>) -> Self::Part
        ensures { (s : Self.Store) (ts : Pieces) → ShowsAll (shows s) parts.items ts
            → shows s result (node (chosen number) ts) };

    /// The value of these parts, or the first part that is refused.
    fn value(
        alloc: Global,
        store: &mut Self::Store,
        sort: ValueSort,
        number: usize,
        parts: &[Self::Part],
    ) -> Result<Self::Part, Refusal>
        ensures keeps { keeps store.old store.new }
        ensures made { (ts : Pieces) → ShowsAll (shows store.old) parts.now ts → IfOk result (λ part.
            (refused_value values sort number ts ≡ None)
            × shows store.new part (node (value_of_kind sort number) (canonical_value values sort number ts))) }
        ensures refused { (ts : Pieces) (i : ℕ) → ShowsAll (shows store.old) parts.now ts → result ≡ Err (Refused i)
            → refused_value values sort number ts ≡ Some i };

    ghost same: { (s : Self.Store) → keeps s s };

    ghost both: { (s t u : Self.Store) → keeps s t → keeps t u → keeps s u };

    ghost later: { (s t : Self.Store) → keeps s t → (part : Self.Part) (tree : ValueTree) → shows s part tree → shows t part tree };
}
