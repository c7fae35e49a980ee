//! A language of which only the size of what is read is kept.
ghost use Rattle.ir_print.specs.Pieces.{Pieces};
ghost use Rattle.value_texts.specs.Readable.{IsReadable};
ghost use Rattle.value_texts.specs.Shows.{ShowsAll, ShowsMembers};
ghost use Rattle.value_texts_tests.specs.Any.{shows_any};
ghost use Rattle.value_texts_tests.specs.Forms as forms;

use ir_formats::rules::KindText;
use ir_print::{Directive, LeafSort, ValueSort};
use std::alloc::{AllocError, Global};
use stream_tokens::Lexeme;
use value_texts::{Refusal, ValueMaker};

/// How many parts a value has, how many members a list, or the number of a choice.
#[derive(Debug, PartialEq, Eq, Drop)]
pub struct Size {
    pub number: usize,
}

/// The language.
pub struct Sizes;

/// `t.int i8`
const INTEGER: &[Directive] = &[Directive::Width];

/// `t.list [t.int i8, t.list []]`
const LIST: &[Directive] = &[
    Directive::Literal("["),
    Directive::List(&[Directive::Type], ", "),
    Directive::Literal("]"),
];

/// `t.of t.int i8`
const OF: &[Directive] = &[Directive::Type];

/// `t.pair -5: "text"`, or a name or a mark in the place of the text
const PAIR: &[Directive] = &[
    Directive::Number,
    Directive::Literal(": "),
    Directive::Choice(&[&[Directive::Name], &[Directive::Text], &[Directive::Mark]]),
];

impl ValueMaker for Sizes {
    type Store = ();

    type Part = Size;

    ghost formats = { forms.formats };

    ghost values = { forms.values };

    ghost leaf_in = { forms.leaf_in };

    ghost shows = { λ _. shows_any };

    ghost keeps = { λ _ _. Unit {0} };

    fn kind(sort: ValueSort, number: usize) -> Option<KindText> {
        match (sort, number) {
            (ValueSort::Type, 0) => Some(KindText {
                id: "t.int",
                format: INTEGER,
            }),
            (ValueSort::Type, 1) => Some(KindText {
                id: "t.list",
                format: LIST,
            }),
            (ValueSort::Attribute, 0) => Some(KindText {
                id: "t.of",
                format: OF,
            }),
            (ValueSort::Attribute, 1) => Some(KindText {
                id: "t.pair",
                format: PAIR,
            }),
            _ => None,
        }
    }

    fn leaf(_alloc: Global, _sort: LeafSort, token: &Lexeme<'_>) -> Result<Size, AllocError> {
        Ok(Size {
            number: token.text.len(),
        })
    }

    fn list(members: Vec<Vec<Size>>) -> Size
        ensures { (s : Unit {0}) (ts : Pieces) → ShowsMembers shows_any members.items ts → Unit {0} }
    {
        Size {
            number: members.len(),
        }
    }

    fn choice(number: usize, parts: Vec<Size>) -> Size
        ensures { (s : Unit {0}) (ts : Pieces) → ShowsAll shows_any parts.items ts → Unit {0} }
    {
        drop(parts);
        Size { number }
    }

    fn value(
        _alloc: Global,
        _store: &mut (),
        _sort: ValueSort,
        _number: usize,
        parts: &[Size],
    ) -> Result<Size, Refusal> {
        // The number of the last part tells more than how many there are.
        match parts.last() {
            Some(last) => Ok(Size {
                number: last.number,
            }),
            None => Ok(Size { number: 0 }),
        }
    }

    ghost same = { λ _. tt };

    ghost both = { λ _ _ _ _ _. tt };

    ghost later = { λ _ _ _ _ _ _. tt };
}

/// Lemma: the next token decides each step of reading the language, so that its refusals are exact.
pub fn the_language_is_readable()
    ensures { IsReadable forms.formats }
{}
