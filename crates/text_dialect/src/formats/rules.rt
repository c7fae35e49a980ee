//! The grammar of a dialect's texts, made from its formats.
ghost use Rattle.std.specs.Prelude.{◌≡◌, IfOk, map, slice_get, option_map};
ghost use Rattle.ir_formats.specs.Making.{kind_of, formats_of};
ghost use Rattle.ir_formats.specs.Ordered.{OrdersTexts};
ghost use Rattle.ir_formats.specs.Rules.{texts, words_of, classes_of, kinds_of, rules_of, plain_rules, plain_classes};
ghost use Rattle.ir_grammar.specs.Table.{CanRead};

use crate::TextDialect;
use crate::formats::given::ReadDialect;
use ir_formats::rules::{
    DialectGrammar, KindText, KindTexts, Sort, grammar_of_kinds, table_of_kinds,
};
use ir_grammar::grammar::Facts;
use std::alloc::{AllocError, Global};

/// A dialect has at most so many kinds of operations, types or attributes that can be read.
const KINDS: usize = 256;

/// The kind of a sort with this number, from 0 on.
fn kind_at<D: TextDialect>(sort: Sort, number: usize) -> Option<KindText>
    ensures { option_map kind_of result ≡ slice_get (kinds_of D.formats sort) number }
{
    match sort {
        Sort::Operation => {
            let kind = D::op_kind_at(number)?;
            Some(KindText {
                id: D::op_name(kind),
                format: D::op_format(kind),
            })
        }
        Sort::Type => {
            let kind = D::type_kind_at(number)?;
            Some(KindText {
                id: D::type_name(kind),
                format: D::type_format(kind),
            })
        }
        Sort::Attribute => {
            let kind = D::attr_kind_at(number)?;
            Some(KindText {
                id: D::attr_name(kind),
                format: D::attr_format(kind),
            })
        }
    }
}

/// The kinds of a sort that can be read, each at its number.
fn kinds_of<D: TextDialect>(alloc: Global, sort: Sort) -> Result<Vec<KindText>, AllocError>
    ensures { IfOk result (λ v. map kind_of v.items ≡ kinds_of D.formats sort) }
{
    let mut kinds = Vec::new(alloc);
    for number in 0..KINDS {
        let Some(kind) = kind_at::<D>(sort, number) else {
            return Ok(kinds);
        };
        kinds.push(kind)?;
    }
    Ok(kinds)
}

/// What the texts of a dialect's kinds are made of.
fn kind_texts<D: TextDialect>(alloc: Global) -> Result<KindTexts, AllocError>
    ensures { IfOk result (λ k. formats_of k ≡ D.formats) }
{
    let operations = kinds_of::<D>(alloc, Sort::Operation)?;
    let types = kinds_of::<D>(alloc, Sort::Type)?;
    let attributes = kinds_of::<D>(alloc, Sort::Attribute)?;
    Ok(KindTexts {
        operations,
        types,
        attributes,
    })
}

/// The table of the grammar that a dialect's formats make, worked out of its rules: what a
/// [`ReadDialect`](crate::ReadDialect) gives. If the next token doesn't decide each step, none fits.
pub fn table_of<D: TextDialect>(alloc: Global) -> Result<Vec<Facts>, AllocError> {
    let kinds = kind_texts::<D>(alloc)?;
    table_of_kinds(alloc, &kinds)
}

/// The grammar of a dialect's texts.
pub fn grammar_of<D: ReadDialect>(alloc: Global) -> Result<DialectGrammar, AllocError>
    ensures words { IfOk result (λ g. texts g.words.items ≡ words_of D.formats) }
    ensures rules { IfOk result (λ g. plain_rules g.grammar.rules.items ≡ rules_of D.formats) }
    ensures signs { IfOk result (λ g. plain_classes g.grammar.signs.items ≡ classes_of (words_of D.formats)) }
    ensures can_read { IfOk result (λ g. CanRead g.grammar 0) }
    ensures ordered { IfOk result (λ g. OrdersTexts g.grammar) }
{
    let kinds = kind_texts::<D>(alloc)?;
    grammar_of_kinds(alloc, &kinds, D::table())
}
