//! The formats of the dialect, and the table that is made of them.
use ir_format_checks::{FormatSort, check_format};
use ir_grammar::grammar::Facts;
use std::alloc::{AllocError, Global};
use text_dialect::{TextDialect, grammar_of, table_of};
use tiny_texts::{Single, TinyAttr, TinyText};

/// Whether there is a kind of operations with this number, and its format is accepted.
fn is_accepted(number: usize) -> bool {
    match TinyText::op_kind_at(number) {
        Some(kind) => check_format(FormatSort::Operation, TinyText::op_format(kind)).is_ok(),
        None => false,
    }
}

/// Whether two rows of a table are the same.
fn is_same(left: &Facts, right: &Facts) -> bool {
    left.choices == right.choices
        && left.follows == right.follows
        && left.closing == right.closing
        && left.cost == right.cost
        && left.shortest == right.shortest
        && left.rank == right.rank
}

/// Whether the table that the dialect gives is the one that is worked out of its formats.
fn is_current(alloc: Global) -> Result<bool, AllocError> {
    let given = grammar_of::<TinyText>(alloc)?.grammar.parts;
    let worked_out = table_of::<TinyText>(alloc)?;
    Ok(
        given.len() == worked_out.len()
            && given
                .iter()
                .zip(worked_out.iter())
                .all(|(left, right)| is_same(left, right)),
    )
}

/// The next token decides each step of reading the dialect's texts, and the dialect's table says how.
#[test]
fn formats_decide_each_step(rt: HostRuntime) -> Result<(), AllocError> {
    for number in 0..8usize {
        assert!(rt; is_accepted(number), "{number}");
    }
    assert!(rt; check_format(FormatSort::Type, TinyText::type_format(Single)).is_ok());
    for kind in [TinyAttr::Num, TinyAttr::Ref] {
        assert!(rt; check_format(FormatSort::Attribute, TinyText::attr_format(kind)).is_ok());
    }
    assert!(rt; is_current(rt.alloc())?);
    Ok(())
}
