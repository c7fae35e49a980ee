//! The table by which texts are read, as a dialect gives it.
ghost use Rattle.std.specs.Prelude.{◌≡◌, IfOk, map};
ghost use Rattle.ir_formats.specs.Predicting.{plain_facts};
ghost use Rattle.ir_formats.specs.Given.{plain_part, dense, rule_at, is_in};

use ir_grammar::grammar::Facts;
use std::alloc::{AllocError, Global};

/// What a table knows of a part of the grammar. Column 0 is the end of the text, and column k + 1 a token of kind k.
#[derive(Clone, Copy)]
pub struct PartTable {
    /// Columns, each with the rule to take there.
    pub choices: &'static [(usize, usize)],
    /// The columns before which the part may stand.
    pub follows: &'static [usize],
    /// The rule to take where no token goes on with the part.
    pub closing: Option<usize>,
    /// More than the number of rules and actions that are taken for the part before a token is.
    pub cost: u32,
    /// A rule whose parts have lower ranks.
    pub shortest: usize,
    /// Less than this are the ranks of the parts in `shortest`.
    pub rank: u32,
}

/// The rule for a column.
fn rule_at(choices: &[(usize, usize)], column: usize) -> Option<usize>
    ensures { result ≡ rule_at choices.now column }
{
    for choice in choices {
        if choice.0 == column {
            return Some(choice.1);
        }
    }
    None
}

/// Whether the column is one of these.
fn is_in(columns: &[usize], column: usize) -> bool
    ensures { result ≡ is_in columns.now column }
{
    for known in columns {
        if *known == column {
            return true;
        }
    }
    false
}

fn choices(
    alloc: Global,
    part: &PartTable,
    columns: usize,
) -> Result<Vec<Option<usize>>, AllocError>
    ensures { IfOk result (λ v. v.items ≡ (dense columns (plain_part part.now)).choices) }
{
    let mut choices = Vec::new(alloc);
    for column in 0..columns {
        choices.push(rule_at(part.choices, column))?;
    }
    Ok(choices)
}

fn follows(alloc: Global, part: &PartTable, columns: usize) -> Result<Vec<bool>, AllocError>
    ensures { IfOk result (λ v. v.items ≡ (dense columns (plain_part part.now)).follows) }
{
    let mut follows = Vec::new(alloc);
    for column in 0..columns {
        follows.push(is_in(part.follows, column))?;
    }
    Ok(follows)
}

/// What the table knows of a part, with a place for each of so many columns.
fn facts(alloc: Global, part: &PartTable, columns: usize) -> Result<Facts, AllocError>
    ensures { IfOk result (λ f. plain_facts f ≡ dense columns (plain_part part.now)) }
{
    Ok(Facts {
        choices: choices(alloc, part, columns)?,
        follows: follows(alloc, part, columns)?,
        closing: part.closing,
        cost: part.cost,
        shortest: part.shortest,
        rank: part.rank,
    })
}

/// What the table knows of each part, with a place for each of so many columns.
pub fn facts_of(
    alloc: Global,
    table: &[PartTable],
    columns: usize,
) -> Result<Vec<Facts>, AllocError>
    ensures { IfOk result (λ v. map plain_facts v.items ≡ map (dense columns) (map plain_part table.now)) }
{
    let mut all = Vec::new(alloc);
    for part in table {
        all.push(facts(alloc, part, columns)?)?;
    }
    Ok(all)
}
