//! The check.
ghost use Rattle.std.specs.Prelude.{◌≡◌, ◌↔◌, IsOk};
ghost use Rattle.ir_print.specs.Formats.{step_of, steps_of};
ghost use Rattle.ir_format_checks.specs.Test.{is_operation, is_made, are_made};
ghost use Rattle.ir_format_checks.specs.Accepted.{IsAccepted};
ghost use Rattle.ir_format_checks.specs.Values.{classes_of, classes_behind};

use crate::classes::is_word;
use crate::decided::{Next, all_decided};
use ir_print::Directive;
use thiserror::Error;

/// What a format is of.
#[derive(Clone, Copy, Debug, PartialEq, Eq)]
pub enum FormatSort {
    Operation,
    Type,
    Attribute,
}

/// The format isn't one that a dialect may have.
#[derive(Clone, Copy, Debug, PartialEq, Eq, Error)]
#[error("the next token does not decide each step of this format")]
pub struct BadFormat;

impl FormatSort {
    fn is_operation(self) -> bool
        ensures { result ≡ is_operation self }
    {
        match self {
            FormatSort::Operation => true,
            FormatSort::Type | FormatSort::Attribute => false,
        }
    }

    /// What may come behind a format of this sort.
    fn behind(self) -> Next<'static>
        ensures { classes_of result ≡ classes_behind self }
    {
        if self.is_operation() {
            Next::BehindOperation
        } else {
            Next::Anything
        }
    }
}

/// Whether the literals in a directive are words, and its directives are of the sort.
#[cycle(made)]
fn is_made(sort: FormatSort, directive: Directive) -> bool
    ensures { result ≡ is_made sort (step_of directive) }
{
    match directive {
        Directive::Literal(text) => is_word(text.trim()),
        Directive::Attribute | Directive::Type => true,
        Directive::Name
        | Directive::Number
        | Directive::Digits
        | Directive::Width
        | Directive::Text
        | Directive::Mark => !sort.is_operation(),
        Directive::List(member, separator) => {
            !sort.is_operation() && is_word(separator.trim()) && are_made(sort, member)
        }
        Directive::Choice(alternatives) => {
            for format in alternatives {
                if !are_made(sort, *format) {
                    return false;
                }
            }
            !sort.is_operation()
        }
        Directive::Operands
        | Directive::Operand
        | Directive::Successor
        | Directive::Region
        | Directive::SymbolHeader => sort.is_operation(),
    }
}

/// The same of each directive of a format.
#[cycle(made)]
fn are_made(sort: FormatSort, format: &[Directive]) -> bool
    ensures { result ≡ are_made sort (steps_of format.now) }
{
    for directive in format {
        if !is_made(sort, *directive) {
            return false;
        }
    }
    true
}

/// Accepts a format of this sort exactly where the next token decides each step of reading by it.
///
/// A part that may be empty or repeat begins and goes on with no token that may come next: behind an operation `!`,
/// `;`, `^`, `}` or the end, and behind a type or an attribute anything. The formats of a choice begin with no common
/// token. Each literal is one sign or one name, spaces at its ends aside. Operands, edges, regions and names of symbols
/// are of operations alone; leaves, lists and choices of types and attributes.
pub fn check_format(sort: FormatSort, format: &[Directive]) -> Result<(), BadFormat>
    ensures { IsOk result ↔ IsAccepted sort (steps_of format.now) }
{
    if !are_made(sort, format) {
        return Err(BadFormat);
    }
    if !all_decided(format, &sort.behind()) {
        return Err(BadFormat);
    }
    Ok(())
}
