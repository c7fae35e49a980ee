//! What a format begins with.
ghost use Rattle.std.specs.Prelude.{◌≡◌};
ghost use Rattle.ir_print.specs.Formats.{step_of, steps_of};
ghost use Rattle.ir_format_checks.specs.Decided.{may_be_empty, all_may_be_empty, begins, all_begin};
ghost use Rattle.token_classes.specs.Classes.{is_lexeme_of};

use crate::classes::{is_dotted, is_given, is_leaf};
use ir_print::{Directive, LeafSort};
use stream_tokens::Lexeme;

/// Whether the directive may have an empty text.
#[cycle(empty)]
fn may_be_empty(directive: Directive) -> bool
    ensures { result ≡ may_be_empty (step_of directive) }
{
    match directive {
        Directive::Operands | Directive::List(_, _) => true,
        Directive::Choice(alternatives) => {
            for format in alternatives {
                if all_may_be_empty(*format) {
                    return true;
                }
            }
            false
        }
        _ => false,
    }
}

/// Whether the format may have an empty text.
#[cycle(empty)]
pub fn all_may_be_empty(format: &[Directive]) -> bool
    ensures { result ≡ all_may_be_empty (steps_of format.now) }
{
    for directive in format {
        if !may_be_empty(*directive) {
            return false;
        }
    }
    true
}

/// Whether a text of the directive may begin with the token.
#[cycle(begins)]
pub fn begins(token: &Lexeme<'_>, directive: Directive) -> bool
    ensures { result ≡ begins (is_lexeme_of token.now) (step_of directive) }
{
    match directive {
        Directive::Literal(text) => is_given(token, text.trim()),
        Directive::Operands | Directive::Operand | Directive::Name => is_leaf(
            token,
            LeafSort::Name,
        ),
        Directive::Successor => is_given(token, "^"),
        Directive::Attribute | Directive::Type => is_dotted(token),
        Directive::Region => is_given(token, "{"),
        Directive::SymbolHeader => is_given(token, "@"),
        Directive::Number => is_leaf(token, LeafSort::Number),
        Directive::Digits => is_leaf(token, LeafSort::Digits),
        Directive::Width => is_leaf(token, LeafSort::Width),
        Directive::Text => is_leaf(token, LeafSort::Text),
        Directive::Mark => is_leaf(token, LeafSort::Mark),
        Directive::List(member, _) => all_begin(token, member),
        Directive::Choice(alternatives) => {
            for format in alternatives {
                if all_begin(token, *format) {
                    return true;
                }
            }
            false
        }
    }
}

/// Whether a text of the format may begin with the token.
#[cycle(begins)]
pub fn all_begin(token: &Lexeme<'_>, format: &[Directive]) -> bool
    ensures { result ≡ all_begin (is_lexeme_of token.now) (steps_of format.now) }
{
    for directive in format {
        if begins(token, *directive) {
            return true;
        }
        if !may_be_empty(*directive) {
            return false;
        }
    }
    false
}
