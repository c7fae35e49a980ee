//! Kinds by their ids.
ghost use Rattle.std.specs.Prelude.{◌≡◌, true, Some, None, slice_get, IfSome};
ghost use Rattle.ir_print.specs.Formats.{Kind, kinds_of, steps_of, is_small};
ghost use Rattle.value_texts.specs.Kinds.{IsKindNamed, IsNoKind};

use crate::maker::ValueMaker;
use ir_print::{Directive, ValueSort};
use stream_tokens::Lexeme;
use token_classes::{is_dotted, is_spelled};

/// A language has at most so many kinds of types or attributes.
const KINDS: usize = 256;

/// The number of the kind of a sort whose texts begin with the token, and what follows the token.
pub(crate) fn kind_named<M: ValueMaker>(
    sort: ValueSort,
    token: &Lexeme<'_>,
) -> Option<(usize, &'static [Directive])>
    ensures found { IfSome result (λ found. IsKindNamed (kinds_of M.formats sort) token.now found.0 (steps_of found.1.now)) }
    ensures absent { result ≡ None → is_small M.formats ≡ true → IsNoKind (kinds_of M.formats sort) token.now }
{
    if !is_dotted(token) {
        return None;
    }
    for number in 0..KINDS {
        let kind = M::kind(sort, number)?;
        if is_spelled(token, kind.id) {
            return Some((number, kind.format));
        }
    }
    None
}
