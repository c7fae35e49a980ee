//! The names of a text of a dialect.
ghost use Rattle.std.specs.Prelude.{◌≡◌, IfOk, MatchResult, false, length};
ghost use Rattle.ir_grammar.specs.Nesting.{OwnTokens};
ghost use Rattle.ir_scopes.specs.Scopes.{isolated_at, is_marked, IsResolved, IsScopeFault};
ghost use Rattle.text_dialect.specs.formats.Isolated.{is_isolated};

use crate::TextDialect;
use ir_grammar::grammar::Event;
use ir_names::OpInterface;
use ir_scopes::scopes::{Resolution, ScopeFault, look_up};
use ir_tokens::Numbers;
use std::alloc::{AllocError, Global};

/// A dialect has at most so many kinds of operations that can be read.
const KINDS: usize = 256;

/// For each kind of operations with a number, whether it is isolated from above.
fn isolated_kinds<D: TextDialect>(alloc: Global) -> Result<Vec<bool>, AllocError>
    ensures { IfOk result (λ v. is_marked v.items ≡ isolated_at D.kind_at (is_isolated D.op_has)) }
{
    let mut isolated = Vec::new(alloc);
    for number in 0..KINDS {
        let Some(kind) = D::op_kind_at(number) else {
            return Ok(isolated);
        };
        isolated.push(D::op_implements(kind, OpInterface::IsolatedFromAbove))?;
    }
    Ok(isolated)
}

/// What the names of a text mean, of which reading did this, or the first fault of its names.
///
/// `names` has a number for each token; two have the same where they are spelled alike. What they mean is written in
/// their places. The text may be unfinished: then the scopes that are still open have no fault yet.
pub fn resolve<D: TextDialect>(
    alloc: Global,
    names: Numbers,
    events: &[Event],
) -> Result<Resolution, ScopeFault>
    requires { OwnTokens false events.now }
    ensures resolved { MatchResult result
        (IsResolved (isolated_at D.kind_at (is_isolated D.op_has)) names events.now)
        (IsScopeFault (isolated_at D.kind_at (is_isolated D.op_has)) names events.now) }
    ensures many { IfOk result (λ r. length r.definitions ≡ length names) }
{
    let isolated = isolated_kinds::<D>(alloc)?;
    look_up(alloc, names, events, &isolated)
}
