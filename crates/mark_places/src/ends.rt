//! Where operations and headers of blocks end.
ghost use Rattle.std.specs.Prelude.{◌≡◌, ◌++◌, [], IfOk, OnOk};
ghost use Rattle.mark_places.specs.Items.{end_at, ends_of, with_end};

use ir_grammar::{Action, Event};
use std::alloc::{AllocError, Global};

/// The number of tokens behind which the item ends that an action ends, if it ends one, where so many tokens are taken.
fn end_at(taken: usize, action: Action) -> Option<usize>
    ensures { result ≡ end_at taken action }
{
    match action {
        Action::EndOperation => Some(taken),
        Action::Header => Some(taken.saturating_sub(1)),
        _ => None,
    }
}

/// Puts an end behind the others, if there is one.
fn push_end(ends: &mut Vec<usize>, end: Option<usize>) -> Result<(), AllocError>
    ensures { OnOk result (ends.new.items ≡ ends.old.items ++ with_end end []) }
{
    match end {
        Some(end) => Ok(ends.push(end)?),
        None => Ok(()),
    }
}

/// The numbers of tokens behind which the operations and the headers of blocks end that reading gave these events for, in
/// the order of the events.
///
/// An operation ends behind all tokens that are taken at its end. A header is done at its `:`, and ends before that.
///
/// # Errors
/// There may be no memory for the numbers.
pub fn item_ends(alloc: Global, events: &[Event]) -> Result<Vec<usize>, AllocError>
    ensures { IfOk result (λ ends. ends.items ≡ ends_of events.now) }
{
    let mut ends = Vec::new(alloc);
    let mut taken = 0;
    for event in events {
        match *event {
            Event::Took => taken += 1,
            Event::Did(action) => push_end(&mut ends, end_at(taken, action))?,
        }
    }
    Ok(ends)
}
