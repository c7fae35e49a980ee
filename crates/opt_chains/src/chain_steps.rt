//! Chains of numbers, walked from their firsts on.
ghost use Rattle.std.specs.Prelude.{◌≡◌, ◌<◌, ◌↔◌, ℕ, true, [], OnOk, IfOk, Some, length, slice_get};
ghost use Rattle.opt_chains.specs.ChainSteps.{AreLinks, AreSteps, AreWalked, IsFirst, IsWalked, behind};

use std::alloc::{AllocError, Global};

/// A step along a chain.
#[derive(Clone, Copy)]
pub(crate) struct ChainStep {
    /// The first of the chain.
    pub first: usize,
    /// The number from which it goes on.
    pub before: usize,
    /// The number to which it goes on.
    pub to: usize,
}

/// Walks along the chain of a number that nothing leads to, to its end.
fn walk(steps: &mut Vec<ChainStep>, next: &[Option<usize>], first: usize) -> Result<(), AllocError>
    requires links { AreLinks next.now }
    requires within { first < length next.now }
    requires first { IsFirst next.now first }
    requires steps { AreSteps next.now steps.old.items }
    requires fresh { behind steps.old.items first ≡ [] }
    ensures { OnOk result (IsWalked next.now first steps.old.items steps.new.items) }
{
    let mut at = first;
    while let Some(to) = next[at] {
        steps.push(ChainStep {
            first,
            before: at,
            to,
        })?;
        at = to;
    }
    Ok(())
}

/// The steps along all chains, each chain from its first to its end. The time is linear.
///
/// # Errors
/// There may be no memory.
pub(crate) fn chain_steps(
    alloc: Global,
    next: &[Option<usize>],
    firsts: &[bool],
) -> Result<Vec<ChainStep>, AllocError>
    requires links { AreLinks next.now }
    requires len { length firsts.now ≡ length next.now }
    requires firsts { (f : ℕ) → f < length next.now → slice_get firsts.now f ≡ Some true ↔ IsFirst next.now f }
    ensures { IfOk result (λ steps. AreWalked next.now steps.items) }
{
    let mut steps = Vec::new(alloc);
    for first in 0..next.len() {
        if firsts[first] {
            walk(&mut steps, next, first)?;
        }
    }
    Ok(steps)
}
