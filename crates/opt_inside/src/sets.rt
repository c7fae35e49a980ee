//! Sets of distinct items.
ghost use Rattle.std.specs.Prelude.{◌≡◌, true, IfOk};
ghost use Rattle.ir_trees.specs.Searched.{AreDistinct};

use indexmap::IndexSet;
use std::alloc::{AllocError, Global};
use std::hash::Hash;

/// The set of these items, in their order.
///
/// # Errors
/// No memory.
pub(crate) fn set_of<T: Copy + Eq + Hash + Drop>(
    alloc: Global,
    items: &[T],
) -> Result<IndexSet<T>, AllocError>
    requires same { (a b : T) → T.eq a b ≡ true → a ≡ b }
    requires once { AreDistinct items.now }
    ensures { IfOk result (λ set. set.keys ≡ items.now) }
{
    let mut set = IndexSet::with_capacity(alloc, items.len())?;
    for item in items {
        set.insert(*item)?;
    }
    Ok(set)
}
