//! Numbers that nothing leads to.
ghost use Rattle.std.specs.Prelude.{◌≡◌, ◌<◌, ◌↔◌, ℕ, true, IfOk, Some, length, slice_get};
ghost use Rattle.opt_chains.specs.ChainSteps.{IsFirst};

use std::alloc::{AllocError, Global};

/// So many marks.
fn all_marked(alloc: Global, count: usize) -> Result<Vec<bool>, AllocError>
    ensures len { IfOk result (λ marks. length marks.items ≡ count) }
    ensures marked { IfOk result (λ marks. (k : ℕ) → k < count → slice_get marks.items k ≡ Some true) }
{
    let mut marks = Vec::new(alloc);
    for _i in 0..count {
        marks.push(true)?;
    }
    Ok(marks)
}

/// Takes the mark of the number away that a number leads to, if it leads to one.
fn unmark(marks: &mut Vec<bool>, to: Option<usize>)
    requires { (n : ℕ) → to ≡ Some n → n < length marks.old.items }
    ensures len { length marks.new.items ≡ length marks.old.items }
    ensures unmarked { (k : ℕ) → k < length marks.old.items
        → slice_get marks.new.items k ≡ Some true ↔ ((slice_get marks.old.items k ≡ Some true) × (to ≡ Some k → ⊥)) }
{
    if let Some(number) = to {
        marks[number] = false;
    }
}

/// Marks the numbers that nothing leads to. The time is linear.
///
/// # Errors
/// There may be no memory.
pub(crate) fn firsts(alloc: Global, next: &[Option<usize>]) -> Result<Vec<bool>, AllocError>
    requires within { (a b : ℕ) → slice_get next.now a ≡ Some (Some b) → b < length next.now }
    ensures len { IfOk result (λ firsts. length firsts.items ≡ length next.now) }
    ensures firsts { IfOk result (λ firsts. (f : ℕ) → f < length next.now
        → slice_get firsts.items f ≡ Some true ↔ IsFirst next.now f) }
{
    let mut marks = all_marked(alloc, next.len())?;
    for to in next {
        unmark(&mut marks, *to);
    }
    Ok(marks)
}
