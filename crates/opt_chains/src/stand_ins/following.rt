//! What is forwarded to arguments, followed to its end by numbers.
ghost use Rattle.std.specs.Prelude.{◌≡◌, ◌<◌, ℕ, IfOk, Some, length, slice_get};
ghost use Rattle.ir_trees.specs.Searched.{AreDistinct};
ghost use Rattle.opt_chains.specs.stand_ins.Tables.{AreFollowed, AreNumbersOf, IsEnd, IsFollowed, IsNumberOf};

use crate::StandIn;
use crate::stand_ins::forwarding::value_number;
use ir_program::Value;
use opt_inside::Inside;
use std::alloc::{AllocError, Global};

/// The number of a value, if there is one and it is inside.
fn number_if(inside: &Inside, value: Option<Value>) -> Option<usize>
    requires { AreDistinct inside.now.values.keys }
    ensures { IsNumberOf inside.now.values.keys value result }
{
    match value {
        Some(value) => value_number(inside, value),
        None => None,
    }
}

/// The numbers of these values. The time is linear.
///
/// # Errors
/// There may be no memory.
pub(crate) fn numbers_of_given(
    alloc: Global,
    inside: &Inside,
    given: &[Option<Value>],
) -> Result<Vec<Option<usize>>, AllocError>
    requires { AreDistinct inside.now.values.keys }
    ensures { IfOk result (λ next. AreNumbersOf inside.now.values.keys given.now next.items) }
{
    let mut next = Vec::new(alloc);
    for value in given {
        next.push(number_if(inside, *value))?;
    }
    Ok(next)
}

/// What is given to the value with this number, or the value itself where nothing is.
fn end_at(values: &[Value], given: &[Option<Value>], number: usize) -> Value
    requires len { length given.now ≡ length values.now }
    requires within { number < length given.now }
    ensures { IsEnd values.now given.now number result }
{
    match given[number] {
        Some(value) => value,
        None => values[number],
    }
}

/// What stands for the value with this number in the end.
fn stand_in(values: &[Value], given: &[Option<Value>], finals: &[usize], number: usize) -> StandIn
    requires len { length given.now ≡ length values.now }
    requires finals { length finals.now ≡ length given.now }
    requires ends { (n end : ℕ) → slice_get finals.now n ≡ Some end → end < length given.now }
    requires within { number < length given.now }
    ensures { IsFollowed values.now given.now finals.now number result }
{
    StandIn {
        argument: values[number],
        value: end_at(values, given, finals[number]),
    }
}

/// What stands in the end for each value to which something is given. The time is linear.
///
/// # Errors
/// There may be no memory.
pub(crate) fn stand_ins_at_ends(
    alloc: Global,
    values: &[Value],
    given: &[Option<Value>],
    finals: &[usize],
) -> Result<Vec<StandIn>, AllocError>
    requires len { length given.now ≡ length values.now }
    requires finals { length finals.now ≡ length given.now }
    requires ends { (n end : ℕ) → slice_get finals.now n ≡ Some end → end < length given.now }
    ensures { IfOk result (λ found. AreFollowed values.now given.now finals.now found.items) }
{
    let mut found = Vec::new(alloc);
    for (number, value) in given.iter().enumerate() {
        if value.is_some() {
            found.push(stand_in(values, given, finals, number))?;
        }
    }
    Ok(found)
}
