//! The rule on attributes, of what stands beside the items of a text.
use crate::items::place_of;
use ir_grammar::grammar::Event;
use ir_names::Place;
use irkit_refusals::Refusal;
use kit_checks::Rule;
use kit_ops::keys;
use outline_values::OutlinedValue;
use std::alloc::{AllocError, Global};

/// Whether an item may have an attribute under a key that isn't its own.
pub(crate) fn is_known(key: &str, value: &OutlinedValue) -> bool {
    match value {
        OutlinedValue::Note(_) => key == keys::NOTE,
        OutlinedValue::Origin(_) => key == keys::ORIGIN,
        OutlinedValue::Names(_) => key == keys::GIVEN_NAMES,
        OutlinedValue::Other => false,
    }
}

/// Whether a place comes before another one in a module.
fn is_before(place: &[usize], other: &[usize]) -> bool {
    for (index, number) in place.iter().enumerate() {
        match other.get(index) {
            Some(there) => {
                if number != there {
                    return number < there;
                }
            }
            None => return false,
        }
    }
    place.len() < other.len()
}

/// The refusal of a module in which the operation before which so many others begin has, or a block of it has, what may stand beside
/// none.
pub(crate) fn unknown_attribute(
    alloc: Global,
    events: &[Event],
    operation: usize,
) -> Result<Refusal, AllocError> {
    let children = place_of(alloc, events, operation)?;
    Ok(Refusal::Rule(Rule::AttributesAreKnown, Place { children }))
}

/// Whether a rule that is broken at a place is named before that on attributes, which is broken at another one.
fn is_named(rule: Rule, place: &Place, other: &[usize]) -> bool {
    rule.number() < Rule::AttributesAreKnown.number()
        || (rule.number() == Rule::AttributesAreKnown.number()
            && !is_before(other, place.children.as_slice()))
}

/// The refusal of a module that breaks a rule first at a place, and the rule on attributes at the operation with this number, if it is
/// broken there.
pub(crate) fn first_rule(
    alloc: Global,
    events: &[Event],
    operation: Option<usize>,
    rule: Rule,
    place: Place,
) -> Result<Refusal, AllocError> {
    let Some(operation) = operation else {
        return Ok(Refusal::Rule(rule, place));
    };
    let children = place_of(alloc, events, operation)?;
    if is_named(rule, &place, children.as_slice()) {
        return Ok(Refusal::Rule(rule, place));
    }
    Ok(Refusal::Rule(Rule::AttributesAreKnown, Place { children }))
}
