//! The items of marks.
ghost use Rattle.std.specs.Prelude.{◌≡◌, ◌<◌, ◌^◌, map, slice_index, slice_index_or, EachIndex, IfOk, None};
ghost use Rattle.ir_grammar.specs.Reading.{tooks};
ghost use Rattle.mark_places.specs.Items.{ends_of, item_of, AreItemsOf};

use crate::ends::item_ends;
use ir_grammar::Event;
use std::alloc::{AllocError, Global};
use text_marking::Mark;

/// The number of tokens that are taken.
fn tokens_taken(events: &[Event]) -> usize
    ensures taken { result ≡ tooks events.now }
    ensures few { result < 2 ^ 63 }
{
    let mut taken = 0;
    for event in events {
        match *event {
            Event::Took => taken += 1,
            Event::Did(_) => (),
        }
    }
    taken
}

/// For each number of tokens below `len` the first item that ends behind so many.
fn first_items(alloc: Global, ends: &[usize], len: usize) -> Result<Vec<Option<usize>>, AllocError>
    requires { EachIndex ends.now (λ k. slice_index ends.now k < len) }
    ensures { IfOk result (λ table. AreItemsOf ends.now table.items) }
{
    let mut table = vec![in alloc; None; len]?;
    let mut item = ends.len();
    // Backwards, so that of two items that end at one place the first stays.
    while item > 0 {
        item -= 1;
        table[ends[item]] = Some(item);
    }
    Ok(table)
}

/// The item at a number of tokens, if one ends there.
fn item_at(table: &[Option<usize>], tokens: usize) -> Option<usize>
    ensures { result ≡ slice_index_or table.now tokens None }
{
    match table.get(tokens) {
        Some(item) => *item,
        None => None,
    }
}

/// For each mark the item at its number of tokens.
fn items_at(
    alloc: Global,
    table: &[Option<usize>],
    marks: &[Mark],
) -> Result<Vec<Option<usize>>, AllocError>
    ensures { IfOk result (λ items. items.items ≡ map (λ m. slice_index_or table.now m.tokens_before None) marks.now) }
{
    let mut items = Vec::new(alloc);
    for mark in marks {
        items.push(item_at(table, mark.tokens_before))?;
    }
    Ok(items)
}

/// For each mark the number of the item that it belongs to, if there is one: the first, of those of [`item_ends`], that ends
/// behind as many tokens as are before the mark.
///
/// The time is linear in the events and the marks.
///
/// # Errors
/// There may be no memory for the numbers, or for a table with one for each token.
pub fn marked_items(
    alloc: Global,
    events: &[Event],
    marks: &[Mark],
) -> Result<Vec<Option<usize>>, AllocError>
    ensures { IfOk result (λ items. items.items ≡ map (λ m. item_of (ends_of events.now) m.tokens_before) marks.now) }
{
    let ends = item_ends(alloc, events)?;
    let table = first_items(alloc, &ends, tokens_taken(events) + 1)?;
    items_at(alloc, &table, marks)
}
