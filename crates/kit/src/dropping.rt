//! What is left of sizes and of names, where operands or arguments go.
ghost use Rattle.std.specs.Prelude.{◌≡◌, ◌+◌, ◌<◌, ◌≤◌, ◌++◌, ◌∷◌, [], None, if◌then◌else◌};
ghost use Rattle.std.specs.Prelude.{take, drop as list_drop, slice_index, slice_index_or};
ghost use Rattle.std.specs.Vec.{vec_len, vec_ptr, vec_capacity, with_item};
ghost use Rattle.opt_dialect.specs.Masks.{marked};
ghost use Rattle.opt_trees.specs.Dialect.{drop};
ghost use Rattle.kit.specs.Dropped.{kept, less_sizes, less_names};
ghost use Rattle.kit_ops.specs.Keys.{segment_sizes, given_names};
ghost use Rattle.kit.specs.Meaning.{changed_at, without_operands, without_names};

use crate::dialect::Kit;
use ir_names::{AttributeDict, Identifier};
use kit_ops::{KitAttr, keys};

/// Whether an index is marked. Those past the end aren't.
fn is_marked(marks: &[bool], index: usize) -> bool
    ensures { result ≡ marked marks.now index }
{
    index < marks.len() && marks[index]
}

/// Makes the sizes of a conditional branch's segments less by what goes of each. Only the marks are gone through.
fn lessen(sizes: &mut Vec<u32>, marks: &[bool])
    ensures { sizes.new ≡ less_sizes (marked marks.now) sizes.old }
{
    let first = size_at(sizes, 1);
    let second = size_at(sizes, 2);
    put_size(sizes, 1, unmarked(marks, 1, first));
    put_size(sizes, 2, unmarked(marks, 1 + first as usize, second));
}

/// Makes sizes of segments less by what goes of each.
fn lessen_sizes(attr: &mut KitAttr, marks: &[bool])
    ensures { attr.new ≡ without_operands (marked marks.now) attr.old }
{
    if let KitAttr::SegmentSizes(sizes) = attr {
        lessen(sizes, marks);
    }
}

/// Makes the sizes of an operation's segments less by the operands that are marked.
pub(crate) fn lessen_segments(attributes: &mut AttributeDict<Kit>, marks: &[bool])
    ensures { attributes.new ≡ changed_at attributes.old segment_sizes (without_operands (marked marks.now)) }
{
    if let Some(attr) = attributes.get_mut(keys::SEGMENT_SIZES) {
        lessen_sizes(attr, marks);
    }
}

/// The size at an index, or 0.
fn size_at(sizes: &Vec<u32>, index: usize) -> u32
    ensures { result ≡ slice_index sizes.now.items index }
{
    if index < sizes.len() { sizes[index] } else { 0 }
}

/// Puts a size at an index, if there is one.
fn put_size(sizes: &mut Vec<u32>, index: usize, size: u32)
    ensures { sizes.new ≡ with_item sizes.old index size }
{
    if index < sizes.len() {
        sizes[index] = size;
    }
}

/// One, if an index is marked.
fn one_if_marked(marks: &[bool], index: usize) -> u32
    ensures { result ≡ (if marked marks.now index then 1 else 0) }
{
    if is_marked(marks, index) { 1 } else { 0 }
}

/// How many of so many indices from the first one on aren't marked. Only the marks are gone through.
fn unmarked(marks: &[bool], start: usize, count: u32) -> u32
    ensures { result ≡ kept (marked marks.now) start count }
{
    let within = (count as usize).min(marks.len().saturating_sub(start));
    let mut gone: u32 = 0;
    for i in 0..within {
        gone += one_if_marked(marks, start + i);
    }
    count - gone
}

/// Moves the name at an index to an earlier one, or leaves it there.
fn move_to(names: &mut Vec<Option<Identifier>>, to: usize, from: usize)
    requires order { to ≤ from }
    requires within { from < vec_len names.old }
    ensures front { take (to + 1) names.new.items
        ≡ take to names.old.items ++ slice_index_or names.old.items from None ∷ [] }
    ensures back { list_drop (from + 1) names.new.items ≡ list_drop (from + 1) names.old.items }
    ensures len { vec_len names.new ≡ vec_len names.old }
    ensures ptr { vec_ptr names.new ≡ vec_ptr names.old }
    ensures capacity { vec_capacity names.new ≡ vec_capacity names.old }
{
    let name = names[from].take();
    names[to] = name;
}

/// Takes the last name out.
fn lose_last(names: &mut Vec<Option<Identifier>>)
    requires { 0 < vec_len names.old }
    ensures items { names.new.items ≡ take (vec_len names.new) names.old.items }
    ensures len { vec_len names.new + 1 ≡ vec_len names.old }
    ensures ptr { vec_ptr names.new ≡ vec_ptr names.old }
    ensures capacity { vec_capacity names.new ≡ vec_capacity names.old }
{
    names.take_last();
}

/// Leaves so many names.
fn shorten(names: &mut Vec<Option<Identifier>>, count: usize)
    requires { count ≤ vec_len names.old }
    ensures items { names.new.items ≡ take count names.old.items }
    ensures ptr { vec_ptr names.new ≡ vec_ptr names.old }
    ensures capacity { vec_capacity names.new ≡ vec_capacity names.old }
{
    while count < names.len() {
        lose_last(names);
    }
}

/// Moves the names that aren't marked to the front, in order, and answers how many they are.
fn gather(names: &mut Vec<Option<Identifier>>, marks: &[bool]) -> usize
    ensures front { take result names.new.items ≡ drop (marked marks.now) names.old.items }
    ensures within { result ≤ vec_len names.new }
    ensures ptr { vec_ptr names.new ≡ vec_ptr names.old }
    ensures capacity { vec_capacity names.new ≡ vec_capacity names.old }
{
    let mut count = 0;
    for i in 0..names.len() {
        if !is_marked(marks, i) {
            move_to(names, count, i);
            count += 1;
        }
    }
    count
}

/// Takes the marked names out. The others stay in order, where they are in memory. The time is that of the names.
fn lose(names: &mut Vec<Option<Identifier>>, marks: &[bool])
    ensures { names.new ≡ less_names (marked marks.now) names.old }
{
    let count = gather(names, marks);
    shorten(names, count);
}

/// Takes the marked names out, if the attribute holds names.
fn lose_given(attr: &mut KitAttr, marks: &[bool])
    ensures { attr.new ≡ without_names (marked marks.now) attr.old }
{
    if let KitAttr::GivenNames(names) = attr {
        lose(names, marks);
    }
}

/// Takes the names of the arguments that are marked out of a block's attributes.
pub(crate) fn lose_names(attributes: &mut AttributeDict<Kit>, marks: &[bool])
    ensures { attributes.new ≡ changed_at attributes.old given_names (without_names (marked marks.now)) }
{
    if let Some(attr) = attributes.get_mut(keys::GIVEN_NAMES) {
        lose_given(attr, marks);
    }
}
