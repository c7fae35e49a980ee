//! Lists of names among attributes.
ghost use Rattle.std.specs.Prelude.{◌≡◌, ◌<◌, ◌≤◌, ℕ, List, None, Option, Some, IfErr, IfOk, OnErr, OnOk, insert, is_some, length, map, option_map, remove, slice_set};
ghost use Rattle.std.specs.Vec.{vec_len};
ghost use Rattle.ir_names.specs.Identifier.{text_of};
ghost use Rattle.ir_queries.specs.Naming.{name_at, names_under};
ghost use Rattle.builtin_ops.specs.Names.{HoldNames, LoseName, held_names, names_or_none, no_names};

use ir_names::{AttributeDict, Identifier};
use ir_types::DialectTables;
use std::alloc::{AllocError, Global};

/// A dialect that has attributes which hold names of results and arguments.
pub trait NameLists: DialectTables + Sized {
    /// An attribute that holds the names.
    fn from_names(names: Vec<Option<Identifier>>) -> Self::Attr
        ensures { Self.names_in result ≡ Some (map (option_map text_of) names.items) };

    /// The names that the attribute holds, or the attribute itself where it holds none.
    fn into_names(attr: Self::Attr) -> Result<Vec<Option<Identifier>>, Self::Attr>
        ensures names { IfOk result (λ names. Self.names_in attr ≡ Some (map (option_map text_of) names.items)) }
        ensures none { IfErr result (λ same. Self.names_in attr ≡ None) };
}

/// The same name, if there is one.
fn clone_name(name: &Option<Identifier>) -> Result<Option<Identifier>, AllocError>
    ensures { IfOk result (λ copy. option_map text_of copy ≡ option_map text_of name.now) }
{
    match name {
        Some(name) => Ok(Some(name.try_clone()?)),
        None => Ok(None),
    }
}

/// Names with the same texts.
fn clone_names(
    alloc: Global,
    names: &[Option<Identifier>],
) -> Result<Vec<Option<Identifier>>, AllocError>
    ensures { IfOk result (λ copy. map (option_map text_of) copy.items ≡ map (option_map text_of) names.now) }
{
    let mut copy = Vec::new(alloc);
    for name in names {
        copy.push(clone_name(name)?)?;
    }
    Ok(copy)
}

/// So many times no name.
fn blank_names(alloc: Global, count: usize) -> Result<Vec<Option<Identifier>>, AllocError>
    ensures { IfOk result (λ names. map (option_map text_of) names.items ≡ no_names count) }
{
    let mut names = Vec::new(alloc);
    for _i in 0..count {
        names.push(None)?;
    }
    Ok(names)
}

/// The names that the attribute under the key for names holds, if it holds names.
fn held<D: DialectTables>(attributes: &AttributeDict<D>) -> Option<&[Option<Identifier>]>
    ensures { option_map (λ names. map (option_map text_of) names.now) result
        ≡ held_names D.names D.names_in attributes.now }
{
    match attributes.get(D::names_key()) {
        Some(attr) => D::names_of(attr),
        None => None,
    }
}

/// How many names are held; where none are, so many.
pub(crate) fn count_names<D: DialectTables>(attributes: &AttributeDict<D>, count: usize) -> usize
    ensures all { result ≡ length (names_or_none D.names D.names_in attributes.now count) }
    ensures held { (names : List (Option (List ℕ))) → held_names D.names D.names_in attributes.now ≡ Some names
        → result ≡ length names }
{
    match held(attributes) {
        Some(names) => names.len(),
        None => count,
    }
}

/// A copy of the names that are held; where none are, so many times no name.
fn copied_or_blank<D: DialectTables>(
    alloc: Global,
    attributes: &AttributeDict<D>,
    count: usize,
) -> Result<Vec<Option<Identifier>>, AllocError>
    ensures { IfOk result (λ names. map (option_map text_of) names.items
        ≡ names_or_none D.names D.names_in attributes.now count) }
{
    match held(attributes) {
        Some(names) => clone_names(alloc, names),
        None => blank_names(alloc, count),
    }
}

/// Puts an attribute that holds the names under the key for names.
fn hold_names<D: NameLists>(
    alloc: Global,
    attributes: &mut AttributeDict<D>,
    names: Vec<Option<Identifier>>,
) -> Result<(), AllocError>
    ensures hold { OnOk result (HoldNames D.names D.names_in attributes.old attributes.new
        (map (option_map text_of) names.items)) }
    ensures err { OnErr result (attributes.new ≡ attributes.old) }
{
    let key = Identifier::new(alloc, D::names_key())?;
    attributes.set(key, D::from_names(names))?;
    Ok(())
}

/// The names with another one at an index.
fn with_name(
    mut names: Vec<Option<Identifier>>,
    i: usize,
    name: Option<Identifier>,
) -> Vec<Option<Identifier>>
    requires { i < length (map (option_map text_of) names.items) }
    ensures { map (option_map text_of) result.items
        ≡ slice_set (map (option_map text_of) names.items) i (option_map text_of name) }
{
    names[i] = name;
    names
}

/// The names with one more at an index.
fn with_one_more(
    mut names: Vec<Option<Identifier>>,
    i: usize,
    name: Option<Identifier>,
) -> Result<Vec<Option<Identifier>>, AllocError>
    requires { i ≤ length (map (option_map text_of) names.items) }
    ensures { IfOk result (λ more. map (option_map text_of) more.items
        ≡ insert (map (option_map text_of) names.items) i (option_map text_of name)) }
{
    names.insert(i, name)?;
    Ok(names)
}

/// The names without the one at an index.
fn without_name(mut names: Vec<Option<Identifier>>, i: usize) -> Vec<Option<Identifier>>
    requires { i < length (map (option_map text_of) names.items) }
    ensures { map (option_map text_of) result.items ≡ remove (map (option_map text_of) names.items) i }
{
    names.remove(i);
    names
}

/// Puts a name in the place of the one at an index. Where no names are held, so many are before, none of which was given.
pub(crate) fn set_name<D: NameLists>(
    alloc: Global,
    attributes: &mut AttributeDict<D>,
    count: usize,
    i: usize,
    name: Option<Identifier>,
) -> Result<(), AllocError>
    requires { i < length (names_or_none D.names D.names_in attributes.old count) }
    ensures hold { OnOk result (HoldNames D.names D.names_in attributes.old attributes.new
        (slice_set (names_or_none D.names D.names_in attributes.old count) i (option_map text_of name))) }
    ensures err { OnErr result (attributes.new ≡ attributes.old) }
{
    let names = copied_or_blank(alloc, attributes, count)?;
    hold_names(alloc, attributes, with_name(names, i, name))
}

/// Puts one name more at an index, before the one that was there. Where no names are held, so many are before, none of
/// which was given.
pub(crate) fn insert_name<D: NameLists>(
    alloc: Global,
    attributes: &mut AttributeDict<D>,
    count: usize,
    i: usize,
    name: Option<Identifier>,
) -> Result<(), AllocError>
    requires { i ≤ length (names_or_none D.names D.names_in attributes.old count) }
    ensures hold { OnOk result (HoldNames D.names D.names_in attributes.old attributes.new
        (insert (names_or_none D.names D.names_in attributes.old count) i (option_map text_of name))) }
    ensures err { OnErr result (attributes.new ≡ attributes.old) }
{
    let names = copied_or_blank(alloc, attributes, count)?;
    hold_names(alloc, attributes, with_one_more(names, i, name)?)
}

/// Takes the name at an index out of an attribute that holds names.
fn lose_name_of<D: NameLists>(alloc: Global, attr: &mut D::Attr, i: usize)
    requires { (names : List (Option (List ℕ))) → D.names_in attr.old ≡ Some names → i < length names }
    ensures { (names : List (Option (List ℕ))) → D.names_in attr.old ≡ Some names
        → D.names_in attr.new ≡ Some (remove names i) }
{
    let held = std::mem::replace(attr, D::from_names(Vec::new(alloc)));
    match D::into_names(held) {
        Ok(names) => *attr = D::from_names(without_name(names, i)),
        Err(other) => *attr = other,
    }
}

/// Takes the name at an index out, where names are held. No memory is asked for.
pub(crate) fn lose_name<D: NameLists>(alloc: Global, attributes: &mut AttributeDict<D>, i: usize)
    requires { (names : List (Option (List ℕ))) → held_names D.names D.names_in attributes.old ≡ Some names
        → i < length names }
    ensures { LoseName D.names D.names_in attributes.old attributes.new i }
{
    if held(attributes).is_none() {
        return;
    }
    if let Some(attr) = attributes.get_mut(D::names_key()) {
        lose_name_of::<D>(alloc, attr, i);
    }
}

/// The name at an index among those that are held, if there is one.
pub(crate) fn name_in<D: DialectTables>(
    attributes: &AttributeDict<D>,
    i: usize,
) -> Option<&Identifier>
    ensures { option_map (λ name. text_of name.now) result
        ≡ name_at (names_under D.names D.names_in attributes.now) i }
{
    match held(attributes) {
        Some(names) => match names.get(i) {
            Some(name) => name.as_ref(),
            None => None,
        },
        None => None,
    }
}
