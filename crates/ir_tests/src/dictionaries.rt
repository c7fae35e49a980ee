//! Tests of dictionaries of attributes.
use crate::asserting::same;
use ir_names::{AttributeDict, Identifier, IdentifierError};
use ir_scripts::tiny::{Tiny, TinyAttr};
use std::alloc::{AllocError, Global};
use std::hash::{FoldHasher, Hash, Hasher};
use std::process::Abort;
use std::test::Fail;

/// Lets a dictionary go. It stands in a function of its own so that it is proved once.
fn finish(_dict: AttributeDict<Tiny>) {}

/// The test of the same name, in a new dictionary.
fn holds_attributes_in(
    rt: &impl Abort,
    alloc: Global,
    dict: &mut AttributeDict<Tiny>,
) -> Result<(), Fail> {
    assert!(rt; dict.is_empty());
    let old = dict.set(Identifier::try_new(alloc, "b")?, TinyAttr::Number(3))?;
    same(rt, old, None);
    let old = dict.set(Identifier::try_new(alloc, "a")?, TinyAttr::Number(4))?;
    same(rt, old, None);
    let old = dict.set(Identifier::try_new(alloc, "b")?, TinyAttr::Number(5))?;
    same(rt, old, Some(TinyAttr::Number(3)));
    same(rt, dict.len(), 2);
    same(rt, dict.get("b"), Some(&TinyAttr::Number(5)));
    same(rt, dict.get("c"), None);
    same(rt, dict.entry(1), Some(("a", &TinyAttr::Number(4))));
    same(rt, dict.entry(2), None);
    Ok(())
}

#[test]
fn holds_attributes(rt: HostRuntime) -> Result<(), Fail> {
    let mut dict: AttributeDict<Tiny> = AttributeDict::new(rt.alloc());
    let outcome = holds_attributes_in(&rt, rt.alloc(), &mut dict);
    finish(dict);
    outcome
}

/// A dictionary of two numbers, under these names in this order.
fn pair(
    alloc: Global,
    first: (&str, u64),
    second: (&str, u64),
) -> Result<AttributeDict<Tiny>, IdentifierError> {
    let mut dict = AttributeDict::new(alloc);
    dict.set(
        Identifier::try_new(alloc, first.0)?,
        TinyAttr::Number(first.1),
    )?;
    dict.set(
        Identifier::try_new(alloc, second.0)?,
        TinyAttr::Number(second.1),
    )?;
    Ok(dict)
}

/// Asserts that the two attributes of a dictionary are taken out of it.
fn assert_removed(rt: &impl Abort, dict: &mut AttributeDict<Tiny>) {
    same(rt, dict.remove("b"), Some(TinyAttr::Number(3)));
    same(rt, dict.remove("b"), None);
    same(rt, dict.get("a"), Some(&TinyAttr::Number(4)));
    same(rt, dict.remove("a"), Some(TinyAttr::Number(4)));
    assert!(rt; dict.is_empty());
}

#[test]
fn removes_attributes(rt: HostRuntime) -> Result<(), Fail> {
    let mut dict = pair(rt.alloc(), ("b", 3), ("a", 4))?;
    assert_removed(&rt, &mut dict);
    finish(dict);
    Ok(())
}

/// Gives a dictionary other attributes under its two names.
fn change(rt: &impl Abort, dict: &mut AttributeDict<Tiny>) {
    if let Some(attr) = dict.get_mut("a") {
        *attr = TinyAttr::Number(9);
    }
    if let Some(attr) = dict.get_mut("b") {
        *attr = TinyAttr::Number(8);
    }
    assert!(rt; dict.get_mut("c").is_none());
}

/// Asserts that a dictionary has these two attributes, in this order, and no other.
fn assert_pair(
    rt: &impl Abort,
    dict: &AttributeDict<Tiny>,
    first: (&str, u64),
    second: (&str, u64),
) {
    let mut left = dict.iter();
    assert_eq!(rt; left.next(), Some((first.0, &TinyAttr::Number(first.1))));
    assert_eq!(rt; left.next(), Some((second.0, &TinyAttr::Number(second.1))));
    assert_eq!(rt; left.next(), None);
}

#[test]
fn lends_attributes(rt: HostRuntime) -> Result<(), Fail> {
    let mut dict = pair(rt.alloc(), ("b", 3), ("a", 4))?;
    change(&rt, &mut dict);
    assert_pair(&rt, &dict, ("b", 8), ("a", 9));
    finish(dict);
    Ok(())
}

/// Whether dictionaries of two numbers each are equal.
fn are_equal(
    alloc: Global,
    one: [(&str, u64); 2],
    other: [(&str, u64); 2],
) -> Result<bool, IdentifierError> {
    let one = pair(alloc, one[0], one[1])?;
    let other = pair(alloc, other[0], other[1])?;
    Ok(one == other)
}

/// Whether a dictionary of two numbers is equal to one without any.
fn is_empty_one(alloc: Global, one: [(&str, u64); 2]) -> Result<bool, IdentifierError> {
    let one = pair(alloc, one[0], one[1])?;
    Ok(one == AttributeDict::new(alloc))
}

#[test]
fn compares_dictionaries(rt: HostRuntime) -> Result<(), Fail> {
    let one = [("b", 3), ("a_1", 4)];
    for (other, equal) in [
        ([("a_1", 4), ("b", 3)], true),
        ([("b", 3), ("a_1", 5)], false),
        ([("b", 3), ("a", 4)], false),
    ] {
        same(&rt, are_equal(rt.alloc(), one, other)?, equal);
    }
    assert!(rt; !is_empty_one(rt.alloc(), one)?);
    Ok(())
}

/// What a dictionary hashes to.
fn hash_of(dict: &AttributeDict<Tiny>) -> u64 {
    let mut hasher = FoldHasher::default();
    dict.hash(&mut hasher);
    hasher.finish()
}

/// What a dictionary of two numbers hashes to.
fn hash_of_pair(alloc: Global, one: [(&str, u64); 2]) -> Result<u64, IdentifierError> {
    Ok(hash_of(&pair(alloc, one[0], one[1])?))
}

#[test]
fn hashes_dictionaries(rt: HostRuntime) -> Result<(), Fail> {
    let hash = hash_of_pair(rt.alloc(), [("b", 3), ("a_1", 4)])?;
    for (other, equal) in [
        ([("a_1", 4), ("b", 3)], true),
        ([("b", 3), ("a_1", 5)], false),
        ([("b", 4), ("a_1", 3)], false),
    ] {
        same(&rt, hash_of_pair(rt.alloc(), other)? == hash, equal);
    }
    assert_ne!(rt; hash_of(&AttributeDict::new(rt.alloc())), hash);
    Ok(())
}

/// Asserts that a copy of a dictionary of two numbers is that dictionary.
fn assert_copied(
    rt: &impl Abort,
    alloc: Global,
    dict: &AttributeDict<Tiny>,
) -> Result<(), AllocError> {
    let copy = dict.clone(alloc)?;
    assert_pair(rt, &copy, ("b", 3), ("a", 4));
    assert!(rt; copy == *dict);
    finish(copy);
    Ok(())
}

#[test]
fn copies_dictionaries(rt: HostRuntime) -> Result<(), Fail> {
    let dict = pair(rt.alloc(), ("b", 3), ("a", 4))?;
    let outcome = assert_copied(&rt, rt.alloc(), &dict);
    finish(dict);
    outcome?;
    Ok(())
}

#[test]
fn orders_names(rt: HostRuntime) -> Result<(), Fail> {
    let dict = pair(rt.alloc(), ("b", 3), ("a_1", 4))?;
    let names = dict.keys_in_order(rt.alloc())?;
    assert_eq!(rt; names.as_slice(), ["a_1", "b"].as_slice());
    Ok(())
}
