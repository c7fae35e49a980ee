//! What dictionaries hold and compare by.
ghost use Rattle.std.specs.Prelude.{◌≡◌, IsSome, None, Some};
ghost use Rattle.builtin_data.specs.Dicts.{SetsMember, member_at};

use builtin_data::{BoolAttr, DictAttr};
use ir_names::ident;
use std::alloc::{AllocError, Global};
use std::test::Fail;

/// A dictionary of `a` and `b`.
fn forwards(alloc: Global) -> Result<DictAttr<BoolAttr>, AllocError> {
    let mut dict = DictAttr::new(alloc);
    dict.insert(ident(alloc, "a")?, BoolAttr::new(true))?;
    dict.insert(ident(alloc, "b")?, BoolAttr::new(false))?;
    Ok(dict)
}

/// The same, put in the other way round.
fn backwards(alloc: Global) -> Result<DictAttr<BoolAttr>, AllocError> {
    let mut dict = DictAttr::new(alloc);
    dict.insert(ident(alloc, "b")?, BoolAttr::new(false))?;
    dict.insert(ident(alloc, "a")?, BoolAttr::new(true))?;
    Ok(dict)
}

#[test]
fn order_of_insertion_does_not_matter(rt: HostRuntime) -> Result<(), Fail> {
    let one = forwards(rt.alloc())?;
    let other = backwards(rt.alloc())?;
    assert!(rt; one == other);
    Ok(())
}

#[test]
fn what_was_there_is_answered(rt: HostRuntime) -> Result<(), Fail> {
    let mut dict = forwards(rt.alloc())?;
    let old = dict.insert(ident(rt.alloc(), "a")?, BoolAttr::new(false))?;
    assert!(rt; old == Some(BoolAttr::new(true)));
    assert!(rt; dict.remove("a") == Some(BoolAttr::new(false)));
    assert!(rt; dict.lookup("a").is_none());
    assert!(rt; dict.lookup("b").is_some());
    Ok(())
}

/// Puts an attribute in the place of the one under a key, if there is one.
fn replace<A: Drop>(dict: &mut DictAttr<A>, key: &str, attr: A)
    ensures set { IsSome (member_at dict.old key.now) → SetsMember dict.old dict.new key.now (Some attr) }
    ensures same { member_at dict.old key.now ≡ None → dict.new ≡ dict.old }
{
    if let Some(held) = dict.lookup_mut(key) {
        *held = attr;
    }
}

#[test]
fn an_attribute_is_changed_in_its_place(rt: HostRuntime) -> Result<(), Fail> {
    let mut dict = forwards(rt.alloc())?;
    replace(&mut dict, "b", BoolAttr::new(true));
    replace(&mut dict, "c", BoolAttr::new(false));
    assert!(rt; dict.lookup("a") == Some(&BoolAttr::new(true)));
    assert!(rt; dict.lookup("b") == Some(&BoolAttr::new(true)));
    assert!(rt; dict.lookup("c").is_none());
    Ok(())
}

#[test]
fn nothing_is_lent_under_another_key(rt: HostRuntime) -> Result<(), Fail> {
    let mut dict = forwards(rt.alloc())?;
    assert!(rt; dict.lookup_mut("c").is_none());
    assert!(rt; dict == forwards(rt.alloc())?);
    assert!(rt;
        DictAttr::<BoolAttr>::new(rt.alloc())
            .lookup_mut("a")
            .is_none()
    );
    Ok(())
}
