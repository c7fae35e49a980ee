//! Locations and their sources.
use ir_locations::{Location, Source};
use std::alloc::{AllocError, Global};
use std::test::Fail;

/// A place in a file.
fn in_file(alloc: Global, name: &str, line: u64) -> Result<Location<u8>, AllocError> {
    Ok(Location::SrcPos {
        source: Source::File(String::from_str(alloc, name)?),
        line,
        column: 1,
    })
}

/// Locations of each sort: a place in `a`, a call in `b` from `a`, and the unknown one.
fn nested(alloc: Global) -> Result<Location<u8>, AllocError> {
    let first = in_file(alloc, "a", 1)?;
    let callee = Box::new(alloc, in_file(alloc, "b", 2)?)?;
    let caller = Box::new(alloc, in_file(alloc, "a", 3)?)?;
    let call = Box::new(alloc, Location::CallSite { callee, caller })?;
    let name = String::from_str(alloc, "loop")?;
    let named = Location::Named { name, child: call };
    Ok(Location::Fused {
        metadata: Some(7),
        locations: vec![in alloc; first, named, Location::Unknown]?,
    })
}

#[test]
fn sources_are_listed_once(rt: HostRuntime) -> Result<(), Fail> {
    let location = nested(rt.alloc())?;
    let sources = location.sources(rt.alloc())?;
    let first = Source::File(String::from_str(rt.alloc(), "a")?);
    let second = Source::File(String::from_str(rt.alloc(), "b")?);
    assert_eq!(rt; sources.as_slice(), [&first, &second].as_slice());
    assert_eq!(rt; location.source(), None);
    Ok(())
}

#[test]
fn one_source_is_the_source(rt: HostRuntime) -> Result<(), Fail> {
    let child = Box::new(rt.alloc(), in_file(rt.alloc(), "a", 1)?)?;
    let caller = Box::new(rt.alloc(), in_file(rt.alloc(), "a", 2)?)?;
    let call = Location::CallSite {
        callee: child,
        caller,
    };
    let file = Source::File(String::from_str(rt.alloc(), "a")?);
    assert_eq!(rt; call.source(), Some(&file));
    assert!(rt; Location::<u8>::Unknown.is_unknown());
    assert_eq!(rt; Location::<u8>::Unknown.source(), None);
    Ok(())
}

#[test]
fn copies_are_equal(rt: HostRuntime) -> Result<(), Fail> {
    let location = nested(rt.alloc())?;
    let copy = location.try_clone(rt.alloc(), &|number: &u8| Ok(*number))?;
    assert_eq!(rt; copy, location);
    assert_ne!(rt; copy, Location::Unknown);
    Ok(())
}
