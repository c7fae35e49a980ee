//! Regions of roots of which the kinds are isolated from above or not.
use ir_grammar::grammar::{Action, Event};
use ir_scopes::sites::sites_of;
use std::alloc::{AllocError, Global};

/// An operation without regions, as `k0`.
const BARE: &[Event] = &[
    Event::Took,
    Event::Did(Action::Operation(0)),
    Event::Did(Action::EndOperation),
];

/// An operation with two regions, as `k0 { } { }`.
const TWO: &[Event] = &[
    Event::Took,
    Event::Did(Action::Operation(0)),
    Event::Took,
    Event::Did(Action::BeginRegion),
    Event::Took,
    Event::Did(Action::EndRegion),
    Event::Took,
    Event::Did(Action::BeginRegion),
    Event::Took,
    Event::Did(Action::EndRegion),
    Event::Did(Action::EndOperation),
];

/// An operation with a result and a region in which another one has a region, as `a = k0 { ^b(): k1 { } }`.
const NESTED: &[Event] = &[
    Event::Took,
    Event::Did(Action::Result),
    Event::Took,
    Event::Took,
    Event::Did(Action::Operation(0)),
    Event::Took,
    Event::Did(Action::BeginRegion),
    Event::Took,
    Event::Took,
    Event::Did(Action::Label),
    Event::Took,
    Event::Took,
    Event::Took,
    Event::Did(Action::Header),
    Event::Took,
    Event::Did(Action::Operation(1)),
    Event::Took,
    Event::Did(Action::BeginRegion),
    Event::Took,
    Event::Did(Action::EndRegion),
    Event::Did(Action::EndOperation),
    Event::Did(Action::EndBlock),
    Event::Took,
    Event::Did(Action::EndRegion),
    Event::Did(Action::EndOperation),
];

/// What reading did, which kinds are isolated, and the token that opens the first region of a root that isn't.
const ROOTS: &[(&[Event], &[bool], Option<usize>)] = &[
    (&[], &[false], None),
    (BARE, &[false], None),
    (TWO, &[true], None),
    (TWO, &[false], Some(1)),
    (TWO, &[], Some(1)),
    (NESTED, &[true, false], None),
    (NESTED, &[false, true], Some(3)),
    (NESTED, &[false, false], Some(3)),
];

/// Where the first region opens of a root that isn't isolated.
fn root_opened(
    alloc: Global,
    events: &[Event],
    isolated: &[bool],
) -> Result<Option<usize>, AllocError> {
    Ok(sites_of(alloc, events, isolated)?.root_opened)
}

/// The regions of a root count, and not those below.
#[test]
fn regions_below_the_root_are_found(rt: HostRuntime) -> Result<(), AllocError> {
    let alloc = rt.alloc();
    for (events, isolated, opened) in ROOTS {
        assert!(rt; root_opened(alloc, events, isolated)? == *opened);
    }
    Ok(())
}
