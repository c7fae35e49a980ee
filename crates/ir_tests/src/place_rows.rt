//! Rows of places that grow where memory is ample.
use crate::asserting::same;
use crate::use_tables::finish;
use ir_entities::{Spot, Uses, insert_place, push_place};
use smallvec::SmallVec;
use std::alloc::Global;
use std::process::Abort;
use std::test::Fail;

/// The test of the same name, in a new table.
fn a_place_is_pushed_in(rt: &impl Abort, alloc: Global, uses: &mut Uses<u64>) -> Result<(), Fail> {
    let mut row = SmallVec::new(alloc);
    let definition = uses.define(70)?;
    push_place(uses, &mut row, 5, definition)?;
    push_place(uses, &mut row, 5, definition)?;
    same(rt, row.len(), 2);
    same(rt, uses.spot(row[1]), Spot { user: 5, index: 1 });
    same(rt, uses.count(definition), 2);
    Ok(())
}

#[test]
fn a_place_is_pushed(rt: HostRuntime) -> Result<(), Fail> {
    let mut uses: Uses<u64> = Uses::new(rt.alloc());
    let outcome = a_place_is_pushed_in(&rt, rt.alloc(), &mut uses);
    finish(uses);
    outcome
}

#[test]
fn a_place_is_inserted(rt: HostRuntime) -> Result<(), Fail> {
    let mut uses: Uses<u64> = Uses::new(rt.alloc());
    let mut row = SmallVec::new(rt.alloc());
    let definition = uses.define(70)?;
    insert_place(&mut uses, &mut row, 5, 0, definition)?;
    same(&rt, row.len(), 1);
    same(&rt, uses.spot(row[0]), Spot { user: 5, index: 0 });
    same(&rt, uses.count(definition), 1);
    Ok(())
}
