//! What is made where memory is ample.
use crate::asserting::same;
use ir_entities::{Arena, Forest, Siblings, Uses};
use ir_program::{Program, Room};
use std::alloc::AllocError;
use std::process::Abort;
use std::test::Fail;

/// Lets an arena go. It stands in a function of its own so that it is proved once, as the others do.
fn finish_arena(_arena: Arena<u8>) {}

/// Lets a forest go.
fn finish_forest(_forest: Forest<u8, u8, u8>) {}

/// Lets a table of uses go.
fn finish_uses(_uses: Uses<u8>) {}

/// Lets a program go.
pub fn finish_program(_program: Program<u32, u64>) {}

/// The test of the same name, in a new arena.
fn a_slot_is_used_again_in(rt: &impl Abort, arena: &mut Arena<u8>) -> Result<(), Fail> {
    let old = arena.alloc(7)?;
    same(rt, arena.erase(old), 7);
    let new = arena.alloc(8)?;
    same(rt, new.slot(), 0);
    assert!(rt; !arena.is_live(old));
    same(rt, arena.try_deref(new), Some(&8));
    Ok(())
}

#[test]
fn a_slot_is_used_again(rt: HostRuntime) -> Result<(), Fail> {
    let mut arena: Arena<u8> = Arena::new(rt.alloc());
    let outcome = a_slot_is_used_again_in(&rt, &mut arena);
    finish_arena(arena);
    outcome
}

/// One list and one node in a new table.
fn add_both(siblings: &mut Siblings) -> Result<(), AllocError> {
    siblings.add_list()?;
    siblings.add_node()
}

#[test]
fn tables_of_siblings_grow(rt: HostRuntime) -> Result<(), Fail> {
    let mut siblings = Siblings::new(rt.alloc());
    add_both(&mut siblings)?;
    same(&rt, siblings.lists(), 1);
    same(&rt, siblings.nodes(), 1);
    Ok(())
}

/// Asserts that one thing of each sort can be made.
fn assert_made(rt: &impl Abort, forest: &mut Forest<u8, u8, u8>) {
    assert!(rt; forest.new_op(1).is_ok());
    assert!(rt; forest.new_block(2).is_ok());
    assert!(rt; forest.new_region(3).is_ok());
}

#[test]
fn a_forest_grows(rt: HostRuntime) -> Result<(), Fail> {
    let mut forest: Forest<u8, u8, u8> = Forest::new(rt.alloc());
    assert_made(&rt, &mut forest);
    finish_forest(forest);
    Ok(())
}

/// Whether an arena has room for so many.
fn has_room(arena: &mut Arena<u8>, room: usize) -> bool {
    arena.reserve(room).is_ok()
}

/// Whether a program has room for a few things of each sort.
fn has_room_for_each(program: &mut Program<u32, u64>) -> bool {
    let room = Room {
        operations: 3,
        regions: 1,
        blocks: 2,
        values: 3,
        operands: 2,
        successors: 1,
    };
    program.reserve(room).is_ok()
}

#[test]
fn room_is_made_ahead(rt: HostRuntime) -> Result<(), Fail> {
    let mut arena: Arena<u8> = Arena::new(rt.alloc());
    assert!(rt; has_room(&mut arena, 3));
    finish_arena(arena);
    let mut forest: Forest<u8, u8, u8> = Forest::new(rt.alloc());
    assert!(rt; forest.reserve(3, 2, 1).is_ok());
    finish_forest(forest);
    let mut uses: Uses<u8> = Uses::new(rt.alloc());
    assert!(rt; uses.reserve(3, 2).is_ok());
    finish_uses(uses);
    let mut program: Program<u32, u64> = Program::new(rt.alloc());
    assert!(rt; has_room_for_each(&mut program));
    finish_program(program);
    Ok(())
}

/// Whether an arena with one thing has room for as many as can be counted.
fn has_room_for_all(arena: &mut Arena<u8>) -> Result<bool, Fail> {
    arena.alloc(7)?;
    Ok(has_room(arena, usize::MAX))
}

#[test]
fn room_that_no_number_counts_is_refused(rt: HostRuntime) -> Result<(), Fail> {
    let mut arena: Arena<u8> = Arena::new(rt.alloc());
    let outcome = has_room_for_all(&mut arena);
    finish_arena(arena);
    assert!(rt; !outcome?);
    Ok(())
}
