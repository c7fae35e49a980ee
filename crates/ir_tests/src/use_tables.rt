//! A table of uses, from its first definition to its last.
ghost use Rattle.std.specs.Prelude.{◌≡◌, IfOk};
ghost use Rattle.ir_entities.specs.Uses.{IsDefined, IsPlace};

use crate::asserting::same;
use ir_entities::{Spot, Uses};
use std::alloc::AllocError;
use std::process::Abort;
use std::test::Fail;

/// Two definitions, which no place names.
fn define_two(rt: &impl Abort, uses: &mut Uses<u64>) -> Result<(usize, usize), AllocError>
    ensures first { IfOk result (λ d. IsDefined uses.new d.0) }
    ensures second { IfOk result (λ d. IsDefined uses.new d.1) }
{
    let first = uses.define(70)?;
    let second = uses.define(80)?;
    assert!(rt; first != second);
    same(rt, uses.key(first), 70);
    same(rt, uses.key(second), 80);
    assert!(rt; !uses.is_used(first));
    Ok((first, second))
}

/// Two places that name the first definition and one that names the second; the last two of them.
fn add_three(
    rt: &impl Abort,
    uses: &mut Uses<u64>,
    first: usize,
    second: usize,
) -> Result<(usize, usize), AllocError>
    requires first { IsDefined uses.old first }
    requires second { IsDefined uses.old second }
    ensures definitions { uses.new.definitions ≡ uses.old.definitions }
    ensures right { IfOk result (λ p. IsPlace uses.new p.0) }
    ensures last { IfOk result (λ p. IsPlace uses.new p.1) }
{
    uses.add(first, Spot { user: 5, index: 0 })?;
    let right = uses.add(first, Spot { user: 5, index: 1 })?;
    let last = uses.add(second, Spot { user: 6, index: 0 })?;
    same(rt, uses.count(first), 2);
    same(rt, uses.count(second), 1);
    same(rt, uses.first(second), Some(last));
    Ok((right, last))
}

/// Makes all places name the second definition, first one of them, then the others.
fn rename_all(rt: &impl Abort, uses: &mut Uses<u64>, first: usize, second: usize, right: usize)
    requires first { IsDefined uses.old first }
    requires second { IsDefined uses.old second }
    requires right { IsPlace uses.old right }
    ensures definitions { uses.new.definitions ≡ uses.old.definitions }
{
    uses.rename(right, second);
    same(rt, uses.definition(right), second);
    same(rt, uses.count(first), 1);
    same(rt, uses.count(second), 2);
    uses.replace_all(first, second);
    same(rt, uses.first(first), None);
    same(rt, uses.count(second), 3);
    same(rt, uses.iter(second).count(), 3);
}

/// Takes all places of a definition out of use, and the definition with them.
fn end(rt: &impl Abort, uses: &mut Uses<u64>, definition: usize)
    requires { IsDefined uses.old definition }
{
    for _ in 0..3 {
        if let Some(place) = uses.first(definition) {
            uses.remove(place);
        }
    }
    assert!(rt; !uses.is_used(definition));
    uses.forget(definition);
}

/// Lets a table go. It stands in a function of its own so that it is proved once.
pub fn finish(_uses: Uses<u64>) {}

/// The test of the same name, in a new table.
fn numbers_are_used_again_in(rt: &impl Abort, uses: &mut Uses<u64>) -> Result<(), Fail> {
    let (first, second) = define_two(rt, uses)?;
    let (right, last) = add_three(rt, uses, first, second)?;
    uses.set_index(last, 9);
    same(rt, uses.spot(last), Spot { user: 6, index: 9 });
    same(rt, uses.spot(right), Spot { user: 5, index: 1 });
    rename_all(rt, uses, first, second, right);
    end(rt, uses, second);
    let again = uses.define(90)?;
    same(rt, again, second);
    let place = uses.add(again, Spot { user: 7, index: 0 })?;
    assert!(rt; place < 3);
    Ok(())
}

#[test]
fn numbers_are_used_again(rt: HostRuntime) -> Result<(), Fail> {
    let mut uses: Uses<u64> = Uses::new(rt.alloc());
    let outcome = numbers_are_used_again_in(&rt, &mut uses);
    finish(uses);
    outcome
}
