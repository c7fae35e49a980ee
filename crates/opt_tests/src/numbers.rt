//! Numbers of keys whose slots are near each other, far from each other, or the same.
use crate::asserting::same;
use opt_inside::{NumberedList, Slotted};
use std::alloc::{AllocError, Global};
use std::process::Abort;
use std::test::Fail;

/// A key that says which slot it has.
#[derive(Clone, Copy, Debug, PartialEq, Eq, Hash)]
struct Named {
    name: usize,
    slot: usize,
}

impl Slotted for Named {
    ghost use Rattle.std.proofs.Common.{rules};

    ghost slot_of = { λ key. key.slot };

    ghost same = { Prim.search rules };

    fn slot(self) -> usize {
        self.slot
    }
}

/// Slots of three keys: near each other in two orders, all or two the same, and so far from each other that no memory holds a
/// table from the least to the greatest.
const SLOTS: [[usize; 3]; 6] = [
    [7, 8, 9],
    [30, 2, 17],
    [5, 5, 5],
    [6, 9, 6],
    [0, usize::MAX, 1],
    [usize::MAX, usize::MAX - 2, usize::MAX - 1],
];

/// The list of three keys with these slots.
fn list_of(alloc: Global, slots: [usize; 3]) -> Result<NumberedList<Named>, AllocError> {
    let [first, second, third] = slots;
    let keys = vec![in alloc;
        Named {
            name: 0,
            slot: first
        },
        Named {
            name: 1,
            slot: second
        },
        Named {
            name: 2,
            slot: third
        },
    ]?;
    NumberedList::new(alloc, keys)
}

/// Tests that each of three keys with these slots has its number, and that others at these slots and beside them have none.
fn test_numbers(rt: &impl Abort, alloc: Global, slots: [usize; 3]) -> Result<(), Fail> {
    let list = list_of(alloc, slots)?;
    same(rt, list.len(), 3);
    for (name, slot) in slots.iter().enumerate() {
        let slot = *slot;
        same(rt, list.get_index_of(Named { name, slot }), Some(name));
        for other in [slot, slot.saturating_sub(1), slot.saturating_add(1)] {
            same(
                rt,
                list.get_index_of(Named {
                    name: 3,
                    slot: other,
                }),
                None,
            );
        }
    }
    Ok(())
}

#[test]
fn keys_are_numbered_whatever_slots_they_have(rt: HostRuntime) -> Result<(), Fail> {
    let alloc = rt.alloc();
    for slots in SLOTS {
        test_numbers(&rt, alloc, slots)?;
    }
    Ok(())
}

#[test]
fn no_key_has_a_number_in_a_list_of_none(rt: HostRuntime) -> Result<(), Fail> {
    let list: NumberedList<Named> = NumberedList::new(rt.alloc(), Vec::new(rt.alloc()))?;
    same(&rt, list.get_index_of(Named { name: 0, slot: 0 }), None);
    Ok(())
}
