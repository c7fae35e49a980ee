//! Lists of items, each once, that find the number of an item by its slot.
ghost use Rattle.std.specs.Prelude.{◌≡◌, ◌↔◌, ◌+◌, ◌-◌, ◌^◌, ◌<◌, ◌≤◌, ℕ, is_some, length, slice_get, IfOk, IfSome};
ghost use Rattle.std.specs.List.{list_any, position};
ghost use Rattle.ir_trees.specs.Searched.{AreDistinct};
ghost use Rattle.opt_inside.specs.NumberedList.{HaveSlotsFrom, LeadsBySlot, LeadsToAll};

use crate::sets::set_of;
use indexmap::IndexSet;
use ir_program::{Operation, Ptr, Value};
use std::alloc::{AllocError, Global};
use std::hash::Hash;
use std::marker::Model;

/// What has a slot, by which a list finds it. Any slots will do: an item is found fast where the items of its list have slots
/// near each other, and no two the same.
pub trait Slotted: Copy + Eq + Hash + Drop {
    ghost use Rattle.std.specs.Prelude.{◌≡◌, ℕ, true};

    ghost slot_of: { Self → ℕ };

    /// The slot.
    fn slot(self) -> usize
        ensures { result ≡ slot_of self };

    ghost same: { (a b : Self) → Self.eq a b ≡ true → a ≡ b };
}

impl Slotted for Ptr<Operation> {
    ghost use Rattle.std.proofs.Common.{rules};

    ghost slot_of = { λ op. op.key.slot };

    ghost same = { Prim.search rules };

    fn slot(self) -> usize {
        Ptr::slot(self)
    }
}

impl Slotted for Value {
    ghost use Rattle.std.proofs.Common.{rules};

    ghost slot_of = { λ value. value.number };

    ghost same = { Prim.search rules };

    /// Its number, which a program gives to one value.
    fn slot(self) -> usize {
        self.number() as usize
    }
}

/// How many places a table may have for each item, and how many beside these.
const PLACES_FOR_EACH: usize = 4;

const MORE_PLACES: usize = 64;

/// The numbers of items by their slots: the first place is that of the least slot. What has this slot need not be the item.
#[derive(Drop)]
struct SlotTable {
    least: usize,
    numbers: Vec<u32>,
}

/// How the number of an item is found.
#[derive(Drop)]
enum Lookup<K: Slotted> {
    BySlot(SlotTable),
    ByHash(IndexSet<K>),
}

/// Items, each once: the index of each is its number. It is found by the slot of the item in a table, or by its hash, if two
/// items have one slot or the slots are far from each other; so the room is linear in the number of the items.
#[derive(Drop)]
pub struct NumberedList<K: Slotted> {
    items: Vec<K>,
    lookup: Lookup<K>,
}

impl<K: Slotted> Model for NumberedList<K> {
    ghost use Rattle.opt_inside.specs.NumberedList.{Keyed, LeadsToAll};

    ghost Value = { Keyed K };

    ghost view = { λ n. record { keys = n.items.items } };

    ghost invariant = { λ n. LeadsToAll K.slot_of n.items.items n.lookup };
}

/// The least and the greatest slot of these items.
fn slot_range<K: Slotted>(items: &[K]) -> (usize, usize)
    ensures { HaveSlotsFrom K.slot_of items.now result.0 (result.1 + 1) }
{
    let mut least = usize::MAX;
    let mut greatest = 0;
    for item in items {
        least = least.min(item.slot());
        greatest = greatest.max(item.slot());
    }
    (least, greatest)
}

/// How many places the table of so many items has, if their least and greatest slot aren't too far from each other.
fn place_count(count: usize, least: usize, greatest: usize) -> Option<usize>
    ensures few { IfSome result (λ _. count < 2 ^ 32) }
    ensures reach { IfSome result (λ places. greatest < least + places) }
{
    if count > u32::MAX as usize {
        return None;
    }
    let distance = greatest.saturating_sub(least);
    if distance > PLACES_FOR_EACH * count + MORE_PLACES {
        return None;
    }
    Some(distance + 1)
}

impl SlotTable {
    /// The table with so many places of these items, if no two of them have the same slot.
    fn of_items<K: Slotted>(
        alloc: Global,
        items: &[K],
        least: usize,
        places: usize,
    ) -> Result<Option<SlotTable>, AllocError>
        requires within { HaveSlotsFrom K.slot_of items.now least (least + places) }
        requires few { length items.now < 2 ^ 32 }
        ensures { IfOk result (λ found. IfSome found (LeadsBySlot K.slot_of items.now)) }
    {
        let mut numbers = vec![in alloc; u32::MAX; places]?;
        for (index, item) in items.iter().enumerate() {
            let place = item.slot() - least;
            // Numbers below this one are those of other items; a vacant place has the greatest.
            if (numbers[place] as usize) < index {
                return Ok(None);
            }
            numbers[place] = index as u32;
        }
        Ok(Some(SlotTable { least, numbers }))
    }

    /// The number at the place of a slot.
    fn get(&self, slot: usize) -> Option<usize>
        ensures { self.now.least ≤ slot → result ≡ slice_get self.now.numbers.items (slot - self.now.least) }
    {
        let place = slot.checked_sub(self.least)?;
        let number = self.numbers.get(place)?;
        Some(*number as usize)
    }

    /// The number of an item, where the table leads to each.
    fn number_of<K: Slotted>(&self, items: &[K], item: K) -> Option<usize>
        requires { LeadsBySlot K.slot_of items.now self.now }
        ensures { (n : ℕ) → result ≡ Some n ↔ slice_get items.now n ≡ Some item }
    {
        let number = self.get(item.slot())?;
        let found = items.get(number)?;
        if *found == item { Some(number) } else { None }
    }
}

/// What finds the number of each of these items.
///
/// # Errors
/// No memory.
fn lookup_of<K: Slotted>(alloc: Global, items: &[K]) -> Result<Lookup<K>, AllocError>
    requires { AreDistinct items.now }
    ensures { IfOk result (LeadsToAll K.slot_of items.now) }
{
    let (least, greatest) = slot_range(items);
    if let Some(places) = place_count(items.len(), least, greatest) {
        if let Some(table) = SlotTable::of_items(alloc, items, least, places)? {
            return Ok(Lookup::BySlot(table));
        }
    }
    Ok(Lookup::ByHash(set_of(alloc, items)?))
}

impl<K: Slotted> NumberedList<K> {
    /// The list of these items. The time is linear.
    ///
    /// # Errors
    /// No memory.
    pub fn new(alloc: Global, items: Vec<K>) -> Result<NumberedList<K>, AllocError>
        requires { AreDistinct items.items }
        ensures { IfOk result (λ list. list.keys ≡ items.items) }
    {
        let lookup = lookup_of(alloc, &items)?;
        Ok(NumberedList { items, lookup })
    }

    /// The number of the items.
    pub fn len(&self) -> usize
        ensures len { result ≡ length self.now.keys }
    {
        self.items.len()
    }

    /// The items, in their order.
    pub fn as_slice(&self) -> &[K]
        ensures keys { result.now ≡ self.now.keys }
    {
        &self.items
    }

    /// The number of an item.
    pub fn get_index_of(&self, item: K) -> Option<usize>
        ensures index { result ≡ position (K.eq item) self.now.keys }
        ensures found { is_some result ≡ list_any (K.eq item) self.now.keys }
    {
        match &self.lookup {
            Lookup::BySlot(table) => table.number_of(&self.items, item),
            Lookup::ByHash(set) => set.get_index_of(&item),
        }
    }
}
