//! Values under keys that no later value gets.
ghost use Rattle.std.specs.Prelude.{◌≡◌, ◌≢◌, ◌↔◌, IsTrue, ℕ, ◌+◌, ◌<◌, ◌≤◌, [], IfOk, Err, OnOk, OnErr, IfErr, Some, None, IsSome, is_some, is_none, length, option_copied};
ghost use Rattle.std.specs.List.{list_all};
ghost use Rattle.ir_arena.specs.Arena.{get, held, IsVacant, Updates, SetsSlot, ClearsSlot, IsSpent, KeepsSpent};
ghost use Rattle.std.specs.Borrow.{sem};

use std::alloc::{AllocError, Global};
use std::marker::Model;

/// A slot of an arena, and which of the values that the slot holds in turn.
#[derive(Clone, Copy, Debug, PartialEq, Eq, Hash)]
pub struct Key {
    pub slot: usize,
    pub version: u64,
}

impl Key {
    /// The slot.
    pub fn slot(self) -> usize
        ensures { result ≡ self.slot }
    {
        self.slot
    }
}

/// A place for one value at a time.
#[derive(Drop)]
pub struct Slot<T> {
    version: u64,
    // The next vacant slot that can be used again, where this one is such a slot.
    next: Option<usize>,
    value: Option<T>,
}

impl<T> Slot<T> {
    ghost use Rattle.ir_arena.specs.Lends.{lends_slot};

    fn value_mut(&mut self) -> &mut T
        requires { IsSome self.old.value }
        ensures* lends { sem 𝓛 (lends_slot T.row self.entry result) }
        ensures value { self.old.value ≡ Some result.now }
    {
        match &mut self.value {
            Some(value) => value,
            None => unreachable!(),
        }
    }
}

/// Values under keys. A key whose value was taken out leads nowhere from then on.
#[derive(Drop)]
pub struct Arena<T> {
    slots: Vec<Slot<T>>,
    // The first vacant slot that can be used again.
    free: Option<usize>,
}

impl<T> Model for Arena<T> {
    ghost use Rattle.std.specs.Prelude.{List};
    ghost use Rattle.ir_arena.specs.declared.arena.Slot.{Slot};

    ghost Value = { List (Slot T) };

    ghost use Rattle.ir_arena.specs.Arena.{HasFreeList};

    ghost view = { λ a. a.slots.items };

    ghost invariant = { λ a. HasFreeList a.slots.items a.free };
}

impl<T> Arena<T> {
    ghost use Rattle.ir_arena.specs.Lends.{lends_value};

    /// No value.
    pub fn new(alloc: Global) -> Self
        ensures { result ≡ [] }
    {
        Arena {
            slots: Vec::new(alloc),
            free: None,
        }
    }

    /// How many slots there are, in use or not.
    pub fn slots(&self) -> usize
        ensures { result ≡ length self.now }
    {
        self.slots.len()
    }

    /// Whether each slot is vacant.
    fn has_no_value(&self) -> bool
        ensures { result ≡ list_all (λ s. is_none s.value) self.now }
    {
        self.slots.iter().all(|slot| slot.value.is_none())
    }

    /// Whether no key leads to a value.
    pub fn is_vacant(&self) -> bool
        ensures { IsTrue result ↔ IsVacant self.now }
    {
        self.has_no_value()
    }

    /// Whether the key leads to a value.
    pub fn is_live(&self, p: Key) -> bool
        ensures { result ≡ is_some (get self.now p) }
    {
        p.slot < self.slots.len()
            && self.slots[p.slot].version == p.version
            && self.slots[p.slot].value.is_some()
    }

    /// The value that the key leads to, or `None` where it leads nowhere.
    pub fn try_deref(&self, p: Key) -> Option<&T>
        ensures { option_copied result ≡ get self.now p }
    {
        let slot = self.slots.get(p.slot)?;
        if slot.version == p.version {
            slot.value.as_ref()
        } else {
            None
        }
    }

    /// The key to the value that is in a slot now.
    pub fn key_of(&self, slot: usize) -> Key
        requires { IsSome (held self.now slot) }
        ensures slot { result.slot ≡ slot }
        ensures live { IsSome (get self.now result) }
    {
        Key {
            slot,
            version: self.slots[slot].version,
        }
    }

    /// The value that the key leads to.
    pub fn deref(&self, p: Key) -> &T
        requires { IsSome (get self.now p) }
        ensures { Some result.now ≡ get self.now p }
    {
        match &self.slots[p.slot].value {
            Some(value) => value,
            None => unreachable!(),
        }
    }

    /// Lends the value, to be changed.
    pub fn deref_mut(&mut self, p: Key) -> &mut T
        requires { IsSome (get self.old p) }
        ensures* lends { sem 𝓛 (lends_value T.row self.entry p result) }
        ensures value { get self.old p ≡ Some result.now }
    {
        self.slots[p.slot].value_mut()
    }

    /// Makes room for so many values more: the next so many calls of `alloc` ask for no memory. It may grow the slots by
    /// more than that, so that many calls, each for a few values, copy each slot a few times only.
    ///
    /// # Errors
    /// There may be no memory, or no `usize` for so many slots. Room that was there stays.
    pub fn reserve(&mut self, values: usize) -> Result<(), AllocError>
        ensures same { self.new ≡ self.old }
    {
        self.slots.reserve(values)
    }

    /// Puts a value under a key that led nowhere so far.
    pub fn alloc(&mut self, value: T) -> Result<Key, AllocError>
    where
        T: Drop,
        ensures fresh { IfOk result (λ p. get self.old p ≡ None) }
        ensures unspent { IfOk result (λ p. IsSpent self.old p → ⊥) }
        ensures updates { IfOk result (λ p. Updates self.old self.new p (Some value)) }
        ensures slot { IfOk result (λ p. SetsSlot self.old self.new p.slot value) }
        ensures grows { length self.old ≤ length self.new }
        ensures by_one { length self.new ≤ length self.old + 1 }
        ensures err { OnErr result (self.new ≡ self.old) }
        ensures spent { KeepsSpent self.old self.new }
    {
        match self.free {
            None => {
                let slot = self.slots.len();
                self.slots.push(Slot {
                    version: 1,
                    next: None,
                    value: Some(value),
                })?;
                Ok(Key { slot, version: 1 })
            }
            Some(slot) => {
                let vacant = &mut self.slots[slot];
                let version = vacant.version + 1;
                vacant.version = version;
                vacant.value = Some(value);
                self.free = vacant.next;
                Ok(Key { slot, version })
            }
        }
    }

    /// Takes the value out. The key leads nowhere from then on. No memory is asked for.
    pub fn erase(&mut self, p: Key) -> T
    where
        T: Drop,
        requires { IsSome (get self.old p) }
        ensures value { Some result ≡ get self.old p }
        ensures updates { Updates self.old self.new p None }
        ensures slot { ClearsSlot self.old self.new p.slot }
        ensures spent_now { IsSpent self.new p }
        ensures spent { KeepsSpent self.old self.new }
    {
        let slot = &mut self.slots[p.slot];
        let Some(value) = slot.value.take() else {
            unreachable!()
        };
        // A slot that has had its greatest version is not used again.
        if slot.version == u64::MAX {
            return value;
        }
        slot.next = self.free;
        self.free = Some(p.slot);
        value
    }
}
