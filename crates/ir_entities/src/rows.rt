//! Places in the rows of their users.
ghost use Rattle.std.specs.Prelude.{◌≡◌, ℕ, ◌<◌, ◌≤◌, [], Some, OnOk, OnErr, length, slice_get};
ghost use Rattle.ir_entities.specs.Uses.{place_of, IsDefined, IsPlace};
ghost use Rattle.ir_entities.specs.Placed.{IsDistinctRow, ReleasesPlaces, Renumbers};
ghost use Rattle.ir_entities.specs.Rows.{IsRowOf, PushesIn, InsertsIn, RemovesIn};

use crate::uses::{Spot, Uses};
use smallvec::SmallVec;
use std::alloc::AllocError;

/// Gives each place of a row its index there, from `from` on.
pub fn renumber<K: Copy>(uses: &mut Uses<K>, row: &[usize], from: usize)
    requires distinct { IsDistinctRow row.now }
    requires used { (j q : ℕ) → from ≤ j → slice_get row.now j ≡ Some q → IsPlace uses.old q }
    ensures renumbers { Renumbers (place_of uses.old) (place_of uses.new) row.now from }
    ensures definitions { uses.new.definitions ≡ uses.old.definitions }
{
    for index in from..row.len() {
        uses.set_index(row[index], index);
    }
}

/// Takes the places of a row out of use.
pub fn release<K: Copy>(uses: &mut Uses<K>, row: &[usize])
    requires distinct { IsDistinctRow row.now }
    requires used { (k q : ℕ) → slice_get row.now k ≡ Some q → IsPlace uses.old q }
    ensures releases { ReleasesPlaces (place_of uses.old) (place_of uses.new) row.now }
    ensures definitions { uses.new.definitions ≡ uses.old.definitions }
{
    for place in row {
        uses.remove(*place);
    }
}

/// Puts a new place behind the others of a user's row, where it names the definition. On an error
/// nothing is changed.
pub fn push_place<K: Copy>(
    uses: &mut Uses<K>,
    row: &mut SmallVec<usize, 2>,
    user: usize,
    definition: usize,
) -> Result<(), AllocError>
    requires definition { IsDefined uses.old definition }
    ensures pushed { OnOk result ((p : ℕ)
        × PushesIn (place_of uses.old) (place_of uses.new) row.old.items row.new.items user p definition) }
    ensures definitions { uses.new.definitions ≡ uses.old.definitions }
    ensures err { OnErr result (uses.new ≡ uses.old) }
    ensures row_err { OnErr result (row.new.items ≡ row.old.items) }
{
    row.reserve(1)?;
    let spot = Spot {
        user,
        index: row.len(),
    };
    let place = uses.add(definition, spot)?;
    row.push_reserved(place);
    Ok(())
}

/// Puts a new place at an index of a user's row, where it names the definition. The places that stood
/// there and behind move back by one. On an error nothing is changed.
pub fn insert_place<K: Copy>(
    uses: &mut Uses<K>,
    row: &mut SmallVec<usize, 2>,
    user: usize,
    index: usize,
    definition: usize,
) -> Result<(), AllocError>
    requires row { IsRowOf (place_of uses.old) row.old.items user }
    requires within { index ≤ length row.old.items }
    requires definition { IsDefined uses.old definition }
    ensures inserted { OnOk result ((p : ℕ)
        × InsertsIn (place_of uses.old) (place_of uses.new) row.old.items row.new.items user index p definition) }
    ensures definitions { uses.new.definitions ≡ uses.old.definitions }
    ensures err { OnErr result (uses.new ≡ uses.old) }
    ensures row_err { OnErr result (row.new.items ≡ row.old.items) }
{
    row.reserve(1)?;
    let place = uses.add(definition, Spot { user, index })?;
    row.insert(index, place)?;
    renumber(uses, row, index + 1);
    Ok(())
}

/// Takes the place at an index of a user's row out of use. The places behind it move up by one.
pub fn remove_place<K: Copy>(
    uses: &mut Uses<K>,
    row: &mut SmallVec<usize, 2>,
    user: usize,
    index: usize,
)
    requires row { IsRowOf (place_of uses.old) row.old.items user }
    requires within { index < length row.old.items }
    ensures removed { (p : ℕ)
        × RemovesIn (place_of uses.old) (place_of uses.new) row.old.items row.new.items user index p }
    ensures definitions { uses.new.definitions ≡ uses.old.definitions }
{
    let place = row.remove(index);
    uses.remove(place);
    renumber(uses, row, index);
}

/// Takes all places of a user's row out of use.
pub fn clear_row<K: Copy>(uses: &mut Uses<K>, row: &mut SmallVec<usize, 2>)
    requires distinct { IsDistinctRow row.old.items }
    requires used { (k q : ℕ) → slice_get row.old.items k ≡ Some q → IsPlace uses.old q }
    ensures emptied { row.new.items ≡ [] }
    ensures releases { ReleasesPlaces (place_of uses.old) (place_of uses.new) row.old.items }
    ensures definitions { uses.new.definitions ≡ uses.old.definitions }
{
    release(uses, row);
    row.clear();
}
