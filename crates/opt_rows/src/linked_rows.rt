//! Rows of items, linked in one list.
ghost use Rattle.std.specs.Prelude.{◌≡◌, ◌<◌, ◌∷◌, [], length, replicate, slice_set, IfOk, OnOk, OnErr};
ghost use Rattle.opt_rows.specs.Rows.{row_at};

use std::alloc::{AllocError, Global};
use std::marker::Model;

/// An item, and where the one behind it in its row is found.
#[derive(Clone, Copy)]
struct Linked<X> {
    item: X,
    /// One more than the index of the next item; 0 where this is the last.
    next: usize,
}

/// Rows of items that grow one at a time, in any order of the rows. The items of all rows stand in one list, each with
/// a link to the next of its row, so that no row asks for memory of its own.
#[derive(Drop)]
pub struct LinkedRows<X> {
    /// Of each row, one more than the index of its first item; 0 where it has none.
    firsts: Vec<usize>,
    /// An item comes after those that it links to.
    links: Vec<Linked<X>>,
}

impl<X> Model for LinkedRows<X> {
    ghost use Rattle.std.specs.Prelude.{List, map};
    ghost use Rattle.opt_rows.specs.LinkedRows.{items_from, AreLinked};

    ghost Value = { List (List X) };

    ghost view = { λ r. map (items_from r.links.items) r.firsts.items };

    ghost invariant = { λ r. AreLinked r.links.items r.firsts.items };
}

/// The items of a row that have not been given yet.
#[derive(Drop)]
pub struct RowItems<'a, X> {
    links: &'a [Linked<X>],
    /// One more than the index of the first that is left; 0 where none is.
    next: usize,
}

impl<'a, X> Model for RowItems<'a, X> {
    ghost use Rattle.std.specs.Prelude.{◌≤◌, List, length};
    ghost use Rattle.opt_rows.specs.LinkedRows.{items_from, LeadBack};

    ghost Value = { List X };

    ghost view = { λ r. items_from r.links.now r.next };

    ghost invariant = { λ r. LeadBack r.links.now × (r.next ≤ length r.links.now) };
}

impl<'a, X: Copy> Iterator for RowItems<'a, X> {
    ghost use Rattle.std.specs.Iterator.{YieldsFirst, item_count};

    type Item = X;

    ghost next_gives = { YieldsFirst (λ r. r) };

    ghost remaining = { item_count (λ r. r) };

    fn next(&mut self) -> Option<X> {
        let index = self.next.checked_sub(1)?;
        let linked = self.links[index];
        self.next = linked.next;
        Some(linked.item)
    }
}

impl<X: Copy> LinkedRows<X> {
    /// So many rows with nothing in them, with room for so many items in all of them.
    ///
    /// # Errors
    /// There may be no memory.
    pub fn with_capacity(
        alloc: Global,
        rows: usize,
        items: usize,
    ) -> Result<LinkedRows<X>, AllocError>
        ensures { IfOk result (λ r. r ≡ replicate rows []) }
    {
        Ok(LinkedRows {
            firsts: vec![in alloc; 0; rows]?,
            links: Vec::with_capacity(alloc, items)?,
        })
    }

    /// The items of a row: the last that was put into it comes first.
    pub fn row(&self, index: usize) -> RowItems<'_, X>
        requires { index < length self.now }
        ensures { result ≡ row_at self.now index }
    {
        RowItems {
            links: &self.links,
            next: self.firsts[index],
        }
    }

    /// Puts an item before the others of a row.
    ///
    /// # Errors
    /// There may be no memory. Then the rows stay.
    pub fn put(&mut self, index: usize, item: X) -> Result<(), AllocError>
        requires { index < length self.old }
        ensures ok { OnOk result (self.new ≡ slice_set self.old index (item ∷ row_at self.old index)) }
        ensures err { OnErr result (self.new ≡ self.old) }
    {
        let next = self.firsts[index];
        self.links.push(Linked { item, next })?;
        self.firsts[index] = self.links.len();
        Ok(())
    }
}
