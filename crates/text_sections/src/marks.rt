//! The marks of items.
ghost use Rattle.std.specs.Prelude.{◌≡◌, IfOk, length};
ghost use Rattle.ir_outlines.specs.Marks.{is_marked, marked, marks_of};
ghost use Rattle.outline_tables.specs.Tables.{said_beside};
ghost use Rattle.text_sections.specs.Items.{said_items};

use outline_tables::Outlined;
use std::alloc::{AllocError, Global};

/// Whether an item is printed with a mark: whether anything stands beside it.
pub fn is_marked<A, L>(item: &Outlined<'_, A, L>) -> bool
    ensures { result ≡ is_marked (said_beside item.now) }
{
    !item.attributes.is_empty() || item.location.is_some()
}

/// How many items have marks.
pub fn count_marked<A, L>(items: &[Outlined<'_, A, L>]) -> usize
    ensures { result ≡ length (marked (said_items items.now)) }
{
    let mut count = 0;
    for item in items {
        if is_marked(item) {
            count += 1;
        }
    }
    count
}

/// The mark of each item, if it has one: the numbers from 0 on.
pub fn marks_of<A, L>(
    alloc: Global,
    items: &[Outlined<'_, A, L>],
) -> Result<Vec<Option<u64>>, AllocError>
    ensures { IfOk result (λ marks. marks.items ≡ marks_of (said_items items.now)) }
{
    let mut marks = Vec::new(alloc);
    let mut next = 0;
    for item in items {
        if is_marked(item) {
            marks.push(Some(next))?;
            next += 1;
        } else {
            marks.push(None)?;
        }
    }
    Ok(marks)
}
