//! The section behind a root.
ghost use Rattle.std.specs.Prelude.{◌≡◌, IfOk};
ghost use Rattle.ir_outlines.specs.Marks.{marks_of};
ghost use Rattle.ir_outlines.specs.Section.{section_of};
ghost use Rattle.text_sections.specs.Items.{said_items, sharing};
ghost use Rattle.text_sections.specs.Sections.{IsMade};
ghost use Rattle.text_sections.specs.Texts.{IsSectionText};

use crate::marks::{count_marked, marks_of};
use crate::once::{PrintOnce, once_of};
use crate::printing::print_section;
use indexmap::IndexSet;
use ir_hashing::TextKey;
use outline_tables::Outlined;
use std::alloc::{AllocError, Global};
use text_writers::{Printable, State, TextWriter};

/// The section of outlined attributes of a text.
///
/// It is printed as an empty line, a line `outlined_attributes:`, and a line `!n = ENTRY` for each index: first what stands beside each marked
/// item, in the order of their marks, then each attribute that is printed once, in order of first mention. Nothing is printed where no
/// item is marked.
#[derive(Drop)]
pub struct Section<'a, A: PrintOnce, L> {
    pub(crate) items: &'a [Outlined<'a, A, L>],
    /// The attributes that are printed once, in order of first mention.
    pub(crate) once: IndexSet<&'a A, TextKey>,
    /// So many items are marked, and this is the first index behind theirs.
    pub(crate) marked: usize,
}

impl<'a, A: PrintOnce, L> Section<'a, A, L> {
    /// The section of items: of what stands beside the operations and blocks of a text, in the order in which the text has their marks, each
    /// with its attributes in byte order of their keys. The key is one that has read what the attributes come from.
    ///
    /// # Errors
    /// Where memory is refused.
    pub fn new(
        alloc: Global,
        key: TextKey,
        items: &'a [Outlined<'a, A, L>],
    ) -> Result<Section<'a, A, L>, AllocError>
        ensures made { IfOk result (IsMade A.is_once A.eq) }
        ensures items { IfOk result (λ section. section.items.now ≡ items.now) }
    {
        Ok(Section {
            items,
            once: once_of(alloc, key, items)?,
            marked: count_marked(items),
        })
    }

    /// The mark of each item, if it has one: those beside which something stands have the numbers from 0 on.
    ///
    /// # Errors
    /// Where memory is refused.
    pub fn marks(&self, alloc: Global) -> Result<Vec<Option<u64>>, AllocError>
        ensures { IfOk result (λ marks. marks.items ≡ marks_of (said_items self.now.items.now)) }
    {
        marks_of(alloc, self.items)
    }
}

impl<C, W: TextWriter, A: PrintOnce + Printable<C, W>, L: Printable<C, W>> Printable<C, W>
    for Section<'_, A, L> {
    ghost use Rattle.text_sections.specs.Sections.{CanPrintParts};

    ghost can_print = { λ it. IsMade A.is_once A.eq it × CanPrintParts A.can_print L.can_print };

    ghost prints = { λ it context state. IsSectionText (λ a. A.prints a context state) (λ l. L.prints l context state)
        (section_of (sharing A.is_once A.eq) (said_items it.items.now)) };

    fn fmt(&self, context: &C, state: &mut State, out: &mut W) -> Result<(), AllocError> {
        print_section(self, context, state, out)?;
        Ok(())
    }
}
