//! Printing of a section.
ghost use Rattle.std.specs.Prelude.{◌≡◌, ◌++◌, ◌∷◌, [], ◌+◌, ◌<◌, ◌^◌, IfOk, OnOk, codes, length};
ghost use Rattle.ir_outlines.specs.Marks.{marked};
ghost use Rattle.outline_tables.specs.Tables.{said_beside};
ghost use Rattle.ir_outlines.specs.Section.{section_of};
ghost use Rattle.text_sections.specs.Items.{attributes_in, said_items, sharing};
ghost use Rattle.text_sections.specs.Lines.{item_lines, once_lines, AddsLine};
ghost use Rattle.text_sections.specs.Sections.{CanPrintParts, IsMade};
ghost use Rattle.text_sections.specs.Texts.{AddsTokens, prints_nothing, section_tokens};
ghost use Rattle.ir_print.specs.Layout.{mark_text};

use crate::entries::print_item;
use crate::marks::is_marked;
use crate::once::PrintOnce;
use crate::section::Section;
use crate::words::print_mark;
use outline_tables::Outlined;
use std::alloc::AllocError;
use text_writers::{Printable, State, TextWriter};

/// Writes an index, up to its entry.
fn print_index<W: TextWriter>(index: u128, out: &mut W) -> Result<(), AllocError>
    ensures { OnOk result (W.written out.new ≡ (W.written out.old ++ mark_text index) ++ codes " = ") }
{
    print_mark(index, out)?;
    out.write_text(" = ")
}

/// Writes the line of an item, with an index, where it is marked, and gives the index of the next line.
fn print_item_line<C, W: TextWriter, A: PrintOnce + Printable<C, W>, L: Printable<C, W>>(
    section: &Section<'_, A, L>,
    index: usize,
    item: &Outlined<'_, A, L>,
    context: &C,
    state: &mut State,
    out: &mut W,
) -> Result<usize, AllocError>
    requires can_print { CanPrintParts A.can_print L.can_print }
    requires small { index + 1 < 2 ^ 64 }
    ensures text { OnOk result (AddsTokens (λ a. A.prints a context.now state.old) (λ l. L.prints l context.now state.old) (W.written out.old)
        (item_lines (sharing A.is_once A.eq) section.now.marked (attributes_in section.now.once.keys) index (said_beside item.now ∷ [])) (W.written out.new)) }
    ensures next { IfOk result (λ next. next ≡ index + length (marked (said_beside item.now ∷ []))) }
    ensures state { state.new ≡ state.old }
{
    if !is_marked(item) {
        return Ok(index);
    }
    print_index(index as u128, out)?;
    print_item(section, item, context, state, out)?;
    out.write_text("\n")?;
    Ok(index + 1)
}

/// Writes the lines of marked items, whose indices are the numbers from 0 on.
fn print_items<C, W: TextWriter, A: PrintOnce + Printable<C, W>, L: Printable<C, W>>(
    section: &Section<'_, A, L>,
    context: &C,
    state: &mut State,
    out: &mut W,
) -> Result<(), AllocError>
    requires can_print { CanPrintParts A.can_print L.can_print }
    ensures text { OnOk result (AddsTokens (λ a. A.prints a context.now state.old) (λ l. L.prints l context.now state.old) (W.written out.old)
        (item_lines (sharing A.is_once A.eq) section.now.marked (attributes_in section.now.once.keys) 0 (said_items section.now.items.now)) (W.written out.new)) }
    ensures state { state.new ≡ state.old }
{
    let mut index = 0;
    for item in section.items {
        index = print_item_line(section, index, item, context, state, out)?;
    }
    Ok(())
}

/// Writes the line of an attribute that is printed once.
fn print_once_line<C, W: TextWriter, A: Printable<C, W>>(
    index: u128,
    attribute: &A,
    context: &C,
    state: &mut State,
    out: &mut W,
) -> Result<(), AllocError>
    requires can_print { A.can_print attribute.now }
    ensures text { OnOk result (AddsLine (A.prints attribute.now context.now state.old) index (W.written out.old) (W.written out.new)) }
    ensures state { state.new ≡ state.old }
{
    print_index(index, out)?;
    attribute.fmt(context, state, out)?;
    out.write_text("\n")
}

/// Writes the lines of attributes that are printed once, whose indices are the numbers from `base` on.
fn print_once<C, W: TextWriter, A: PrintOnce + Printable<C, W>, L>(
    section: &Section<'_, A, L>,
    context: &C,
    state: &mut State,
    out: &mut W,
) -> Result<(), AllocError>
    requires can_print { (a : A) → A.can_print a }
    ensures text { OnOk result (AddsTokens {A = A} {L = L} (λ a. A.prints a context.now state.old) prints_nothing (W.written out.old)
        (once_lines section.now.marked (attributes_in section.now.once.keys)) (W.written out.new)) }
    ensures state { state.new ≡ state.old }
{
    for place in 0..section.once.len() {
        let Some(attribute) = section.once.get_index(place) else {
            return Ok(());
        };
        let index = section.marked as u128 + place as u128;
        print_once_line(index, *attribute, context, state, out)?;
    }
    Ok(())
}

/// Writes a section: nothing where no item is marked.
pub fn print_section<C, W: TextWriter, A: PrintOnce + Printable<C, W>, L: Printable<C, W>>(
    section: &Section<'_, A, L>,
    context: &C,
    state: &mut State,
    out: &mut W,
) -> Result<(), AllocError>
    requires made { IsMade A.is_once A.eq section.now }
    requires can_print { CanPrintParts A.can_print L.can_print }
    ensures text { OnOk result (AddsTokens (λ a. A.prints a context.now state.old) (λ l. L.prints l context.now state.old) (W.written out.old)
        (section_tokens (section_of (sharing A.is_once A.eq) (said_items section.now.items.now))) (W.written out.new)) }
    ensures state { state.new ≡ state.old }
{
    if section.marked == 0 {
        return Ok(());
    }
    out.write_text("\noutlined_attributes:\n")?;
    print_items(section, context, state, out)?;
    print_once(section, context, state, out)?;
    Ok(())
}
