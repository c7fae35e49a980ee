//! Entries of a section.
ghost use Rattle.std.specs.Prelude.{◌≡◌, ◌∷◌, [], OnOk, option_copied, true};
ghost use Rattle.ir_outlines.specs.Section.{entry, index_of, reference};
ghost use Rattle.outline_tables.specs.Tables.{found_under, said_beside};
ghost use Rattle.text_sections.specs.Items.{attributes_in, members_beside, sharing};
ghost use Rattle.text_sections.specs.Texts.{AddsTokens, entry_tokens, location_tokens, member_tokens, members_from, prints_nothing, reference_token};
ghost use Rattle.text_sections.specs.Sections.{CanPrintParts};
ghost use Rattle.ir_names.specs.Identifier.{text_of};

use crate::once::PrintOnce;
use crate::section::Section;
use crate::words::{print_mark, print_separator};
use ir_names::Identifier;
use outline_tables::Outlined;
use std::alloc::AllocError;
use text_writers::{Printable, State, TextWriter};

/// The place of an attribute among those that are printed once, or their number where it isn't there.
fn once_index<A: PrintOnce, L>(section: &Section<'_, A, L>, attribute: &A) -> usize
    ensures { result ≡ index_of (sharing A.is_once A.eq) (attributes_in section.now.once.keys) attribute.now }
{
    match section.once.get_index_of(&attribute) {
        Some(index) => index,
        None => section.once.len(),
    }
}

/// Writes an attribute that stands under a key, or the mark of one that is printed once; these have the marks from `base` on.
fn print_reference<C, W: TextWriter, A: PrintOnce + Printable<C, W>, L>(
    section: &Section<'_, A, L>,
    key: &Identifier,
    attribute: &A,
    context: &C,
    state: &mut State,
    out: &mut W,
) -> Result<(), AllocError>
    requires can_print { (a : A) → A.can_print a }
    ensures text { OnOk result (AddsTokens {A = A} {L = L} (λ a. A.prints a context.now state.old) prints_nothing (W.written out.old)
        (reference_token (reference (sharing A.is_once A.eq) section.now.marked (attributes_in section.now.once.keys) (text_of key.now, attribute.now)).1 ∷ []) (W.written out.new)) }
    ensures state { state.new ≡ state.old }
{
    if !attribute.is_once(key.as_str()) {
        attribute.fmt(context, state, out)?;
        return Ok(());
    }
    let index = once_index(section, attribute);
    print_mark(section.marked as u128 + index as u128, out)?;
    Ok(())
}

/// Writes a key and what stands under it.
fn print_member<C, W: TextWriter, A: PrintOnce + Printable<C, W>, L>(
    section: &Section<'_, A, L>,
    key: &Identifier,
    attribute: &A,
    context: &C,
    state: &mut State,
    out: &mut W,
) -> Result<(), AllocError>
    requires can_print { (a : A) → A.can_print a }
    ensures text { OnOk result (AddsTokens {A = A} {L = L} (λ a. A.prints a context.now state.old) prints_nothing (W.written out.old)
        (member_tokens (reference (sharing A.is_once A.eq) section.now.marked (attributes_in section.now.once.keys) (text_of key.now, attribute.now))) (W.written out.new)) }
    ensures state { state.new ≡ state.old }
{
    out.write_text(key.as_str())?;
    out.write_text(" = ")?;
    print_reference(section, key, attribute, context, state, out)?;
    Ok(())
}

/// Writes attributes under their keys, with a `,` between them.
fn print_members<C, W: TextWriter, A: PrintOnce + Printable<C, W>, L>(
    section: &Section<'_, A, L>,
    attributes: &[(&Identifier, &A)],
    context: &C,
    state: &mut State,
    out: &mut W,
) -> Result<(), AllocError>
    requires can_print { (a : A) → A.can_print a }
    ensures text { OnOk result (AddsTokens {A = A} {L = L} (λ a. A.prints a context.now state.old) prints_nothing (W.written out.old)
        (members_from true (members_beside (sharing A.is_once A.eq) section.now.marked (attributes_in section.now.once.keys) (found_under attributes.now))) (W.written out.new)) }
    ensures state { state.new ≡ state.old }
{
    let mut is_first = true;
    for member in attributes {
        print_separator(is_first, out)?;
        is_first = false;
        print_member(section, member.0, member.1, context, state, out)?;
    }
    Ok(())
}

/// Writes `@[location], `, where there is a location.
fn print_location<C, W: TextWriter, A, L: Printable<C, W>>(
    item: &Outlined<'_, A, L>,
    context: &C,
    state: &mut State,
    out: &mut W,
) -> Result<(), AllocError>
    requires { (l : L) → L.can_print l }
    ensures text { OnOk result (AddsTokens {A = A} {L = L} prints_nothing (λ l. L.prints l context.now state.old) (W.written out.old)
        (location_tokens (option_copied item.now.location)) (W.written out.new)) }
    ensures state { state.new ≡ state.old }
{
    let Some(location) = item.location else {
        return Ok(());
    };
    out.write_text("@[")?;
    location.fmt(context, state, out)?;
    out.write_text("], ")?;
    Ok(())
}

/// Writes the entry of an item.
pub fn print_item<C, W: TextWriter, A: PrintOnce + Printable<C, W>, L: Printable<C, W>>(
    section: &Section<'_, A, L>,
    item: &Outlined<'_, A, L>,
    context: &C,
    state: &mut State,
    out: &mut W,
) -> Result<(), AllocError>
    requires can_print { CanPrintParts A.can_print L.can_print }
    ensures text { OnOk result (AddsTokens (λ a. A.prints a context.now state.old) (λ l. L.prints l context.now state.old) (W.written out.old)
        (entry_tokens (entry (sharing A.is_once A.eq) section.now.marked (attributes_in section.now.once.keys) (said_beside item.now))) (W.written out.new)) }
    ensures state { state.new ≡ state.old }
{
    print_location(item, context, state, out)?;
    out.write_text("[")?;
    print_members(section, item.attributes.as_slice(), context, state, out)?;
    out.write_text("]")?;
    Ok(())
}
