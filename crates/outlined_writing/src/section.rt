//! The section of outlined attributes.
ghost use Rattle.std.specs.Prelude.{◌≡◌, [], OnOk};
ghost use Rattle.std.specs.String.{string_bytes};

use crate::entries::Entry;
use indexmap::IndexSet;
use ir_hashing::TextKey;
use itoa::Buffer;
use std::alloc::AllocError;
use text_writers::{Printable, State, quoted};

/// Writes a mark.
pub fn push_mark(out: &mut String, number: u128) -> Result<(), AllocError> {
    let mut digits = Buffer::new();
    out.push('!')?;
    out.push_str(digits.format(number))?;
    Ok(())
}

/// Writes an attribute that is a text.
fn push_text(out: &mut String, kind: &str, text: &str) -> Result<(), AllocError> {
    out.push_str(kind)?;
    out.push(' ')?;
    quoted(text).fmt(&(), &mut State::new(), out)?;
    Ok(())
}

/// Writes the start of a member of an entry: a separator, but not before the first member, and its key.
fn push_key(out: &mut String, is_first: bool, key: &str) -> Result<(), AllocError> {
    if !is_first {
        out.push_str(", ")?;
    }
    out.push_str(key)?;
    out.push_str(" = ")?;
    Ok(())
}

/// Writes an entry's names, and whether no member is there yet.
fn push_names(out: &mut String, entry: &Entry<'_>) -> Result<bool, AllocError> {
    let Some(names) = &entry.names else {
        return Ok(true);
    };
    push_key(out, true, "builtin_given_names")?;
    out.push_str("builtin.given_names [")?;
    out.push_str(names.as_str())?;
    out.push(']')?;
    Ok(false)
}

/// Writes an entry's note, and whether no member is there yet.
fn push_note(out: &mut String, is_first: bool, entry: &Entry<'_>) -> Result<bool, AllocError> {
    let Some(note) = entry.note() else {
        return Ok(is_first);
    };
    push_key(out, is_first, "kit_note")?;
    push_text(out, "kit.note", note)?;
    Ok(false)
}

/// Writes the mark of an entry's origin, where those of origins come behind so many.
fn push_origin(
    out: &mut String,
    is_first: bool,
    entry: &Entry<'_>,
    marked: usize,
    origins: &IndexSet<&str, TextKey>,
) -> Result<(), AllocError> {
    let Some(origin) = entry.origin() else {
        return Ok(());
    };
    let Some(index) = origins.get_index_of(&origin) else {
        return Ok(());
    };
    push_key(out, is_first, "kit_origin")?;
    push_mark(out, marked as u128 + index as u128)?;
    Ok(())
}

/// Writes the line of an entry.
fn push_entry(
    out: &mut String,
    number: usize,
    entry: &Entry<'_>,
    marked: usize,
    origins: &IndexSet<&str, TextKey>,
) -> Result<(), AllocError> {
    push_mark(out, number as u128)?;
    out.push_str(" = [")?;
    let is_first = push_names(out, entry)?;
    let is_first = push_note(out, is_first, entry)?;
    push_origin(out, is_first, entry, marked, origins)?;
    out.push_str("]\n")?;
    Ok(())
}

/// Writes the lines of entries.
fn push_entries(
    out: &mut String,
    entries: &[Entry<'_>],
    origins: &IndexSet<&str, TextKey>,
) -> Result<(), AllocError> {
    for (number, entry) in entries.iter().enumerate() {
        push_entry(out, number, entry, entries.len(), origins)?;
    }
    Ok(())
}

/// Writes the lines of origins, whose marks come behind so many.
fn push_origins(
    out: &mut String,
    marked: usize,
    origins: &IndexSet<&str, TextKey>,
) -> Result<(), AllocError> {
    for place in 0..origins.len() {
        let Some(origin) = origins.get_index(place) else {
            return Ok(());
        };
        push_mark(out, marked as u128 + place as u128)?;
        out.push_str(" = ")?;
        push_text(out, "kit.origin", *origin)?;
        out.push('\n')?;
    }
    Ok(())
}

/// Writes the section: nothing where there is no entry.
pub fn push_section(
    out: &mut String,
    entries: &[Entry<'_>],
    origins: &IndexSet<&str, TextKey>,
) -> Result<(), AllocError>
    ensures { OnOk result (entries.now ≡ [] → string_bytes out.new ≡ string_bytes out.old) }
{
    if entries.is_empty() {
        return Ok(());
    }
    out.push_str("\noutlined_attributes:\n")?;
    push_entries(out, entries, origins)?;
    push_origins(out, entries.len(), origins)?;
    Ok(())
}
