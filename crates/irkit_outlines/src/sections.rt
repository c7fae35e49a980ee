//! Reading the section of a text.
use ir_hashing::TextKey;
use ir_locations::Location;
use ir_tokens::ScopeCause;
use irkit_refusals::Refusal;
use outline_tables::OutlineTable;
use outline_values::{OutlinedValue, outlined_value};
use std::alloc::Global;
use text_outlines::outlined_attributes;
use text_streams::{ParseFault, StateStream, TextError};

/// The entries of a section.
pub(crate) type Entries = OutlineTable<OutlinedValue, Location<OutlinedValue>>;

/// The line and the column of a place in a part of a text that begins at this line and column.
fn place_in(start: (usize, usize), line: u64, column: u64) -> (usize, usize) {
    if line <= 1 {
        (
            start.0,
            start.1.saturating_add(column as usize).saturating_sub(1),
        )
    } else {
        (
            start.0.saturating_add(line as usize).saturating_sub(1),
            column as usize,
        )
    }
}

/// Why a section that begins at this line and column isn't read.
fn refusal_of(start: (usize, usize), fault: ParseFault) -> Refusal {
    let (line, column) = place_in(start, fault.line, fault.column);
    match fault.cause {
        TextError::Memory => Refusal::Memory,
        TextError::TooDeep => Refusal::TooDeep(line, column),
        TextError::OutlineRedefined => {
            Refusal::Scope(line, column, ScopeCause::OutlineRedefined)
        }
        TextError::AttributeRedefined => {
            Refusal::Scope(line, column, ScopeCause::AttributeRedefined)
        }
        _ => Refusal::Syntax(line, column),
    }
}

/// The entries of the section that is all of a text, which begins at this line and column of the whole one.
pub(crate) fn entries_of(
    alloc: Global,
    text: &str,
    start: (usize, usize),
    key: TextKey,
) -> Result<Entries, Refusal> {
    let mut stream = StateStream::new(text, ());
    let read = outlined_attributes(
        alloc,
        &mut stream,
        key,
        |stream: &mut StateStream<'_, ()>| outlined_value(alloc, stream),
    );
    let entries = match read {
        Ok(entries) => entries,
        Err(fault) => return Err(refusal_of(start, fault)),
    };
    stream.position = stream.position.skip_spaces();
    if stream.position.bytes_left() > 0 {
        return Err(refusal_of(start, stream.fault(TextError::Syntax)));
    }
    Ok(entries)
}
