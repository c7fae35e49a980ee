//! Printing of locations.
ghost use Rattle.std.specs.Prelude.{◌≡◌, ◌++◌, OnOk};
ghost use Rattle.printed_locations.specs.Printed.{AddsTokens, IsTextOf, separator_before};
ghost use Rattle.printed_locations.specs.Tokens.{metadata_tokens, tokens_of};

use crate::words::{print_labelled, print_quoted, print_source};
use ir_locations::Location;
use std::alloc::AllocError;
use text_writers::{Printable, State, TextWriter};

/// Writes metadata between `<` and `>`, where there are some.
fn print_metadata<C, W: TextWriter, A: Printable<C, W>>(
    metadata: &Option<A>,
    context: &C,
    state: &mut State,
    out: &mut W,
) -> Result<(), AllocError>
    requires { (a : A) → A.can_print a }
    ensures text { OnOk result (AddsTokens (λ a. A.prints a context.now state.old)
        (W.written out.old) (metadata_tokens metadata.now) (W.written out.new)) }
    ensures state { state.new ≡ state.old }
{
    match metadata {
        None => Ok(()),
        Some(attribute) => {
            out.write_text("<")?;
            attribute.fmt(context, state, out)?;
            out.write_text(">")?;
            Ok(())
        }
    }
}

/// Writes a `,` and a space, but not before the first member.
fn separate<W: TextWriter>(is_first: bool, out: &mut W) -> Result<(), AllocError>
    ensures { OnOk result (W.written out.new ≡ W.written out.old ++ separator_before is_first) }
{
    if is_first {
        return Ok(());
    }
    out.write_text(", ")
}

/// Writes a location.
fn print_location<C, W: TextWriter, A: Printable<C, W>>(
    location: &Location<A>,
    context: &C,
    state: &mut State,
    out: &mut W,
) -> Result<(), AllocError>
    requires { (a : A) → A.can_print a }
    ensures text { OnOk result (AddsTokens (λ a. A.prints a context.now state.old)
        (W.written out.old) (tokens_of location.now) (W.written out.new)) }
    ensures state { state.new ≡ state.old }
{
    match location {
        Location::SrcPos {
            source,
            line,
            column,
        } => {
            print_source(source, out)?;
            print_labelled(": ", "line", *line, out)?;
            print_labelled(", ", "column", *column, out)?;
            Ok(())
        }
        Location::Fused {
            metadata,
            locations,
        } => {
            out.write_text("fused")?;
            print_metadata(metadata, context, state, out)?;
            out.write_text("[")?;
            let mut is_first = true;
            for member in locations {
                separate(is_first, out)?;
                is_first = false;
                print_location(member, context, state, out)?;
            }
            out.write_text("]")?;
            Ok(())
        }
        Location::Named { name, child } => {
            out.write_text("named[")?;
            print_quoted(name.as_str(), out)?;
            out.write_text(", ")?;
            print_location(child, context, state, out)?;
            out.write_text("]")?;
            Ok(())
        }
        Location::CallSite { callee, caller } => {
            out.write_text("callsite[")?;
            print_location(callee, context, state, out)?;
            out.write_text(", ")?;
            print_location(caller, context, state, out)?;
            out.write_text("]")?;
            Ok(())
        }
        Location::Unknown => {
            out.write_text("?")?;
            Ok(())
        }
    }
}

/// A location that is printed.
#[derive(Drop)]
pub struct LocationText<'a, A> {
    location: &'a Location<A>,
}

/// A location, to be printed: `?`, `<in-memory>: line: 3, column: 4`, `"a file": line: 1, column: 2`, `fused[..]`, `fused<metadata>[..]`,
/// `named["x", ..]` or `callsite[.., ..]`.
pub fn location_text<A>(location: &Location<A>) -> LocationText<'_, A>
    ensures { result ≡ record { location = location.entry } }
{
    LocationText { location }
}

impl<C, W: TextWriter, A: Printable<C, W>> Printable<C, W> for LocationText<'_, A> {
    ghost can_print = { λ _. (a : A) → A.can_print a };

    ghost prints = { λ it context state. IsTextOf (λ a. A.prints a context state) it.location.now };

    fn fmt(&self, context: &C, state: &mut State, out: &mut W) -> Result<(), AllocError> {
        print_location(self.location, context, state, out)
    }
}
