//! Operands and successors.
ghost use Rattle.std.specs.Prelude.{◌≡◌, true, false};
ghost use Rattle.text_streams.specs.Positions.{left};
ghost use Rattle.parsed_operands.specs.Operands.{cause_of, begins_with_label, ReadsLabelSign, ReadsOperand, ReadsSuccessor};

use ir_names::{GrowError, Identifier};
use parsed_names::{NameScope, mention};
use std::alloc::Global;
use text_parsables::Parsable;
use text_streams::{ParseFault, ParseResult, StateStream, TextError};

/// The fault that an error is.
fn cause_of(error: GrowError) -> TextError
    ensures { result ≡ cause_of error }
{
    match error {
        GrowError::Memory => TextError::Memory,
        GrowError::CounterFull => TextError::CounterFull,
    }
}

/// Goes behind a `^` and the white space behind it, where one is there; and whether it is.
fn take_label_sign<S>(stream: &mut StateStream<'_, S>) -> bool
    ensures there { result ≡ true → ReadsLabelSign stream.old stream.new }
    ensures without { result ≡ false → (stream.new ≡ stream.old) × (begins_with_label (left stream.old.position) ≡ false) }
{
    match stream.position.next() {
        Some((sign, behind)) if sign == '^' => {
            stream.position = behind.skip_spaces();
            true
        }
        _ => false,
    }
}

/// The operand whose name is there: what the name stands for, as [`mention`] answers it.
///
/// # Errors
/// A syntax fault where no name is there, and the error of mentioning it, each where the name is due. The stream stays where it was.
pub fn ssa_opd_parse<S, V: Copy, C, F: FnOnce(&mut C) -> Result<V, GrowError>>(
    alloc: Global,
    stream: &mut StateStream<'_, S>,
    ctx: &mut C,
    names: &mut NameScope<V>,
    make: F,
) -> ParseResult<V>
    requires { F.IsAlwaysCallable make }
    ensures { ReadsOperand F.FnOnce make names.old names.new ctx.old ctx.new stream.old stream.new result }
{
    let start = stream.position;
    let name = match Identifier::parse(alloc, stream, ()) {
        Ok(name) => name,
        Err(fault) => return Err(fault),
    };
    match mention(ctx, names, name, make) {
        Ok(value) => Ok(value),
        Err(error) => {
            stream.position = start;
            Err(stream.fault(cause_of(error)))
        }
    }
}

/// The successor whose label is there: a `^` and a name, with white space between them.
///
/// # Errors
/// A syntax fault where no `^` is there; else as `ssa_opd_parse`, where the name is due. The stream stays where it was.
pub fn block_opd_parse<S, V: Copy, C, F: FnOnce(&mut C) -> Result<V, GrowError>>(
    alloc: Global,
    stream: &mut StateStream<'_, S>,
    ctx: &mut C,
    labels: &mut NameScope<V>,
    make: F,
) -> ParseResult<V>
    requires { F.IsAlwaysCallable make }
    ensures { ReadsSuccessor F.FnOnce make labels.old labels.new ctx.old ctx.new stream.old stream.new result }
{
    let start = stream.position;
    if !take_label_sign(stream) {
        return Err(stream.fault(TextError::Syntax));
    }
    match ssa_opd_parse(alloc, stream, ctx, labels, make) {
        Ok(value) => Ok(value),
        Err(fault) => {
            stream.position = start;
            Err(ParseFault {
                consumed: true,
                ..fault
            })
        }
    }
}
