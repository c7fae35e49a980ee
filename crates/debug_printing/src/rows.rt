//! The names in the rows of an operation: its results, its operands and its successors.
ghost use Rattle.std.specs.Prelude.{◌≡◌, ◌<◌, ◌++◌, List, ℕ, IsSome, Some, codes, length, option_copied, slice_get};
ghost use Rattle.std.specs.Fmt.{WritesOnOk};
ghost use Rattle.ir_program.specs.Program.{operation_at, block_at};
ghost use Rattle.debug_printing.specs.DebugTexts.{block_name, joined, label_front, names_in, separator_before, value_name};

use ir_context::{BlockCalls, Context, OperandCalls, OperationCalls, ResultCalls, SuccessorCalls};
use ir_names::Identifier;
use ir_program::{BasicBlock, Operation, Ptr, Value};
use ir_types::DialectTables;
use std::fmt;

/// A row of an operation.
#[derive(Clone, Copy)]
pub(crate) enum Row {
    Results,
    Operands,
    Successors,
}

/// How many there are in a row.
pub(crate) fn row_length<D: DialectTables>(ctx: &Context<D>, op: Ptr<Operation>, row: Row) -> usize
    requires { IsSome (operation_at ctx.now.program op) }
    ensures { result ≡ length (names_in ctx.now.program op row) }
{
    match row {
        Row::Results => op.get_num_results(ctx),
        Row::Operands => op.get_num_operands(ctx),
        Row::Successors => op.get_num_successors(ctx),
    }
}

/// Writes the name of a value.
fn write_value<W: fmt::Write>(f: &mut fmt::Formatter<W>, value: Value) -> fmt::Result
    ensures { WritesOnOk W.write_str_gives f.old result (value_name value) f.new }
{
    let number = value.number();
    write!(f, "v{number}")
}

/// Writes a label and `_`, if there is a label.
fn write_label<W: fmt::Write>(f: &mut fmt::Formatter<W>, label: Option<&Identifier>) -> fmt::Result
    ensures { WritesOnOk W.write_str_gives f.old result (label_front (option_copied label.entry)) f.new }
{
    match label {
        Some(label) => {
            f.write_str(label.as_str())?;
            f.write_str("_")
        }
        None => Ok(()),
    }
}

/// Writes the name of a block.
fn write_block<W: fmt::Write, D: DialectTables>(
    f: &mut fmt::Formatter<W>,
    ctx: &Context<D>,
    block: Ptr<BasicBlock>,
) -> fmt::Result
    requires { IsSome (block_at ctx.now.program block) }
    ensures { WritesOnOk W.write_str_gives f.old result (block_name ctx.now.program block) f.new }
{
    f.write_str("^")?;
    write_label(f, block.label(ctx))?;
    // A slot may be any usize, and the one behind the last isn't.
    let slot = block.slot() as u128 + 1;
    let version = block.version();
    write!(f, "block{slot}v{version}")
}

/// Writes the name at an index of a row.
fn write_name<W: fmt::Write, D: DialectTables>(
    f: &mut fmt::Formatter<W>,
    ctx: &Context<D>,
    op: Ptr<Operation>,
    row: Row,
    index: usize,
) -> fmt::Result
    requires live { IsSome (operation_at ctx.now.program op) }
    requires within { index < length (names_in ctx.now.program op row) }
    ensures { (name : List ℕ) → slice_get (names_in ctx.now.program op row) index ≡ Some name
        → WritesOnOk W.write_str_gives f.old result name f.new }
{
    let program = ctx.program();
    match row {
        Row::Results => write_value(f, program.result(op, index)),
        Row::Operands => write_value(f, program.operand(op, index)),
        Row::Successors => write_block(f, ctx, program.successor(op, index)),
    }
}

/// Writes `, ` before each member but the first.
fn separate<W: fmt::Write>(f: &mut fmt::Formatter<W>, index: usize) -> fmt::Result
    ensures { WritesOnOk W.write_str_gives f.old result (separator_before index) f.new }
{
    if index == 0 {
        return Ok(());
    }
    f.write_str(", ")
}

/// Writes the name at an index of a row, behind those before it.
fn write_member<W: fmt::Write, D: DialectTables>(
    f: &mut fmt::Formatter<W>,
    ctx: &Context<D>,
    op: Ptr<Operation>,
    row: Row,
    index: usize,
) -> fmt::Result
    requires live { IsSome (operation_at ctx.now.program op) }
    requires within { index < length (names_in ctx.now.program op row) }
    ensures { (name : List ℕ) → slice_get (names_in ctx.now.program op row) index ≡ Some name
        → WritesOnOk W.write_str_gives f.old result (separator_before index ++ name) f.new }
{
    separate(f, index)?;
    write_name(f, ctx, op, row, index)
}

/// Writes the names in a row, with `, ` between them.
pub(crate) fn write_row<W: fmt::Write, D: DialectTables>(
    f: &mut fmt::Formatter<W>,
    ctx: &Context<D>,
    op: Ptr<Operation>,
    row: Row,
) -> fmt::Result
    requires { IsSome (operation_at ctx.now.program op) }
    ensures { WritesOnOk W.write_str_gives f.old result (joined (names_in ctx.now.program op row)) f.new }
{
    for index in 0..row_length(ctx, op, row) {
        write_member(f, ctx, op, row, index)?;
    }
    Ok(())
}
