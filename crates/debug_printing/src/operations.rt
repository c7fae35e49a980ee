//! Operations that are printed for debugging.
ghost use Rattle.std.specs.Prelude.{◌≡◌, IfOk, IsSome, length};
ghost use Rattle.std.specs.Fmt.{WritesOnOk};
ghost use Rattle.std.specs.String.{string_bytes};
ghost use Rattle.ir_names.specs.Names.{dotted, op_id_text};
ghost use Rattle.ir_program.specs.Lists.{regions_in};
ghost use Rattle.ir_program.specs.Program.{operation_at};
ghost use Rattle.debug_printing.specs.DebugTexts.{debug_text, names_in, operation_text, regions_text, results_text, successors_text};
ghost use Rattle.debug_printing.specs.declared.rows.Row.TheVariants as row;

use crate::rows::{Row, row_length, write_row};
use ir_context::{Context, OperationCalls};
use ir_names::OpId;
use ir_program::{Operation, Ptr};
use ir_types::DialectTables;
use std::alloc::{AllocError, Global};
use std::fmt;

/// Writes the names of the results and ` = `, if there are any.
fn write_results<W: fmt::Write, D: DialectTables>(
    f: &mut fmt::Formatter<W>,
    ctx: &Context<D>,
    op: Ptr<Operation>,
) -> fmt::Result
    requires { IsSome (operation_at ctx.now.program op) }
    ensures { WritesOnOk W.write_str_gives f.old result
        (results_text (names_in ctx.now.program op row.Results)) f.new }
{
    if row_length(ctx, op, Row::Results) == 0 {
        return Ok(());
    }
    write_row(f, ctx, op, Row::Results)?;
    f.write_str(" = ")
}

/// Writes the names of the successors in brackets, if there are any.
fn write_successors<W: fmt::Write, D: DialectTables>(
    f: &mut fmt::Formatter<W>,
    ctx: &Context<D>,
    op: Ptr<Operation>,
) -> fmt::Result
    requires { IsSome (operation_at ctx.now.program op) }
    ensures { WritesOnOk W.write_str_gives f.old result
        (successors_text (names_in ctx.now.program op row.Successors)) f.new }
{
    if row_length(ctx, op, Row::Successors) == 0 {
        return Ok(());
    }
    f.write_str(" [")?;
    write_row(f, ctx, op, Row::Successors)?;
    f.write_str("]")
}

/// Writes ` {..}` for each of so many regions.
fn write_regions<W: fmt::Write>(f: &mut fmt::Formatter<W>, count: usize) -> fmt::Result
    ensures { WritesOnOk W.write_str_gives f.old result (regions_text count) f.new }
{
    for _region in 0..count {
        f.write_str(" {..}")?;
    }
    Ok(())
}

/// Writes an operation with this id.
fn write_operation<W: fmt::Write, D: DialectTables>(
    f: &mut fmt::Formatter<W>,
    ctx: &Context<D>,
    op: Ptr<Operation>,
    id: OpId,
) -> fmt::Result
    requires { IsSome (operation_at ctx.now.program op) }
    ensures { WritesOnOk W.write_str_gives f.old result
        (operation_text ctx.now.program op (dotted (op_id_text id))) f.new }
{
    write_results(f, ctx, op)?;
    write!(f, "{id}(")?;
    write_row(f, ctx, op, Row::Operands)?;
    f.write_str(")")?;
    write_successors(f, ctx, op)?;
    write_regions(f, op.num_regions(ctx))
}

/// An operation that is printed for debugging, as `v3, v4 = dialect.name(v1, v2) [^block1v1] {..}`: the names of its results,
/// operands and successors, and `{..}` in the place of each region. Types and attributes aren't printed. Values and blocks
/// have the names that they have in a module's text. Of a handle that leads to no operation `<no operation>` is printed.
#[derive(Clone, Copy)]
pub struct OpDbg<'a, D: DialectTables> {
    /// The operation.
    pub op: Ptr<Operation>,
    /// The context that it is in.
    pub ctx: &'a Context<D>,
}

impl<D: DialectTables> fmt::Display for OpDbg<'_, D> {
    ghost use Rattle.std.specs.Prelude.{Some};

    ghost output = { λ it. Some (debug_text it.ctx.now.program it.op D.op_text) };

    fn fmt<W: fmt::Write>(&self, f: &mut fmt::Formatter<W>) -> fmt::Result {
        if !self.op.is_live(self.ctx) {
            return f.write_str("<no operation>");
        }
        write_operation(f, self.ctx, self.op, self.op.get_opid(self.ctx))
    }
}

impl<D: DialectTables> fmt::Debug for OpDbg<'_, D> {
    ghost use Rattle.std.specs.Prelude.{Some};

    ghost debug_output = { λ it. Some (debug_text it.ctx.now.program it.op D.op_text) };

    fn fmt<W: fmt::Write>(&self, f: &mut fmt::Formatter<W>) -> fmt::Result {
        fmt::Display::fmt(self, f)
    }
}

/// The text of an operation for debugging, as `OpDbg` prints it.
///
/// # Errors
/// Without memory.
pub fn print_dbg<D: DialectTables>(
    alloc: Global,
    op: Ptr<Operation>,
    ctx: &Context<D>,
) -> Result<String, AllocError>
    ensures { IfOk result (λ text. string_bytes text ≡ debug_text ctx.now.program op D.op_text) }
{
    let shown = OpDbg { op, ctx };
    format!(in alloc; "{shown}")
}
