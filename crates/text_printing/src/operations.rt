//! The texts of operations, with the regions and blocks in them.
ghost use Rattle.std.specs.Prelude.{◌≡◌, ◌+◌, ◌*◌, ◌<◌, ◌≤◌, ◌^◌, ◌++◌, ◌⊎◌, IsSome, IfSome, IfOk, OnOk, MatchOption, Some, List, ℕ, length, slice_get, take, drop};
ghost use Rattle.std.specs.String.{string_bytes};
ghost use Rattle.ir_context.specs.Kept.{label_at};
ghost use Rattle.ir_print.specs.Formats.{step_of, steps_of};
ghost use Rattle.ir_print.specs.Layout.{a_part, layout, line, IsShallow};
ghost use Rattle.ir_print.specs.Pieces.{Entity};
ghost use Rattle.ir_print.specs.declared.format.Part.TheVariants as piece;
ghost use Rattle.ir_program.specs.Lists.{regions_in};
ghost use Rattle.ir_program.specs.Program.{operation_at, block_at, region_at, results_at, arguments_at};
ghost use Rattle.ir_program.specs.Rows.{operands_at, successors_at};
ghost use Rattle.text_dialect.specs.Printed.{PrintsAs, block_name, label_front};
ghost use Rattle.text_dialect.specs.Seen.{seen};
ghost use Rattle.text_printing.specs.Added.{AddsResultList, AddsOperandNames, AddsEdge, AddsArgumentList, AddsOperationHead, AddsBlockHead, AddsOperation, AddsRegion, AddsBlock};
ghost use Rattle.text_printing.specs.PartPrinted.{PartPrinted, AddsOperationParts};
ghost use Rattle.text_printing.specs.Printing.{before_of, next_line};

use crate::values::{LISTS, print_part, print_type};
use crate::words::{Before, print_gap, print_line, print_literal, print_value};
use ir_context::{
    BlockCalls, ContainsBlocks, ContainsOperations, Context, OperandCalls, OperationCalls,
    SuccessorCalls,
};
use ir_print::{Directive, Part};
use ir_program::{BasicBlock, Operation, Ptr, Region};
use std::alloc::{AllocError, Global};
use text_dialect::TextDialect;

/// Regions, types and attributes stand in one another at most so deep in a text.
const DEEPEST: u32 = 64;

/// The text of an operation with all that stands in it, without a line end behind it.
///
/// What stands deeper than 64 regions, types and attributes in one another may be left out, as no text has it. Nothing is
/// promised of an operation that has no tree of texts.
///
/// # Errors
/// Without memory.
pub fn print_root<D: TextDialect>(
    alloc: Global,
    ctx: &Context<D>,
    root: Ptr<Operation>,
) -> Result<String, AllocError>
    requires { IsSome (operation_at ctx.now.program root) }
    ensures text { (tree : Entity (List ℕ)) → PrintsAs D.says (seen ctx.now) root tree → IsShallow 64 tree →
        IfOk result (λ text. string_bytes text ≡ layout D.formats tree) }
{
    let mut out = String::new(alloc);
    print_operation(alloc, ctx, &mut out, root, 0, DEEPEST)?;
    Ok(out)
}

/// The results of an operation, and the sign that sets them off from its id.
fn print_results<D: TextDialect>(
    ctx: &Context<D>,
    out: &mut String,
    op: Ptr<Operation>,
) -> Result<(), AllocError>
    requires { IsSome (operation_at ctx.now.program op) }
    ensures { OnOk result (AddsResultList D.says D.formats ctx.now.types.keys (results_at ctx.now.program op)
        (string_bytes out.old) (string_bytes out.new)) }
{
    let program = ctx.program();
    let count = program.result_count(op);
    if count == 0 {
        return Ok(());
    }
    let mut is_first = true;
    for index in 0..count {
        if !is_first {
            out.push_str(", ")?;
        }
        is_first = false;
        print_value(out, program.result(op, index))?;
    }
    out.push_str(" = ")?;
    Ok(())
}

/// The results of an operation, and the id of its kind.
fn print_operation_head<D: TextDialect>(
    ctx: &Context<D>,
    out: &mut String,
    op: Ptr<Operation>,
    kind: D::OpKind,
) -> Result<(), AllocError>
    requires { IsSome (operation_at ctx.now.program op) }
    ensures { OnOk result (AddsOperationHead D.says D.formats ctx.now.types.keys (results_at ctx.now.program op)
        (D.op_kind kind).id (string_bytes out.old) (string_bytes out.new)) }
{
    print_results(ctx, out, op)?;
    out.push_str(D::op_name(kind))
}

/// The operands from one on, up to another.
fn print_operands<D: TextDialect>(
    ctx: &Context<D>,
    out: &mut String,
    op: Ptr<Operation>,
    from: usize,
    to: usize,
) -> Result<(), AllocError>
    requires live { IsSome (operation_at ctx.now.program op) }
    requires ordered { from ≤ to }
    requires within { to ≤ length (operands_at ctx.now.program op) }
    ensures { OnOk result (AddsOperandNames (drop from (take to (operands_at ctx.now.program op)))
        (string_bytes out.old) (string_bytes out.new)) }
{
    let program = ctx.program();
    let mut is_first = true;
    for index in from..to {
        if !is_first {
            out.push_str(", ")?;
        }
        is_first = false;
        print_value(out, program.operand(op, index))?;
    }
    Ok(())
}

/// `LABEL_block1v1`: the label, where there is one, the slot from 1 and its version.
fn print_label<D: TextDialect>(
    ctx: &Context<D>,
    out: &mut String,
    block: Ptr<BasicBlock>,
) -> Result<(), AllocError>
    requires { IsSome (block_at ctx.now.program block) }
    ensures { OnOk result (IfSome (label_at ctx.now.program block) (λ label.
        string_bytes out.new ≡ string_bytes out.old ++ block_name (label_front label) block.key.slot block.key.version)) }
{
    if let Some(label) = block.label(ctx) {
        out.push_str(label.as_str())?;
        out.push_str("_")?;
    }
    // A slot may be any usize, and the one behind the last isn't.
    let slot = block.slot() as u128 + 1;
    let version = block.version();
    write!(out, "block{slot}v{version}")?;
    Ok(())
}

/// `^LABEL(v1, v2)`: the successor of an operation at an index, if there is one, and the operands that it hands on, from one on,
/// up to another.
fn print_successor<D: TextDialect>(
    ctx: &Context<D>,
    out: &mut String,
    op: Ptr<Operation>,
    index: usize,
    from: usize,
    to: usize,
) -> Result<(), AllocError>
    requires live { IsSome (operation_at ctx.now.program op) }
    requires ordered { from ≤ to }
    requires within { to ≤ length (operands_at ctx.now.program op) }
    ensures { OnOk result (AddsEdge D.says (seen ctx.now) (drop index (successors_at ctx.now.program op))
        (drop from (take to (operands_at ctx.now.program op))) (string_bytes out.old) (string_bytes out.new)) }
{
    if index >= op.get_num_successors(ctx) {
        return Ok(());
    }
    out.push_str("^")?;
    print_label(ctx, out, op.get_successor(ctx, index))?;
    out.push_str("(")?;
    print_operands(ctx, out, op, from, to)?;
    out.push_str(")")
}

/// The arguments of a block, with their types.
fn print_arguments<D: TextDialect>(
    alloc: Global,
    ctx: &Context<D>,
    out: &mut String,
    block: Ptr<BasicBlock>,
    left: u32,
) -> Result<(), AllocError>
    requires { IsSome (block_at ctx.now.program block) }
    ensures { OnOk result (AddsArgumentList D.says D.formats ctx.now.types.keys left
        (arguments_at ctx.now.program block) (string_bytes out.old) (string_bytes out.new)) }
{
    let program = ctx.program();
    let mut is_first = true;
    for index in 0..program.argument_count(block) {
        if !is_first {
            out.push_str(", ")?;
        }
        is_first = false;
        print_value(out, program.argument(block, index))?;
        out.push_str(": ")?;
        print_type(alloc, ctx, out, program.argument_type(block, index), left)?;
    }
    Ok(())
}

/// The label and the arguments of a block, from where its line begins.
fn print_block_head<D: TextDialect>(
    alloc: Global,
    ctx: &Context<D>,
    out: &mut String,
    block: Ptr<BasicBlock>,
    left: u32,
) -> Result<(), AllocError>
    requires { IsSome (block_at ctx.now.program block) }
    ensures { OnOk result (AddsBlockHead D.says (seen ctx.now) D.formats left block
        (arguments_at ctx.now.program block) (string_bytes out.old) (string_bytes out.new)) }
{
    out.push_str("^")?;
    print_label(ctx, out, block)?;
    out.push_str("(")?;
    print_arguments(alloc, ctx, out, block, left)?;
    out.push_str("):")
}

/// A line of its own for a sign, up to the sign.
fn print_sign_line(out: &mut String, indent: usize, sign: &str) -> Result<(), AllocError>
    ensures { OnOk result (string_bytes out.new ≡ string_bytes out.old ++ (line indent ++ sign.now)) }
{
    print_line(out, indent)?;
    out.push_str(sign)
}

/// What stands before the next operation of a block.
fn print_next_line(out: &mut String, is_first: bool, indent: usize) -> Result<(), AllocError>
    ensures { OnOk result (string_bytes out.new ≡ string_bytes out.old ++ next_line is_first indent) }
{
    if !is_first {
        out.push_str(";")?;
    }
    print_line(out, indent)
}

/// How far the format of an operation has been printed.
#[derive(Clone, Copy)]
struct Progress {
    before: Before,
    /// So many operands, edges and regions have been printed.
    operands: usize,
    successors: usize,
    regions: usize,
}

/// Behind a part that is printed.
fn behind_part(operands: usize, successors: usize, regions: usize) -> Progress
    ensures before { before_of result.before ≡ a_part }
    ensures operands { result.operands ≡ operands }
    ensures successors { result.successors ≡ successors }
    ensures regions { result.regions ≡ regions }
{
    Progress {
        before: Before::Part,
        operands,
        successors,
        regions,
    }
}

/// A part of an operation that is no region, and how far its format has been printed then.
fn print_flat_part<D: TextDialect>(
    alloc: Global,
    ctx: &Context<D>,
    out: &mut String,
    op: Ptr<Operation>,
    directive: Directive,
    part: &Part<D>,
    progress: Progress,
    left: u32,
) -> Result<Progress, AllocError>
    requires live { IsSome (operation_at ctx.now.program op) }
    requires flat { part.now ≡ piece.Region → ⊥ }
    ensures { IfOk result (λ after. (indent : ℕ) → PartPrinted D.says (seen ctx.now)
        (operands_at ctx.now.program op) (successors_at ctx.now.program op) (regions_in ctx.now.program op)
        left D.formats indent
        (step_of directive) part.now progress after (string_bytes out.old) (string_bytes out.new)) }
{
    let operands = progress.operands;
    let successors = progress.successors;
    if let Part::Operands(count) = part {
        let to = operands
            .saturating_add(*count)
            .min(op.get_num_operands(ctx));
        if operands >= to {
            return Ok(progress);
        }
        print_gap(out, progress.before)?;
        print_operands(ctx, out, op, operands, to)?;
        return Ok(behind_part(to, successors, progress.regions));
    }
    print_gap(out, progress.before)?;
    if let Part::Successor(count) = part {
        let to = operands
            .saturating_add(*count)
            .min(op.get_num_operands(ctx));
        let next = successors.saturating_add(1).min(op.get_num_successors(ctx));
        print_successor(ctx, out, op, successors, operands.min(to), to)?;
        return Ok(behind_part(to, next, progress.regions));
    }
    print_part(alloc, ctx, out, directive, part, left, LISTS)?;
    Ok(behind_part(operands, successors, progress.regions))
}

/// The next region of an operation, unless none is left or it would be too deep.
fn next_region<D: TextDialect>(
    ctx: &Context<D>,
    op: Ptr<Operation>,
    regions: usize,
    left: u32,
) -> Option<Ptr<Region>>
    requires { IsSome (operation_at ctx.now.program op) }
    ensures region { MatchOption result ((left ≡ 0) ⊎ (length (regions_in ctx.now.program op) ≤ regions))
        (λ region. slice_get (regions_in ctx.now.program op) regions ≡ Some region) }
    ensures live { IfSome result (λ region. IsSome (region_at ctx.now.program region)) }
    ensures deep { IfSome result (λ _. 0 < left) }
    ensures few { IfSome result (λ _. regions + 1 < 2 ^ 64) }
{
    if left == 0 || regions >= op.num_regions(ctx) {
        return None;
    }
    Some(op.get_region(ctx, regions))
}

/// An operation, from where its line begins, where `left` regions, types and attributes may stand in one another.
#[cycle(operations)]
fn print_operation<D: TextDialect>(
    alloc: Global,
    ctx: &Context<D>,
    out: &mut String,
    op: Ptr<Operation>,
    indent: usize,
    left: u32,
) -> Result<(), AllocError>
    requires live { IsSome (operation_at ctx.now.program op) }
    requires narrow { indent + 4 * left < 2 ^ 60 }
    ensures { OnOk result (AddsOperation D.says (seen ctx.now) D.formats indent left op
        (string_bytes out.old) (string_bytes out.new)) }
{
    let kind = op.kind(ctx);
    print_operation_head(ctx, out, op, kind)?;
    let parts = D::operation_parts(alloc, ctx, op)?;
    print_operation_parts(
        alloc,
        ctx,
        out,
        op,
        D::op_format(kind),
        &parts,
        indent,
        left,
    )
}

/// What an operation says behind its id: the parts, at the directives of the format.
#[cycle(operations)]
fn print_operation_parts<D: TextDialect>(
    alloc: Global,
    ctx: &Context<D>,
    out: &mut String,
    op: Ptr<Operation>,
    format: &[Directive],
    parts: &[Part<D>],
    indent: usize,
    left: u32,
) -> Result<(), AllocError>
    requires live { IsSome (operation_at ctx.now.program op) }
    requires narrow { indent + 4 * left < 2 ^ 60 }
    ensures { OnOk result (AddsOperationParts D.says (seen ctx.now)
        (operands_at ctx.now.program op) (successors_at ctx.now.program op) (regions_in ctx.now.program op)
        left D.formats indent
        (steps_of format.now) parts.now (string_bytes out.old) (string_bytes out.new)) }
{
    let mut progress = Progress {
        before: Before::Id,
        operands: 0,
        successors: 0,
        regions: 0,
    };
    let mut next = 0;
    for directive in format {
        if let Directive::Literal(text) = directive {
            print_literal(out, progress.before, text)?;
            progress.before = Before::Literal;
            continue;
        }
        if let Some(part) = parts.get(next) {
            progress = print_operation_part(
                alloc, ctx, out, op, *directive, part, progress, indent, left,
            )?;
            next += 1;
        }
    }
    Ok(())
}

/// A part of an operation, and how far its format has been printed then.
#[cycle(operations)]
fn print_operation_part<D: TextDialect>(
    alloc: Global,
    ctx: &Context<D>,
    out: &mut String,
    op: Ptr<Operation>,
    directive: Directive,
    part: &Part<D>,
    progress: Progress,
    indent: usize,
    left: u32,
) -> Result<Progress, AllocError>
    requires live { IsSome (operation_at ctx.now.program op) }
    requires narrow { indent + 4 * left < 2 ^ 60 }
    ensures { IfOk result (λ after. PartPrinted D.says (seen ctx.now)
        (operands_at ctx.now.program op) (successors_at ctx.now.program op) (regions_in ctx.now.program op)
        left D.formats indent
        (step_of directive) part.now progress after (string_bytes out.old) (string_bytes out.new)) }
{
    if let Part::Region = part {
        print_gap(out, progress.before)?;
        let Some(region) = next_region(ctx, op, progress.regions, left) else {
            return Ok(behind_part(progress.operands, progress.successors, progress.regions));
        };
        print_region(alloc, ctx, out, region, indent, left - 1)?;
        return Ok(behind_part(progress.operands, progress.successors, progress.regions + 1));
    }
    print_flat_part(alloc, ctx, out, op, directive, part, progress, left)
}

/// A region, from the end of the line on which its operation stands.
#[cycle(operations)]
fn print_region<D: TextDialect>(
    alloc: Global,
    ctx: &Context<D>,
    out: &mut String,
    region: Ptr<Region>,
    indent: usize,
    left: u32,
) -> Result<(), AllocError>
    requires live { IsSome (region_at ctx.now.program region) }
    requires narrow { indent + 4 * left + 4 < 2 ^ 60 }
    ensures { OnOk result (AddsRegion D.says (seen ctx.now) D.formats indent left region
        (string_bytes out.old) (string_bytes out.new)) }
{
    print_sign_line(out, indent, "{")?;
    for block in region.iter(ctx) {
        print_line(out, indent + 2)?;
        print_block(alloc, ctx, out, block, indent + 2, left)?;
    }
    print_sign_line(out, indent, "}")
}

/// A block, from where its line begins.
#[cycle(operations)]
fn print_block<D: TextDialect>(
    alloc: Global,
    ctx: &Context<D>,
    out: &mut String,
    block: Ptr<BasicBlock>,
    indent: usize,
    left: u32,
) -> Result<(), AllocError>
    requires live { IsSome (block_at ctx.now.program block) }
    requires narrow { indent + 4 * left + 2 < 2 ^ 60 }
    ensures { OnOk result (AddsBlock D.says (seen ctx.now) D.formats indent left block
        (string_bytes out.old) (string_bytes out.new)) }
{
    print_block_head(alloc, ctx, out, block, left)?;
    let mut is_first = true;
    for op in block.iter(ctx) {
        print_next_line(out, is_first, indent + 2)?;
        is_first = false;
        print_operation(alloc, ctx, out, op, indent + 2, left)?;
    }
    Ok(())
}
