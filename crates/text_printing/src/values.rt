//! The texts of types and attributes.
ghost use Rattle.std.specs.Prelude.{OnOk};
ghost use Rattle.std.specs.String.{string_bytes};
ghost use Rattle.ir_print.specs.Formats.{choices_of, step_of, steps_of};
ghost use Rattle.text_printing.specs.Added.{AddsType, AddsAttribute, AddsParts, AddsPart, AddsChoice, AddsMembers};
ghost use Rattle.text_printing.specs.Printing.{before_of};

use crate::words::{Before, print_gap, print_leaf, print_literal};
use ir_context::Context;
use ir_names::TypeHandle;
use ir_print::{Directive, Part};
use std::alloc::{AllocError, Global};
use text_dialect::TextDialect;

/// Lists and choices stand in one another at most so deep in a format.
pub(crate) const LISTS: u32 = 64;

/// A type, where `left` types and attributes may stand in one another from here on.
#[cycle(values)]
pub(crate) fn print_type<D: TextDialect>(
    alloc: Global,
    ctx: &Context<D>,
    out: &mut String,
    ty: TypeHandle,
    left: u32,
) -> Result<(), AllocError>
    ensures { OnOk result (AddsType D.says D.formats ctx.now.types.keys left ty
        (string_bytes out.old) (string_bytes out.new)) }
{
    let Some(key) = ctx.type_key(ty) else {
        out.push_str("?")?;
        return Ok(());
    };
    if left == 0 {
        return Ok(());
    }
    let kind = D::type_kind(key);
    out.push_str(D::type_name(kind))?;
    let parts = D::type_parts(alloc, key)?;
    print_parts(
        alloc,
        ctx,
        out,
        D::type_format(kind),
        &parts,
        Before::Id,
        left - 1,
        LISTS,
    )
}

/// An attribute, where `left` types and attributes may stand in one another from here on.
#[cycle(values)]
fn print_attribute<D: TextDialect>(
    alloc: Global,
    ctx: &Context<D>,
    out: &mut String,
    attr: &D::Attr,
    left: u32,
) -> Result<(), AllocError>
    ensures { OnOk result (AddsAttribute D.says D.formats ctx.now.types.keys left attr.now
        (string_bytes out.old) (string_bytes out.new)) }
{
    if left == 0 {
        return Ok(());
    }
    let kind = D::attr_kind(attr);
    out.push_str(D::attr_name(kind))?;
    let parts = D::attr_parts(alloc, attr)?;
    print_parts(
        alloc,
        ctx,
        out,
        D::attr_format(kind),
        &parts,
        Before::Id,
        left - 1,
        LISTS,
    )
}

/// The parts of a type or an attribute, or of a member of a list or a choice in one; `lists` lists and choices may stand in one
/// another from here on.
#[cycle(values)]
fn print_parts<D: TextDialect>(
    alloc: Global,
    ctx: &Context<D>,
    out: &mut String,
    format: &[Directive],
    parts: &[Part<D>],
    from: Before,
    left: u32,
    lists: u32,
) -> Result<(), AllocError>
    ensures { OnOk result (AddsParts D.says D.formats ctx.now.types.keys left lists
        (before_of from) (steps_of format.now) parts.now (string_bytes out.old) (string_bytes out.new)) }
{
    let mut before = from;
    let mut next = 0;
    for directive in format {
        if let Directive::Literal(text) = directive {
            print_literal(out, before, text)?;
            before = Before::Literal;
            continue;
        }
        if let Some(part) = parts.get(next) {
            print_gap(out, before)?;
            print_part(alloc, ctx, out, *directive, part, left, lists)?;
            before = Before::Part;
            next += 1;
        }
    }
    Ok(())
}

/// A part, at the directive of its format that it stands for. Operands, edges and regions are printed with their
/// operation.
#[cycle(values)]
pub(crate) fn print_part<D: TextDialect>(
    alloc: Global,
    ctx: &Context<D>,
    out: &mut String,
    directive: Directive,
    part: &Part<D>,
    left: u32,
    lists: u32,
) -> Result<(), AllocError>
    ensures { OnOk result (AddsPart D.says D.formats ctx.now.types.keys left lists
        (step_of directive) part.now (string_bytes out.old) (string_bytes out.new)) }
{
    match part {
        Part::Leaf(leaf) => print_leaf(out, directive, leaf)?,
        Part::Type(ty) => print_type(alloc, ctx, out, *ty, left)?,
        Part::Attribute(attr) => print_attribute(alloc, ctx, out, attr, left)?,
        Part::List(members) => {
            if let Directive::List(member, separator) = directive {
                if lists > 0 {
                    print_list(alloc, ctx, out, member, separator, members, left, lists - 1)?;
                }
            }
        }
        Part::Choice(number, parts) => {
            if let Directive::Choice(alternatives) = directive {
                if lists > 0 {
                    print_choice(
                        alloc,
                        ctx,
                        out,
                        alternatives,
                        *number,
                        parts,
                        left,
                        lists - 1,
                    )?;
                }
            }
        }
        Part::Operands(_) => {}
        Part::Successor(_) => {}
        Part::Region => {}
    }
    Ok(())
}

/// What the format with a number says, of those of a choice.
#[cycle(values)]
fn print_choice<D: TextDialect>(
    alloc: Global,
    ctx: &Context<D>,
    out: &mut String,
    alternatives: &[&[Directive]],
    number: usize,
    parts: &[Part<D>],
    left: u32,
    lists: u32,
) -> Result<(), AllocError>
    ensures { OnOk result (AddsChoice D.says D.formats ctx.now.types.keys left lists
        (choices_of alternatives.now) number parts.now (string_bytes out.old) (string_bytes out.new)) }
{
    match alternatives.get(number) {
        Some(format) => print_parts(
            alloc,
            ctx,
            out,
            *format,
            parts,
            Before::Literal,
            left,
            lists,
        ),
        None => Ok(()),
    }
}

/// The members of a list, with the separator between two.
#[cycle(values)]
fn print_list<D: TextDialect>(
    alloc: Global,
    ctx: &Context<D>,
    out: &mut String,
    member: &[Directive],
    separator: &str,
    members: &[Vec<Part<D>>],
    left: u32,
    lists: u32,
) -> Result<(), AllocError>
    ensures { OnOk result (AddsMembers D.says D.formats ctx.now.types.keys left lists
        (steps_of member.now) separator.now members.now (string_bytes out.old) (string_bytes out.new)) }
{
    let mut is_first = true;
    for parts in members {
        if !is_first {
            out.push_str(separator)?;
        }
        is_first = false;
        print_parts(alloc, ctx, out, member, parts, Before::Literal, left, lists)?;
    }
    Ok(())
}
