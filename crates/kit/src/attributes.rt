//! Attributes, made of parts and as parts.
ghost use Rattle.std.specs.Prelude.{◌≡◌, ℕ, List, Some, None, Err, IfOk, string_bytes};
ghost use Rattle.ir_names.specs.Tree.{node};
ghost use Rattle.ir_print.specs.Pieces.{Pieces, value_of_kind};
ghost use Rattle.ir_print.specs.declared.format.ValueSort.TheVariants as sorts;
ghost use Rattle.ir_print.specs.Shown.{ShowsParts, ShowsAttribute};
ghost use Rattle.ir_types.specs.Interned.{KeepsTypes};
ghost use Rattle.text_dialect.specs.Making as made;
ghost use Rattle.text_dialect.specs.declared.dialect.MakeFault.TheVariants.{Refused};
ghost use Rattle.kit_ops.specs.declared.types.KitType.{KitType};
ghost use Rattle.kit_ops.specs.declared.attributes.KitAttr.TheVariants.{Integer};
ghost use Rattle.kit.specs.Forms.{read_attrs};
ghost use Rattle.kit.specs.Making.{MakesAttributeOfKind, RefusesAttributeOfKind};
ghost use Rattle.kit.specs.Parts.{HasPartsOf, AreTextParts};
ghost use Rattle.kit.specs.Says.{says, values, refused_attribute, canonical};

use crate::dialect::Kit;
use crate::numbers::{bits_of, has_values, number_of};
use crate::parts::{
    integer_in, members_in, name_in, name_list, names_in, number_in, size_list, sizes_in, text_in,
    type_in,
};
use ir_context::Context;
use ir_print::{LeafValue, Part};
use kit_ops::{IntegerAttr, KitAttr, KitAttrKind, KitType};
use std::alloc::{AllocError, Global};
use text_dialect::MakeFault;

/// An integer of its number and its type.
fn make_integer(
    alloc: Global,
    ctx: &mut Context<Kit>,
    parts: &[Part<Kit>],
) -> Result<KitAttr, MakeFault>
    ensures program { ctx.new.program ≡ ctx.old.program }
    ensures types { KeepsTypes ctx.old.types ctx.new.types }
    ensures made { (types new : List KitType) → (ps : Pieces) → ShowsParts says types parts.now ps
        → IfOk result (λ attr. (refused_attribute 0 ps ≡ None)
        × ShowsAttribute says new attr (node (value_of_kind sorts.Attribute 0) (canonical 0 ps))) }
    ensures refused { (types : List KitType) → (ps : Pieces) → ShowsParts says types parts.now ps → (i : ℕ)
        → result ≡ Err (Refused i) → refused_attribute 0 ps ≡ Some i }
{
    if parts.len() != 2 {
        return Err(MakeFault::Refused(0));
    }
    let Some(integer) = integer_in(&parts[1]) else {
        return Err(MakeFault::Refused(1));
    };
    if !has_values(integer) {
        return Err(MakeFault::Refused(1));
    }
    let Some(number) = number_in(&parts[0]) else {
        return Err(MakeFault::Refused(0));
    };
    let Some(bits) = bits_of(integer, number) else {
        return Err(MakeFault::Refused(0));
    };
    let ty = ctx.instantiate_key(alloc, KitType::Integer(integer))?;
    Ok(KitAttr::Integer(IntegerAttr { ty, integer, bits }))
}

/// A name.
fn make_identifier(parts: &[Part<Kit>]) -> Result<KitAttr, MakeFault>
    ensures made { IfOk result (λ attr. MakesAttributeOfKind 1 parts.now attr) }
    ensures refused { (i : ℕ) → result ≡ Err (Refused i) → RefusesAttributeOfKind 1 parts.now i }
{
    let Some(name) = name_in(parts) else {
        return Err(MakeFault::Refused(0));
    };
    Ok(KitAttr::Identifier(name.try_clone()?))
}

/// A type.
fn make_type(parts: &[Part<Kit>]) -> Result<KitAttr, MakeFault>
    ensures made { IfOk result (λ attr. MakesAttributeOfKind 2 parts.now attr) }
    ensures refused { (i : ℕ) → result ≡ Err (Refused i) → RefusesAttributeOfKind 2 parts.now i }
{
    let Some(ty) = type_in(parts) else {
        return Err(MakeFault::Refused(0));
    };
    Ok(KitAttr::Type(ty))
}

/// Sizes of segments, which have at most 32 bits.
fn make_sizes(alloc: Global, parts: &[Part<Kit>]) -> Result<KitAttr, MakeFault>
    ensures made { IfOk result (λ attr. MakesAttributeOfKind 3 parts.now attr) }
    ensures refused { (i : ℕ) → result ≡ Err (Refused i) → RefusesAttributeOfKind 3 parts.now i }
{
    let Some(members) = members_in(parts) else {
        return Err(MakeFault::Refused(0));
    };
    match sizes_in(alloc, members) {
        Ok(sizes) => Ok(KitAttr::SegmentSizes(sizes)),
        Err(fault) => Err(fault),
    }
}

/// Names, some of which aren't given.
fn make_names(alloc: Global, parts: &[Part<Kit>]) -> Result<KitAttr, MakeFault>
    ensures made { IfOk result (λ attr. MakesAttributeOfKind 4 parts.now attr) }
    ensures refused { (i : ℕ) → result ≡ Err (Refused i) → RefusesAttributeOfKind 4 parts.now i }
{
    let Some(members) = members_in(parts) else {
        return Err(MakeFault::Refused(0));
    };
    match names_in(alloc, members) {
        Ok(names) => Ok(KitAttr::GivenNames(names)),
        Err(fault) => Err(fault),
    }
}

/// A note.
fn make_note(parts: &[Part<Kit>]) -> Result<KitAttr, MakeFault>
    ensures made { IfOk result (λ attr. MakesAttributeOfKind 5 parts.now attr) }
    ensures refused { (i : ℕ) → result ≡ Err (Refused i) → RefusesAttributeOfKind 5 parts.now i }
{
    let Some(text) = text_in(parts) else {
        return Err(MakeFault::Refused(0));
    };
    Ok(KitAttr::Note(text.clone()?))
}

/// Where an operation comes from.
fn make_origin(parts: &[Part<Kit>]) -> Result<KitAttr, MakeFault>
    ensures made { IfOk result (λ attr. MakesAttributeOfKind 6 parts.now attr) }
    ensures refused { (i : ℕ) → result ≡ Err (Refused i) → RefusesAttributeOfKind 6 parts.now i }
{
    let Some(text) = text_in(parts) else {
        return Err(MakeFault::Refused(0));
    };
    Ok(KitAttr::Origin(text.clone()?))
}

/// The attribute of these parts, or the first part that is refused. The type of an integer is interned.
///
/// # Errors
/// `Refused` with the number of the part, and `Memory`.
pub(crate) fn make_attribute(
    alloc: Global,
    ctx: &mut Context<Kit>,
    kind: KitAttrKind,
    parts: &[Part<Kit>],
) -> Result<KitAttr, MakeFault>
    ensures program { ctx.new.program ≡ ctx.old.program }
    ensures types { KeepsTypes ctx.old.types ctx.new.types }
    ensures made { IfOk result
        (made.MakesAttribute says values read_attrs kind ctx.old.types.keys ctx.new.types.keys parts.now) }
    ensures refused { (i : ℕ) → result ≡ Err (Refused i)
        → made.RefusesAttribute says values read_attrs kind ctx.old.types.keys parts.now i }
{
    match kind {
        KitAttrKind::Integer => make_integer(alloc, ctx, parts),
        KitAttrKind::Identifier => make_identifier(parts),
        KitAttrKind::Type => make_type(parts),
        KitAttrKind::SegmentSizes => make_sizes(alloc, parts),
        KitAttrKind::GivenNames => make_names(alloc, parts),
        KitAttrKind::Note => make_note(parts),
        KitAttrKind::Origin => make_origin(parts),
    }
}

/// The number and the width of an integer.
fn integer_parts(alloc: Global, integer: IntegerAttr) -> Result<Vec<Part<Kit>>, AllocError>
    ensures { IfOk result (λ parts. HasPartsOf (Integer integer) parts.items) }
{
    let number = Part::Leaf(LeafValue::Number(Some(number_of(integer))));
    let width = Part::Leaf(LeafValue::Width(
        integer.integer.signedness,
        Some(integer.integer.width),
    ));
    Ok(vec![in alloc; number, width]?)
}

/// A text in quotes, as parts.
fn text_parts(alloc: Global, text: &String) -> Result<Vec<Part<Kit>>, AllocError>
    ensures { IfOk result (λ parts. AreTextParts (string_bytes text.now) parts.items) }
{
    let text = Part::Leaf(LeafValue::Text(text.clone()?));
    Ok(vec![in alloc; text]?)
}

/// The parts of an attribute.
pub(crate) fn attribute_parts(alloc: Global, attr: &KitAttr) -> Result<Vec<Part<Kit>>, AllocError>
    ensures { (types : List KitType) → (n : ℕ) → (ps : Pieces)
        → ShowsAttribute says types attr.now (node (value_of_kind sorts.Attribute n) ps)
        → IfOk result (λ parts. ShowsParts says types parts.items ps) }
{
    match attr {
        KitAttr::Integer(integer) => integer_parts(alloc, *integer),
        KitAttr::Identifier(name) => {
            let name = Part::Leaf(LeafValue::Name(name.try_clone()?));
            Ok(vec![in alloc; name]?)
        }
        KitAttr::Type(ty) => Ok(vec![in alloc; Part::Type(*ty)]?),
        KitAttr::SegmentSizes(sizes) => Ok(vec![in alloc; size_list(alloc, sizes)?]?),
        KitAttr::GivenNames(names) => Ok(vec![in alloc; name_list(alloc, names)?]?),
        KitAttr::Note(text) => text_parts(alloc, text),
        KitAttr::Origin(text) => text_parts(alloc, text),
    }
}
