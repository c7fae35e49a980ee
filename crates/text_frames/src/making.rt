//! What is made of what a text says.
ghost use Rattle.std.specs.Prelude.{◌≡◌, ◌↔◌, ℕ, length, IfOk, None, Some, Err, true, false};
ghost use Rattle.ir_characters.specs.Texts.{codes_of};
ghost use Rattle.ir_names.specs.declared.identifier.Identifier.{Identifier};
ghost use Rattle.ir_names.specs.Identifier.{text_of, invalid};
ghost use Rattle.ir_names.specs.Text.{is_identifier};
ghost use Rattle.ir_names.specs.Tree.{node};
ghost use Rattle.ir_forest.specs.Meaning.{leaf_in};
ghost use Rattle.ir_print.specs.Pieces.{Pieces, value_of_kind};
ghost use Rattle.ir_print.specs.Shown.{IsLeaf, ShowsParts, ShowsType, ShowsAttribute, Drafts};
ghost use Rattle.ir_print.specs.declared.format.LeafValue.{LeafValue};
ghost use Rattle.ir_print.specs.declared.format.ValueSort.TheVariants as sorts;
ghost use Rattle.ir_types.specs.Interned.{KeepsTypes};
ghost use Rattle.text_dialect.specs.declared.dialect.MakeFault.TheVariants.{Refused};
ghost use Rattle.text_frames.specs.Makes.{IsSpelled, types_in};

use crate::source::{mark_of, number_of, string_of, unsigned_of, width_of};
use ir_characters::Text;
use ir_context::Context;
use ir_names::{Identifier, IdentifierError, InvalidIdentifier, TypeHandle};
use ir_print::{LeafSort, LeafValue, Part};
use std::alloc::{AllocError, Global};
use text_dialect::{MakeFault, OperationDraft, TextDialect};

/// The type of these parts, of the kind with a number, or the first part that is refused.
pub fn make_type<D: TextDialect>(
    alloc: Global,
    ctx: &mut Context<D>,
    kind: u8,
    parts: &[Part<D>],
) -> Result<TypeHandle, MakeFault>
    ensures program { ctx.new.program ≡ ctx.old.program }
    ensures types { KeepsTypes ctx.old.types ctx.new.types }
    ensures made { (ps : Pieces) → ShowsParts D.says ctx.old.types.keys parts.now ps → IfOk result (λ ty.
        (D.values.refused_type kind ps ≡ None)
        × ShowsType D.says ctx.new.types.keys ty (node (value_of_kind sorts.«Type» kind) ps)) }
    ensures refused { (ps : Pieces) → ShowsParts D.says ctx.old.types.keys parts.now ps → (i : ℕ)
        → result ≡ Err (Refused i) → D.values.refused_type kind ps ≡ Some i }
{
    let Some(found) = D::type_kind_at(kind as usize) else {
        return Err(MakeFault::Refused(0));
    };
    let key = D::make_type(alloc, found, parts)?;
    let ty = ctx.instantiate_key(alloc, key)?;
    Ok(ty)
}

/// The attribute of these parts, of the kind with a number, or the first part that is refused.
pub fn make_attribute<D: TextDialect>(
    alloc: Global,
    ctx: &mut Context<D>,
    kind: u8,
    parts: &[Part<D>],
) -> Result<D::Attr, MakeFault>
    ensures program { ctx.new.program ≡ ctx.old.program }
    ensures types { KeepsTypes ctx.old.types ctx.new.types }
    ensures made { (ps : Pieces) → ShowsParts D.says ctx.old.types.keys parts.now ps → IfOk result (λ attr.
        (D.values.refused_attribute kind ps ≡ None)
        × ShowsAttribute D.says ctx.new.types.keys attr (node (value_of_kind sorts.Attribute kind) (D.values.canonical kind ps))) }
    ensures refused { (ps : Pieces) → ShowsParts D.says ctx.old.types.keys parts.now ps → (i : ℕ)
        → result ≡ Err (Refused i) → D.values.refused_attribute kind ps ≡ Some i }
{
    let Some(found) = D::attr_kind_at(kind as usize) else {
        return Err(MakeFault::Refused(0));
    };
    D::make_attr(alloc, ctx, found, parts)
}

/// How many results an operation of these parts has, of the kind with a number.
pub fn results_of<D: TextDialect>(ctx: &Context<D>, kind: u8, parts: &[Part<D>]) -> usize
    ensures { (ps : Pieces) → ShowsParts D.says ctx.now.types.keys parts.now ps
        → result ≡ length (D.values.result_types kind ps) }
{
    match D::op_kind_at(kind as usize) {
        Some(found) => D::num_results(ctx, found, parts),
        None => 0,
    }
}

/// The kind with a number, and what an operation of it and of these parts is made with, or the first part that is
/// refused.
pub fn draft_of<D: TextDialect>(
    alloc: Global,
    ctx: &mut Context<D>,
    kind: u8,
    parts: &[Part<D>],
) -> Result<(D::OpKind, OperationDraft<D>), MakeFault>
    ensures program { ctx.new.program ≡ ctx.old.program }
    ensures types { KeepsTypes ctx.old.types ctx.new.types }
    ensures made { (ps : Pieces) → ShowsParts D.says ctx.old.types.keys parts.now ps → IfOk result (λ r.
        (D.values.refused_operation kind ps ≡ None) × (D.kind_at kind ≡ Some r.0)
        × Drafts D.says ctx.new.types.keys D.values r.0 kind ps r.1.attributes r.1.result_types.items) }
    ensures refused { (ps : Pieces) → ShowsParts D.says ctx.old.types.keys parts.now ps → (i : ℕ)
        → result ≡ Err (Refused i) → D.values.refused_operation kind ps ≡ Some i }
{
    let Some(found) = D::op_kind_at(kind as usize) else {
        return Err(MakeFault::Refused(0));
    };
    let draft = D::make_operation(alloc, ctx, found, parts)?;
    Ok((found, draft))
}

/// The identifier that a text is.
fn identifier_of(alloc: Global, text: Text) -> Result<Identifier, IdentifierError>
    ensures text { IfOk result (λ id. text_of id ≡ codes_of text.entry) }
    ensures invalid { (result ≡ invalid) ↔ (is_identifier (codes_of text.entry) ≡ false) }
{
    match text {
        Text::Bytes(bytes) => match std::str::from_utf8(bytes) {
            Ok(string) => Identifier::try_new(alloc, string),
            Err(_) => Err(IdentifierError::Invalid(InvalidIdentifier)),
        },
        Text::Characters(characters) => Identifier::from_chars(alloc, characters),
    }
}

/// The label that a token is.
pub fn label_of(alloc: Global, text: Text) -> Result<Option<Identifier>, AllocError>
    ensures { is_identifier (codes_of text.entry) ≡ true
        → IfOk result (λ label. (id : Identifier) × (label ≡ Some id) × (text_of id ≡ codes_of text.entry)) }
{
    match identifier_of(alloc, text) {
        Ok(label) => Ok(Some(label)),
        Err(IdentifierError::Memory) => Err(AllocError),
        Err(_) => Ok(None),
    }
}

/// What a token says that is a leaf of a sort. There is none where it should be a name and isn't.
pub fn leaf_of(alloc: Global, sort: LeafSort, text: Text) -> Result<Option<LeafValue>, AllocError>
    ensures { IsSpelled (leaf_in sort (codes_of text.entry)) → IfOk result (λ leaf. (l : LeafValue)
        × (leaf ≡ Some l) × IsLeaf l (leaf_in sort (codes_of text.entry))) }
{
    match sort {
        LeafSort::Name => Ok(label_of(alloc, text)?.map(LeafValue::Name)),
        LeafSort::Number => Ok(Some(LeafValue::Number(number_of(text)))),
        LeafSort::Digits => Ok(Some(LeafValue::Digits(unsigned_of(text)))),
        LeafSort::Width => {
            let (signedness, width) = width_of(text);
            Ok(Some(LeafValue::Width(signedness, width)))
        }
        LeafSort::Text => Ok(Some(LeafValue::Text(string_of(alloc, text)?))),
        LeafSort::Mark => Ok(Some(LeafValue::Mark(mark_of(text)))),
    }
}

/// The types among parts.
pub fn types_of<D: TextDialect>(
    alloc: Global,
    parts: &[Part<D>],
) -> Result<Vec<TypeHandle>, AllocError>
    ensures { IfOk result (λ types. types.items ≡ types_in parts.now) }
{
    let mut types = Vec::new(alloc);
    for part in parts {
        if let Part::Type(ty) = part {
            types.push(*ty)?;
        }
    }
    Ok(types)
}
