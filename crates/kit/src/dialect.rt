//! The dialect `kit`.
ghost use Rattle.std.specs.Prelude.{◌≡◌, IfOk, map, option_map};
ghost use Rattle.ir_names.specs.Identifier.{text_of};

use ir_names::{
    AttrId, AttrInterface, AttrName, DialectName, Dialects, Identifier, OpId, OpInterface, OpName,
    RegionKind, TypeHandle, TypeId, TypeInterface, TypeName,
};
use ir_types::DialectTables;
use kit_ops::{FunctionType, KitAttr, KitAttrKind, KitLocation, KitOp, KitType, KitTypeKind, keys};
use std::alloc::{AllocError, Global};

/// The dialect.
#[derive(Clone, Copy, Debug)]
pub struct Kit;

/// What types have beside their keys, and what a context keeps once: nothing.
#[derive(Clone, Copy, Debug, PartialEq, Eq, Hash)]
pub struct Unused;

/// The same name, if there is one.
fn clone_name(name: &Option<Identifier>) -> Result<Option<Identifier>, AllocError>
    ensures { IfOk result (λ copy. option_map text_of copy ≡ option_map text_of name.now) }
{
    match name {
        Some(name) => Ok(Some(name.try_clone()?)),
        None => Ok(None),
    }
}

/// Names with the same texts.
fn clone_names(
    alloc: Global,
    names: &[Option<Identifier>],
) -> Result<Vec<Option<Identifier>>, AllocError>
    ensures { IfOk result (λ copy. map (option_map text_of) copy.items ≡ map (option_map text_of) names.now) }
{
    let mut copy = Vec::new(alloc);
    for name in names {
        copy.push(clone_name(name)?)?;
    }
    Ok(copy)
}

impl Dialects for Kit {
    type OpKind = KitOp;

    type Attr = KitAttr;

    type TypeKey = KitType;

    fn clone_attr(alloc: Global, attr: &KitAttr) -> Result<KitAttr, AllocError> {
        match attr {
            KitAttr::Integer(integer) => Ok(KitAttr::Integer(*integer)),
            KitAttr::Identifier(name) => Ok(KitAttr::Identifier(name.try_clone()?)),
            KitAttr::Type(ty) => Ok(KitAttr::Type(*ty)),
            KitAttr::SegmentSizes(sizes) => {
                Ok(KitAttr::SegmentSizes(Vec::from_slice(alloc, sizes)?))
            }
            KitAttr::GivenNames(names) => Ok(KitAttr::GivenNames(clone_names(alloc, names)?)),
            KitAttr::Note(text) => Ok(KitAttr::Note(text.clone()?)),
            KitAttr::Origin(text) => Ok(KitAttr::Origin(text.clone()?)),
        }
    }

    fn attr_type(attr: &KitAttr) -> Option<TypeHandle> {
        match attr {
            KitAttr::Integer(integer) => Some(integer.ty),
            _ => None,
        }
    }
}

impl DialectTables for Kit {
    ghost use Rattle.std.specs.Prelude.{refl};
    ghost use Rattle.kit_ops.specs.declared.attributes.KitLocation.TheVariants.{Unknown};
    ghost use Rattle.kit_ops.specs.Keys.{given_names};
    ghost use Rattle.kit_ops.specs.Kinds.{op_names, type_names, attr_names, type_kind, attr_kind, attr_type};
    ghost use Rattle.kit_ops.specs.Kinds.{type_implements, attr_implements, region_order, held_names};
    ghost use Rattle.kit_ops.specs.Table.{has_interface};
    ghost use Rattle.kit.specs.Alike as alike;
    ghost use Rattle.kit.specs.Ids as ids;
    ghost use Rattle.kit.specs.Parents as parents;

    type TypeKind = KitTypeKind;

    type AttrKind = KitAttrKind;

    type TypeBody = Unused;

    type Saved = Unused;

    type Location = KitLocation;

    ghost op_text = { op_names };

    ghost type_text = { type_names };

    ghost attr_text = { attr_names };

    ghost kind_of_type = { type_kind };

    ghost kind_of_attr = { attr_kind };

    ghost type_of_attr = { attr_type };

    ghost op_has = { has_interface };

    ghost type_has = { λ t. type_implements (type_kind t) };

    ghost attr_has = { λ a. attr_implements (attr_kind a) };

    ghost order = { λ kind _. region_order kind };

    ghost nowhere = { Unknown };

    ghost names = { given_names };

    ghost names_in = { held_names };

    fn unknown_location() -> KitLocation {
        KitLocation::Unknown
    }

    fn op_id(kind: KitOp) -> OpId {
        let row = kind.row();
        OpId {
            dialect: DialectName::new(row.dialect),
            name: OpName::new(row.name),
        }
    }

    fn type_id(kind: KitTypeKind) -> TypeId {
        let name = match kind {
            KitTypeKind::Integer => "integer",
            KitTypeKind::Function => "function",
            KitTypeKind::Unit => "unit",
        };
        TypeId {
            dialect: DialectName::new("builtin"),
            name: TypeName::new(name),
        }
    }

    fn attr_id(kind: KitAttrKind) -> AttrId {
        let (dialect, name) = match kind {
            KitAttrKind::Integer => ("builtin", "integer"),
            KitAttrKind::Identifier => ("builtin", "identifier"),
            KitAttrKind::Type => ("builtin", "type"),
            KitAttrKind::SegmentSizes => ("builtin", "operand_segment_sizes"),
            KitAttrKind::GivenNames => ("builtin", "given_names"),
            KitAttrKind::Note => ("kit", "note"),
            KitAttrKind::Origin => ("kit", "origin"),
        };
        AttrId {
            dialect: DialectName::new(dialect),
            name: AttrName::new(name),
        }
    }

    fn type_kind(key: &KitType) -> KitTypeKind {
        key.kind()
    }

    fn attr_kind(attr: &KitAttr) -> KitAttrKind {
        attr.kind()
    }

    fn type_of(attr: &KitAttr) -> Option<TypeHandle> {
        match attr {
            KitAttr::Integer(integer) => Some(integer.ty),
            _ => None,
        }
    }

    fn op_implements(kind: KitOp, interface: OpInterface) -> bool {
        kind.implements(interface)
    }

    fn type_implements(key: &KitType, interface: TypeInterface) -> bool {
        matches!(
            (key.kind(), interface),
            (KitTypeKind::Function, TypeInterface::FunctionType)
        )
    }

    fn attr_implements(attr: &KitAttr, interface: AttrInterface) -> bool {
        match (attr.kind(), interface) {
            (KitAttrKind::Integer, AttrInterface::TypedAttr) => true,
            (KitAttrKind::Integer, AttrInterface::MaterializableAttr) => true,
            (KitAttrKind::Note, AttrInterface::OutlinedAttr) => true,
            (KitAttrKind::Origin, AttrInterface::OutlinedAttr) => true,
            (KitAttrKind::Origin, AttrInterface::PrintOnceAttr) => true,
            _ => false,
        }
    }

    fn region_kind(kind: KitOp, _index: usize) -> RegionKind {
        match kind {
            KitOp::Module => RegionKind::Graph,
            _ => RegionKind::SSACFG,
        }
    }

    fn names_key() -> &'static str {
        keys::GIVEN_NAMES
    }

    fn names_of(attr: &KitAttr) -> Option<&[Option<Identifier>]> {
        match attr {
            KitAttr::GivenNames(names) => Some(names.as_slice()),
            _ => None,
        }
    }

    fn clone_type_key(alloc: Global, key: &KitType) -> Result<KitType, AllocError> {
        match key {
            KitType::Integer(integer) => Ok(KitType::Integer(*integer)),
            KitType::Function(function) => Ok(KitType::Function(FunctionType {
                inputs: Vec::from_slice(alloc, &function.inputs)?,
                results: Vec::from_slice(alloc, &function.results)?,
            })),
            KitType::Unit => Ok(KitType::Unit),
        }
    }

    fn clone_location(_alloc: Global, location: &KitLocation) -> Result<KitLocation, AllocError> {
        Ok(*location)
    }

    ghost op_ids = { ids.op_ids };

    ghost type_ids = { ids.type_ids };

    ghost attr_ids = { ids.attr_ids };

    ghost same_type_kind = { alike.same_type_kind };

    ghost same_type_interfaces = { alike.same_type_interfaces };

    ghost same_attr_kind = { alike.same_attr_kind };

    ghost same_attr_type = { alike.same_attr_type };

    ghost same_attr_interfaces = { alike.same_attr_interfaces };

    ghost same_attr_names = { alike.same_attr_names };

    ghost op_parents = { parents.op_parents };

    ghost attr_parents = { parents.attr_parents };

    ghost names_valid = { refl };
}
