//! A dialect with a few kinds of each sort: plain operations, holders of graphs and terminators, integers and names, numbers and types.
use ir_core::{
    AttrId, AttrInterface, AttrName, DialectName, DialectTables, Dialects, Identifier, OpId,
    OpInterface, OpName, RegionKind, TypeHandle, TypeId, TypeInterface, TypeName,
};
use std::alloc::{AllocError, Global};

pub struct Tiny;

/// The kinds of operations.
#[derive(Clone, Copy, PartialEq, Eq)]
pub enum TinyOp {
    /// A plain one.
    Def,
    /// A terminator, which branches.
    Jump,
    /// A plain one whose regions are graphs.
    Graph,
}

#[derive(Clone, Copy, PartialEq, Eq)]
pub enum TinyTypeKind {
    Integer,
    Named,
}

#[derive(Clone, Copy, PartialEq, Eq)]
pub enum TinyAttrKind {
    Number,
    Type,
}

#[derive(Clone, Copy, Debug, PartialEq, Eq, Hash)]
pub struct IntegerType {
    pub width: u32,
}

#[derive(Clone, Copy, Debug, PartialEq, Eq, Hash)]
pub struct NamedType {
    pub name: u8,
}

#[derive(Debug, PartialEq, Eq, Hash, Drop)]
pub enum TinyType {
    Integer(IntegerType),
    Named(NamedType),
}

#[derive(Debug, PartialEq, Eq, Hash, Drop)]
pub enum TinyAttr {
    Number(u64),
    Type(TypeHandle),
}

#[derive(PartialEq, Eq, Hash, Drop)]
pub enum TinyLocation {
    Unknown,
    Line(u32),
}

impl Dialects for Tiny {
    type OpKind = TinyOp;

    type Attr = TinyAttr;

    type TypeKey = TinyType;

    fn clone_attr(_alloc: Global, attr: &TinyAttr) -> Result<TinyAttr, AllocError> {
        match attr {
            TinyAttr::Number(number) => Ok(TinyAttr::Number(*number)),
            TinyAttr::Type(handle) => Ok(TinyAttr::Type(*handle)),
        }
    }

    fn attr_type(attr: &TinyAttr) -> Option<TypeHandle> {
        match attr {
            TinyAttr::Number(_) => None,
            TinyAttr::Type(handle) => Some(*handle),
        }
    }
}

impl DialectTables for Tiny {
    ghost use Rattle.std.specs.Prelude.{true, false, None, Some, nat_eq, length, codes, refl};
    ghost use Rattle.std.proofs.Common.{sym, ap, true≢false};
    ghost use Rattle.std.proofs.lemmas.Bool.{eqb-true};
    ghost use Rattle.ir_names.specs.declared.interfaces.AttrInterface.TheVariants as attr;
    ghost use Rattle.ir_names.specs.declared.interfaces.OpInterface.TheVariants as op;
    ghost use Rattle.ir_names.specs.declared.interfaces.RegionKind.TheVariants as region;
    ghost use Rattle.ir_names.specs.declared.interfaces.TypeInterface.TheVariants as type;
    ghost use Rattle.ir_scripts.specs.declared.tiny.TinyAttr.TheVariants as attrs;
    ghost use Rattle.ir_scripts.specs.declared.tiny.TinyAttrKind.TheVariants as attr_kinds;
    ghost use Rattle.ir_scripts.specs.declared.tiny.TinyLocation.TheVariants as locations;
    ghost use Rattle.ir_scripts.specs.declared.tiny.TinyOp.TheVariants as ops;
    ghost use Rattle.ir_scripts.specs.declared.tiny.TinyType.TheVariants as types;
    ghost use Rattle.ir_scripts.specs.declared.tiny.TinyTypeKind.TheVariants as type_kinds;

    type TypeKind = TinyTypeKind;

    type AttrKind = TinyAttrKind;

    type TypeBody = u64;

    type Saved = u64;

    type Location = TinyLocation;

    ghost op_text = { elim [
      | ops.Def ↦ (codes "tiny", codes "def")
      | ops.Jump ↦ (codes "tiny", codes "jump")
      | ops.Graph ↦ (codes "tiny", codes "graph")
    ] };

    ghost type_text = { elim [
      | type_kinds.Integer ↦ (codes "tiny", codes "integer")
      | type_kinds.Named ↦ (codes "tiny", codes "named")
    ] };

    ghost attr_text = { elim [
      | attr_kinds.Number ↦ (codes "tiny", codes "number")
      | attr_kinds.«Type» ↦ (codes "tiny", codes "type")
    ] };

    ghost kind_of_type = { elim [
      | types.Integer width ↦ type_kinds.Integer
      | types.Named name ↦ type_kinds.Named
    ] };

    ghost kind_of_attr = { elim [
      | attrs.Number number ↦ attr_kinds.Number
      | attrs.«Type» handle ↦ attr_kinds.«Type»
    ] };

    ghost type_of_attr = { elim [ attrs.Number number ↦ None | attrs.«Type» handle ↦ Some handle ] };

    ghost op_has = { elim [
      | ops.Def ↦ λ _. false
      | ops.Jump ↦ elim [ op.Branch ↦ true | op.IsTerminator ↦ true | _ ↦ false ]
      | ops.Graph ↦ λ _. false
    ] };

    ghost type_has = { elim [
      | types.Integer width ↦ λ _. false
      | types.Named name ↦ elim [ type.FunctionType ↦ true | _ ↦ false ]
    ] };

    ghost attr_has = { elim [
      | attrs.Number number ↦ λ _. false
      | attrs.«Type» handle ↦ elim [ attr.TypedAttr ↦ true | _ ↦ false ]
    ] };

    ghost order = { elim [
      | ops.Def ↦ λ _. region.SSACFG
      | ops.Jump ↦ λ _. region.SSACFG
      | ops.Graph ↦ λ _. region.Graph
    ] };

    ghost nowhere = { locations.Unknown };

    ghost names = { codes "names" };

    ghost names_in = { λ _. None };

    fn unknown_location() -> TinyLocation {
        TinyLocation::Unknown
    }

    fn op_id(kind: TinyOp) -> OpId {
        let name = match kind {
            TinyOp::Def => "def",
            TinyOp::Jump => "jump",
            TinyOp::Graph => "graph",
        };
        OpId {
            dialect: DialectName::new("tiny"),
            name: OpName::new(name),
        }
    }

    fn type_id(kind: TinyTypeKind) -> TypeId {
        let name = match kind {
            TinyTypeKind::Integer => "integer",
            TinyTypeKind::Named => "named",
        };
        TypeId {
            dialect: DialectName::new("tiny"),
            name: TypeName::new(name),
        }
    }

    fn attr_id(kind: TinyAttrKind) -> AttrId {
        let name = match kind {
            TinyAttrKind::Number => "number",
            TinyAttrKind::Type => "type",
        };
        AttrId {
            dialect: DialectName::new("tiny"),
            name: AttrName::new(name),
        }
    }

    fn type_kind(key: &TinyType) -> TinyTypeKind {
        match key {
            TinyType::Integer(_) => TinyTypeKind::Integer,
            TinyType::Named(_) => TinyTypeKind::Named,
        }
    }

    fn attr_kind(attr: &TinyAttr) -> TinyAttrKind {
        match attr {
            TinyAttr::Number(_) => TinyAttrKind::Number,
            TinyAttr::Type(_) => TinyAttrKind::Type,
        }
    }

    fn type_of(attr: &TinyAttr) -> Option<TypeHandle> {
        match attr {
            TinyAttr::Number(_) => None,
            TinyAttr::Type(handle) => Some(*handle),
        }
    }

    fn op_implements(kind: TinyOp, interface: OpInterface) -> bool {
        match kind {
            TinyOp::Def | TinyOp::Graph => false,
            TinyOp::Jump => matches!(interface, OpInterface::Branch | OpInterface::IsTerminator),
        }
    }

    fn type_implements(key: &TinyType, interface: TypeInterface) -> bool {
        match key {
            TinyType::Integer(_) => false,
            TinyType::Named(_) => matches!(interface, TypeInterface::FunctionType),
        }
    }

    fn attr_implements(attr: &TinyAttr, interface: AttrInterface) -> bool {
        match attr {
            TinyAttr::Number(_) => false,
            TinyAttr::Type(_) => matches!(interface, AttrInterface::TypedAttr),
        }
    }

    fn region_kind(kind: TinyOp, _index: usize) -> RegionKind {
        match kind {
            TinyOp::Def | TinyOp::Jump => RegionKind::SSACFG,
            TinyOp::Graph => RegionKind::Graph,
        }
    }

    fn names_key() -> &'static str {
        "names"
    }

    fn names_of(_attr: &TinyAttr) -> Option<&[Option<Identifier>]> {
        None
    }

    fn clone_type_key(_alloc: Global, key: &TinyType) -> Result<TinyType, AllocError> {
        match key {
            TinyType::Integer(width) => Ok(TinyType::Integer(*width)),
            TinyType::Named(name) => Ok(TinyType::Named(*name)),
        }
    }

    fn clone_location(_alloc: Global, loc: &TinyLocation) -> Result<TinyLocation, AllocError> {
        match loc {
            TinyLocation::Unknown => Ok(TinyLocation::Unknown),
            TinyLocation::Line(line) => Ok(TinyLocation::Line(*line)),
        }
    }

    ghost op_ids = { elim [
      | ops.Def ↦ elim [
        | ops.Def ↦ (λ _. refl, λ _. refl)
        | ops.Jump ↦ (λ e. absurd (true≢false (ap (λ id. nat_eq 3 (length id.1)) e)), λ e. absurd (true≢false (sym e)))
        | ops.Graph ↦ (λ e. absurd (true≢false (ap (λ id. nat_eq 3 (length id.1)) e)), λ e. absurd (true≢false (sym e)))
      ]
      | ops.Jump ↦ elim [
        | ops.Def ↦ (λ e. absurd (true≢false (ap (λ id. nat_eq 4 (length id.1)) e)), λ e. absurd (true≢false (sym e)))
        | ops.Jump ↦ (λ _. refl, λ _. refl)
        | ops.Graph ↦ (λ e. absurd (true≢false (ap (λ id. nat_eq 4 (length id.1)) e)), λ e. absurd (true≢false (sym e)))
      ]
      | ops.Graph ↦ elim [
        | ops.Def ↦ (λ e. absurd (true≢false (ap (λ id. nat_eq 5 (length id.1)) e)), λ e. absurd (true≢false (sym e)))
        | ops.Jump ↦ (λ e. absurd (true≢false (ap (λ id. nat_eq 5 (length id.1)) e)), λ e. absurd (true≢false (sym e)))
        | ops.Graph ↦ (λ _. refl, λ _. refl)
      ]
    ] };

    ghost type_ids = { elim [
      | type_kinds.Integer ↦ elim [ type_kinds.Integer ↦ (λ _. refl, λ _. refl) | type_kinds.Named ↦ (λ e. absurd (true≢false (ap (λ id. nat_eq 7 (length id.1)) e)), λ e. absurd (true≢false (sym e))) ]
      | type_kinds.Named ↦ elim [ type_kinds.Integer ↦ (λ e. absurd (true≢false (ap (λ id. nat_eq 5 (length id.1)) e)), λ e. absurd (true≢false (sym e))) | type_kinds.Named ↦ (λ _. refl, λ _. refl) ]
    ] };

    ghost attr_ids = { elim [
      | attr_kinds.Number ↦ elim [ attr_kinds.Number ↦ (λ _. refl, λ _. refl) | attr_kinds.«Type» ↦ (λ e. absurd (true≢false (ap (λ id. nat_eq 6 (length id.1)) e)), λ e. absurd (true≢false (sym e))) ]
      | attr_kinds.«Type» ↦ elim [ attr_kinds.Number ↦ (λ e. absurd (true≢false (ap (λ id. nat_eq 4 (length id.1)) e)), λ e. absurd (true≢false (sym e))) | attr_kinds.«Type» ↦ (λ _. refl, λ _. refl) ]
    ] };

    ghost same_type_kind = { elim [
      | types.Integer x ↦ elim [ types.Integer y ↦ λ _. refl | types.Named y ↦ λ e. absurd (true≢false (sym e)) ]
      | types.Named x ↦ elim [ types.Integer y ↦ λ e. absurd (true≢false (sym e)) | types.Named y ↦ λ _. refl ]
    ] };

    ghost same_type_interfaces = { elim [
      | types.Integer x ↦ elim [ types.Integer y ↦ λ _ _. refl | types.Named y ↦ λ e _. absurd (true≢false (sym e)) ]
      | types.Named x ↦ elim [ types.Integer y ↦ λ e _. absurd (true≢false (sym e)) | types.Named y ↦ λ _ _. refl ]
    ] };

    ghost same_attr_kind = { elim [
      | attrs.Number x ↦ elim [ attrs.Number y ↦ λ _. refl | attrs.«Type» y ↦ λ e. absurd (true≢false (sym e)) ]
      | attrs.«Type» x ↦ elim [ attrs.Number y ↦ λ e. absurd (true≢false (sym e)) | attrs.«Type» y ↦ λ _. refl ]
    ] };

    ghost same_attr_type = { elim [
      | attrs.Number x ↦ elim [ attrs.Number y ↦ λ _. refl | attrs.«Type» y ↦ λ e. absurd (true≢false (sym e)) ]
      | attrs.«Type» x ↦ elim [ attrs.Number y ↦ λ e. absurd (true≢false (sym e)) | attrs.«Type» y ↦ λ e. λ j. Some (record { number = eqb-true x.number y.number e j }) ]
    ] };

    ghost same_attr_interfaces = { elim [
      | attrs.Number x ↦ elim [ attrs.Number y ↦ λ _ _. refl | attrs.«Type» y ↦ λ e _. absurd (true≢false (sym e)) ]
      | attrs.«Type» x ↦ elim [ attrs.Number y ↦ λ e _. absurd (true≢false (sym e)) | attrs.«Type» y ↦ λ _ _. refl ]
    ] };

    ghost same_attr_names = { λ _ _ _. refl };

    ghost op_parents = { elim [
      | ops.Def ↦ λ _ e. absurd (true≢false (sym e))
      | ops.Jump ↦ elim [ op.Branch ↦ λ _. refl | op.IsTerminator ↦ λ _. refl | _ ↦ λ e. absurd (true≢false (sym e)) ]
      | ops.Graph ↦ λ _ e. absurd (true≢false (sym e))
    ] };

    ghost attr_parents = { elim [
      | attrs.Number x ↦ λ _ e. absurd (true≢false (sym e))
      | attrs.«Type» x ↦ elim [ attr.TypedAttr ↦ λ _. refl | _ ↦ λ e. absurd (true≢false (sym e)) ]
    ] };

    ghost names_valid = { refl };
}
