//! The dialect, and what it is to contexts.
use ir_names::{
    AttrId, AttrInterface, AttrName, DialectName, Dialects, Identifier, OpId, OpInterface, OpName,
    RegionKind, TypeHandle, TypeId, TypeInterface, TypeName,
};
use ir_types::DialectTables;
use std::alloc::{AllocError, Global};

/// The dialect.
#[derive(Clone, Copy, Debug)]
pub struct TinyText;

/// The kinds of operations.
#[derive(Clone, Copy, Debug, PartialEq, Eq)]
pub enum TinyOp {
    /// A region that is isolated from above.
    Box,
    /// A region.
    Loop,
    /// Another region.
    Pure,
    /// A number, as a value.
    Def,
    /// Its operand again.
    Id,
    /// A use of its operand.
    Use,
    /// An edge.
    Br,
    /// The end of a block.
    Ret,
}

/// The one type.
#[derive(Clone, Copy, Debug, PartialEq, Eq, Hash)]
pub struct Int;

/// The kinds of attributes.
#[derive(Clone, Copy, Debug, PartialEq, Eq)]
pub enum TinyAttr {
    Num,
    Ref,
}

/// An attribute.
#[derive(Clone, Copy, Debug, PartialEq, Eq, Hash)]
pub enum Constant {
    /// A number.
    Num(u64),
    /// A mark, by its number.
    Ref(u64),
}

/// What there is one of: a kind of types, and a location.
#[derive(Clone, Copy, Debug, PartialEq, Eq, Hash)]
pub struct Single;

impl Dialects for TinyText {
    type OpKind = TinyOp;

    type Attr = Constant;

    type TypeKey = Int;

    fn clone_attr(_alloc: Global, attr: &Constant) -> Result<Constant, AllocError> {
        Ok(*attr)
    }

    fn attr_type(_attr: &Constant) -> Option<TypeHandle> {
        None
    }
}

impl DialectTables for TinyText {
    ghost use Rattle.std.specs.Prelude.{false, None, codes, refl};
    ghost use Rattle.ir_names.specs.declared.interfaces.RegionKind.TheVariants.{SSACFG};
    ghost use Rattle.tiny_texts.specs.Kinds.{op_names, type_names, attr_names, kind_of, op_has};
    ghost use Rattle.tiny_texts.specs.Laws as laws;

    type TypeKind = Single;

    type AttrKind = TinyAttr;

    type TypeBody = Single;

    type Saved = Single;

    type Location = Single;

    ghost op_text = { op_names };

    ghost type_text = { type_names };

    ghost attr_text = { attr_names };

    ghost kind_of_type = { λ _. record {} };

    ghost kind_of_attr = { kind_of };

    ghost type_of_attr = { λ _. None };

    ghost op_has = { op_has };

    ghost type_has = { λ _ _. false };

    ghost attr_has = { λ _ _. false };

    ghost order = { λ _ _. SSACFG };

    ghost nowhere = { record {} };

    ghost names = { codes "t_names" };

    ghost names_in = { λ _. None };

    fn unknown_location() -> Single {
        Single
    }

    fn op_id(kind: TinyOp) -> OpId {
        let name = match kind {
            TinyOp::Box => "box",
            TinyOp::Loop => "loop",
            TinyOp::Pure => "pure",
            TinyOp::Def => "def",
            TinyOp::Id => "id",
            TinyOp::Use => "use",
            TinyOp::Br => "br",
            TinyOp::Ret => "ret",
        };
        OpId {
            dialect: DialectName::new("t"),
            name: OpName::new(name),
        }
    }

    fn type_id(_kind: Single) -> TypeId {
        TypeId {
            dialect: DialectName::new("t"),
            name: TypeName::new("int"),
        }
    }

    fn attr_id(kind: TinyAttr) -> AttrId {
        let name = match kind {
            TinyAttr::Num => "num",
            TinyAttr::Ref => "ref",
        };
        AttrId {
            dialect: DialectName::new("t"),
            name: AttrName::new(name),
        }
    }

    fn type_kind(_key: &Int) -> Single {
        Single
    }

    fn attr_kind(attr: &Constant) -> TinyAttr {
        match attr {
            Constant::Num(_) => TinyAttr::Num,
            Constant::Ref(_) => TinyAttr::Ref,
        }
    }

    fn type_of(_attr: &Constant) -> Option<TypeHandle> {
        None
    }

    fn op_implements(kind: TinyOp, interface: OpInterface) -> bool {
        matches!(
            (kind, interface),
            (TinyOp::Box, OpInterface::IsolatedFromAbove)
                | (TinyOp::Br, OpInterface::IsTerminator)
                | (TinyOp::Br, OpInterface::Branch)
                | (TinyOp::Ret, OpInterface::IsTerminator)
        )
    }

    fn type_implements(_key: &Int, _interface: TypeInterface) -> bool {
        false
    }

    fn attr_implements(_attr: &Constant, _interface: AttrInterface) -> bool {
        false
    }

    fn region_kind(_kind: TinyOp, _index: usize) -> RegionKind {
        RegionKind::SSACFG
    }

    fn names_key() -> &'static str {
        "t_names"
    }

    fn names_of(_attr: &Constant) -> Option<&[Option<Identifier>]> {
        None
    }

    fn clone_type_key(_alloc: Global, key: &Int) -> Result<Int, AllocError> {
        Ok(*key)
    }

    fn clone_location(_alloc: Global, location: &Single) -> Result<Single, AllocError> {
        Ok(*location)
    }

    ghost op_ids = { laws.op_ids };

    ghost type_ids = { laws.type_ids };

    ghost attr_ids = { laws.attr_ids };

    ghost same_type_kind = { λ _ _ _. refl };

    ghost same_type_interfaces = { λ _ _ _ _. refl };

    ghost same_attr_kind = { laws.same_attr_kind };

    ghost same_attr_type = { λ _ _ _. refl };

    ghost same_attr_interfaces = { λ _ _ _ _. refl };

    ghost same_attr_names = { λ _ _ _. refl };

    ghost op_parents = { laws.op_parents };

    ghost attr_parents = { λ _ _ e. laws.nothing_implements e };

    ghost names_valid = { refl };
}
