//! A dialect of six kinds of operations: one that asks nothing, functions, calls by name and by value, and branches with one
//! edge and with two.
ghost use Rattle.std.specs.Prelude.{◌≡◌};
ghost use Rattle.builtin_ifaces_tests.specs.Tables.{op_has, table};

use builtin_ifaces::{BuiltinDialect, CalleePlace, SuccessorLayout};
use ir_names::{
    AttrId, AttrInterface, AttrName, AttributeDict, DialectName, Dialects, Identifier, OpId,
    OpInterface, OpName, RegionKind, TypeHandle, TypeId, TypeInterface, TypeName, TypeTest,
};
use ir_types::DialectTables;
use std::alloc::{AllocError, Global};

/// The keys of attributes.
pub mod keys {
    /// What a call by name calls.
    pub const CALLEE: &str = "tiny_callee";

    /// The type of what a call calls.
    pub const CALLEE_TYPE: &str = "tiny_callee_type";
}

/// The dialect.
pub struct Tiny;

/// The kinds of operations.
#[derive(Clone, Copy, Debug, PartialEq, Eq)]
pub enum TinyOp {
    /// It asks nothing.
    Def,
    /// A function, which has a name.
    Func,
    /// A call of a function by its name.
    Invoke,
    /// A call of its first operand, by two segments: what is called, and what it is handed.
    Apply,
    /// A branch that forwards all its operands.
    Go,
    /// A branch with two edges, by three segments: the condition, and what each edge forwards.
    CondGo,
}

/// The kinds of types.
#[derive(Clone, Copy, Debug, PartialEq, Eq)]
pub enum TinyTypeKind {
    Integer,
    Function,
}

/// The kinds of attributes.
#[derive(Clone, Copy, Debug, PartialEq, Eq)]
pub enum TinyAttrKind {
    Name,
    Held,
    Sizes,
}

/// A type.
#[derive(Clone, Copy, Debug, PartialEq, Eq, Hash)]
pub enum TinyType {
    /// An integer.
    Integer,
    /// A function of one argument with one result, of these types.
    Function(TypeHandle, TypeHandle),
}

/// An attribute.
#[derive(Debug, PartialEq, Eq, Hash, Drop)]
pub enum TinyAttr {
    /// A name.
    Name(Identifier),
    /// A type.
    Held(TypeHandle),
    /// Sizes of segments.
    Sizes(Vec<u32>),
}

/// Where an operation comes from: nowhere.
#[derive(Clone, Copy, Debug, PartialEq, Eq, Hash)]
pub struct TinyLocation;

const FUNC: &[OpInterface] = &[OpInterface::SymbolOp];

const INVOKE: &[OpInterface] = &[OpInterface::CallOp, OpInterface::SymbolUserOp];

const APPLY: &[OpInterface] = &[
    OpInterface::CallOp,
    OpInterface::OperandSegment,
    OpInterface::SegmentN(0, TypeTest::Interface(TypeInterface::FunctionType)),
];

const GO: &[OpInterface] = &[
    OpInterface::IsTerminator,
    OpInterface::Branch,
    OpInterface::OneSucc,
];

const COND_GO: &[OpInterface] = &[
    OpInterface::IsTerminator,
    OpInterface::Branch,
    OpInterface::NSuccs(2),
    OpInterface::OperandSegment,
];

/// The interfaces of a kind.
fn interfaces_of(kind: TinyOp) -> &'static [OpInterface]
    ensures { result.now ≡ table kind }
{
    match kind {
        TinyOp::Def => &[],
        TinyOp::Func => FUNC,
        TinyOp::Invoke => INVOKE,
        TinyOp::Apply => APPLY,
        TinyOp::Go => GO,
        TinyOp::CondGo => COND_GO,
    }
}

impl Dialects for Tiny {
    type OpKind = TinyOp;

    type Attr = TinyAttr;

    type TypeKey = TinyType;

    fn clone_attr(alloc: Global, attr: &TinyAttr) -> Result<TinyAttr, AllocError> {
        match attr {
            TinyAttr::Name(name) => Ok(TinyAttr::Name(name.try_clone()?)),
            TinyAttr::Held(ty) => Ok(TinyAttr::Held(*ty)),
            TinyAttr::Sizes(sizes) => Ok(TinyAttr::Sizes(Vec::from_slice(alloc, sizes)?)),
        }
    }

    fn attr_type(_attr: &TinyAttr) -> Option<TypeHandle> {
        None
    }
}

impl DialectTables for Tiny {
    ghost use Rattle.std.specs.Prelude.{false, None, codes, refl};
    ghost use Rattle.ir_names.specs.declared.interfaces.RegionKind.TheVariants.{SSACFG};
    ghost use Rattle.builtin_ifaces_tests.specs.Laws as laws;
    ghost use Rattle.builtin_ifaces_tests.specs.Tables.{attr_kind, attr_names, kind_implements, op_names, type_kind, type_names};

    type TypeKind = TinyTypeKind;

    type AttrKind = TinyAttrKind;

    type TypeBody = ();

    type Saved = TinyLocation;

    type Location = TinyLocation;

    ghost op_text = { op_names };

    ghost type_text = { type_names };

    ghost attr_text = { attr_names };

    ghost kind_of_type = { type_kind };

    ghost kind_of_attr = { attr_kind };

    ghost type_of_attr = { λ _. None };

    ghost op_has = { op_has };

    ghost type_has = { λ key. kind_implements (type_kind key) };

    ghost attr_has = { λ _ _. false };

    ghost order = { λ _ _. SSACFG };

    ghost nowhere = { record {} };

    ghost names = { codes "names" };

    ghost names_in = { λ _. None };

    fn unknown_location() -> TinyLocation {
        TinyLocation
    }

    fn op_id(kind: TinyOp) -> OpId {
        let name = match kind {
            TinyOp::Def => "def",
            TinyOp::Func => "func",
            TinyOp::Invoke => "invoke",
            TinyOp::Apply => "apply",
            TinyOp::Go => "go",
            TinyOp::CondGo => "cond_go",
        };
        OpId {
            dialect: DialectName::new("tiny"),
            name: OpName::new(name),
        }
    }

    fn type_id(kind: TinyTypeKind) -> TypeId {
        let name = match kind {
            TinyTypeKind::Integer => "integer",
            TinyTypeKind::Function => "function",
        };
        TypeId {
            dialect: DialectName::new("tiny"),
            name: TypeName::new(name),
        }
    }

    fn attr_id(kind: TinyAttrKind) -> AttrId {
        let name = match kind {
            TinyAttrKind::Name => "name",
            TinyAttrKind::Held => "type_",
            TinyAttrKind::Sizes => "sizes_",
        };
        AttrId {
            dialect: DialectName::new("tiny"),
            name: AttrName::new(name),
        }
    }

    fn type_kind(key: &TinyType) -> TinyTypeKind {
        match key {
            TinyType::Integer => TinyTypeKind::Integer,
            TinyType::Function(_, _) => TinyTypeKind::Function,
        }
    }

    fn attr_kind(attr: &TinyAttr) -> TinyAttrKind {
        match attr {
            TinyAttr::Name(_) => TinyAttrKind::Name,
            TinyAttr::Held(_) => TinyAttrKind::Held,
            TinyAttr::Sizes(_) => TinyAttrKind::Sizes,
        }
    }

    fn type_of(_attr: &TinyAttr) -> Option<TypeHandle> {
        None
    }

    fn op_implements(kind: TinyOp, interface: OpInterface) -> bool {
        interfaces_of(kind).contains(&interface)
    }

    fn type_implements(key: &TinyType, interface: TypeInterface) -> bool {
        match key {
            TinyType::Integer => false,
            TinyType::Function(_, _) => matches!(interface, TypeInterface::FunctionType),
        }
    }

    fn attr_implements(_attr: &TinyAttr, _interface: AttrInterface) -> bool {
        false
    }

    fn region_kind(_kind: TinyOp, _index: usize) -> RegionKind {
        RegionKind::SSACFG
    }

    fn names_key() -> &'static str {
        "names"
    }

    fn names_of(_attr: &TinyAttr) -> Option<&[Option<Identifier>]> {
        None
    }

    fn clone_type_key(_alloc: Global, key: &TinyType) -> Result<TinyType, AllocError> {
        match key {
            TinyType::Integer => Ok(TinyType::Integer),
            TinyType::Function(takes, gives) => Ok(TinyType::Function(*takes, *gives)),
        }
    }

    fn clone_location(
        _alloc: Global,
        _location: &TinyLocation,
    ) -> Result<TinyLocation, AllocError> {
        Ok(TinyLocation)
    }

    ghost op_ids = { laws.op_ids };

    ghost type_ids = { laws.type_ids };

    ghost attr_ids = { laws.attr_ids };

    ghost same_type_kind = { laws.same_type_kind };

    ghost same_type_interfaces = { laws.same_type_interfaces };

    ghost same_attr_kind = { laws.same_attr_kind };

    ghost same_attr_type = { λ _ _ _. refl };

    ghost same_attr_interfaces = { λ _ _ _ _. refl };

    ghost same_attr_names = { λ _ _ _. refl };

    ghost op_parents = { laws.op_parents };

    ghost attr_parents = { λ _ _ e. laws.nothing_implements e };

    ghost names_valid = { refl };
}

impl BuiltinDialect for Tiny {
    ghost use Rattle.std.specs.Prelude.{codes, refl};
    ghost use Rattle.builtin_ifaces_tests.specs.Laws as laws;
    ghost use Rattle.builtin_ifaces_tests.specs.Tables.{callee_place, first_argument, held_identifier, held_sizes, held_type, layout, segment_count, signature};

    ghost held_identifier = { held_identifier };

    ghost held_type = { held_type };

    ghost held_sizes = { held_sizes };

    ghost signature = { signature };

    ghost table = { table };

    ghost segment_count = { λ kind _. segment_count kind };

    ghost layout = { layout };

    ghost place_of_callee = { callee_place };

    ghost key_of_callee = { λ _. codes "tiny_callee" };

    ghost key_of_callee_type = { λ _. codes "tiny_callee_type" };

    ghost arguments_from = { first_argument };

    fn as_identifier(attr: &TinyAttr) -> Option<&Identifier> {
        match attr {
            TinyAttr::Name(name) => Some(name),
            _ => None,
        }
    }

    fn from_identifier(name: Identifier) -> TinyAttr {
        TinyAttr::Name(name)
    }

    fn as_type(attr: &TinyAttr) -> Option<TypeHandle> {
        match attr {
            TinyAttr::Held(ty) => Some(*ty),
            _ => None,
        }
    }

    fn from_type(ty: TypeHandle) -> TinyAttr {
        TinyAttr::Held(ty)
    }

    fn as_segment_sizes(attr: &TinyAttr) -> Option<&[u32]> {
        match attr {
            TinyAttr::Sizes(sizes) => Some(sizes.as_slice()),
            _ => None,
        }
    }

    fn from_segment_sizes(sizes: Vec<u32>) -> TinyAttr {
        TinyAttr::Sizes(sizes)
    }

    fn function_type(key: &TinyType) -> Option<(&[TypeHandle], &[TypeHandle])> {
        match key {
            TinyType::Integer => None,
            TinyType::Function(takes, gives) => {
                Some((std::slice::from_ref(takes), std::slice::from_ref(gives)))
            }
        }
    }

    fn interfaces(kind: TinyOp) -> &'static [OpInterface] {
        interfaces_of(kind)
    }

    fn expected_num_segments(kind: TinyOp, _attributes: &AttributeDict<Tiny>) -> usize {
        match kind {
            TinyOp::Apply => 2,
            TinyOp::CondGo => 3,
            _ => 0,
        }
    }

    fn successor_layout(kind: TinyOp) -> SuccessorLayout {
        match kind {
            TinyOp::CondGo => SuccessorLayout::Segments { first: 1 },
            _ => SuccessorLayout::Trailing { from: 0 },
        }
    }

    fn callee_place(kind: TinyOp) -> CalleePlace {
        match kind {
            TinyOp::Apply => CalleePlace::Operand(0),
            _ => CalleePlace::Attribute,
        }
    }

    fn callee_key(_kind: TinyOp) -> &'static str {
        keys::CALLEE
    }

    fn callee_type_key(_kind: TinyOp) -> &'static str {
        keys::CALLEE_TYPE
    }

    fn first_argument(kind: TinyOp) -> usize {
        match kind {
            TinyOp::Apply => 1,
            _ => 0,
        }
    }

    ghost listed = { λ _ _. refl };

    ghost function_types = { laws.function_types };

    ghost same_identifier = { laws.same_identifier };

    ghost same_type = { laws.same_type };

    ghost same_sizes = { laws.same_sizes };
}
