//! The attributes of `kit`, and where its operations come from.

ghost use Rattle.std.specs.Prelude.{◌≡◌};
ghost use Rattle.kit_ops.specs.Kinds.{attr_kind};

use crate::types::IntegerType;
use ir_names::{Identifier, TypeHandle};

/// The keys of attributes.
pub mod keys {
    /// An operation's name as a symbol.
    pub const SYMBOL_NAME: &str = "builtin_sym_name";

    /// A function's type.
    pub const FUNCTION_TYPE: &str = "builtin_func_type";

    /// A constant's value.
    pub const CONSTANT_VALUE: &str = "builtin_constant_value";

    /// How many operands the segments of a branch have.
    pub const SEGMENT_SIZES: &str = "builtin_operand_segment_sizes";

    /// The names of results or arguments.
    pub const GIVEN_NAMES: &str = "builtin_given_names";

    /// The name of the function that a call calls.
    pub const CALLEE: &str = "kit_callee";

    /// Its type.
    pub const CALLEE_TYPE: &str = "kit_callee_type";

    /// A note of whoever wrote the operation.
    pub const NOTE: &str = "kit_note";

    /// Where the operation comes from.
    pub const ORIGIN: &str = "kit_origin";
}

/// An integer of 1 to 64 bits.
#[derive(Clone, Copy, Debug, PartialEq, Eq, Hash)]
pub struct IntegerAttr {
    /// Its type, and what that is.
    pub ty: TypeHandle,
    pub integer: IntegerType,
    /// The number, modulo 2 to the power of the width.
    pub bits: u64,
}

/// An attribute.
#[derive(Debug, PartialEq, Eq, Hash, Drop)]
pub enum KitAttr {
    /// `builtin.integer`
    Integer(IntegerAttr),
    /// `builtin.identifier`
    Identifier(Identifier),
    /// `builtin.type`
    Type(TypeHandle),
    /// `builtin.operand_segment_sizes`
    SegmentSizes(Vec<u32>),
    /// `builtin.given_names`
    GivenNames(Vec<Option<Identifier>>),
    /// `kit.note`
    Note(String),
    /// `kit.origin`
    Origin(String),
}

/// The kinds of attributes.
#[derive(Clone, Copy, Debug, PartialEq, Eq)]
pub enum KitAttrKind {
    Integer,
    Identifier,
    Type,
    SegmentSizes,
    GivenNames,
    Note,
    Origin,
}

impl KitAttr {
    /// The kind of the attribute.
    pub fn kind(&self) -> KitAttrKind
        ensures { result ≡ attr_kind self.now }
    {
        match self {
            KitAttr::Integer(_) => KitAttrKind::Integer,
            KitAttr::Identifier(_) => KitAttrKind::Identifier,
            KitAttr::Type(_) => KitAttrKind::Type,
            KitAttr::SegmentSizes(_) => KitAttrKind::SegmentSizes,
            KitAttr::GivenNames(_) => KitAttrKind::GivenNames,
            KitAttr::Note(_) => KitAttrKind::Note,
            KitAttr::Origin(_) => KitAttrKind::Origin,
        }
    }
}

/// Where in a source an operation or a block comes from.
#[derive(Clone, Copy, Debug, PartialEq, Eq, Hash)]
pub enum KitLocation {
    /// It comes from no source.
    Unknown,
    /// Line and column, each from 1; columns count characters.
    Place { line: u64, column: u64 },
}
