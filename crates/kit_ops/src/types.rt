//! The types of `kit`.

ghost use Rattle.std.specs.Prelude.{◌≡◌};
ghost use Rattle.kit_ops.specs.Kinds.{type_kind};

use ir_names::{Signedness, TypeHandle};

/// An integer type: a sign and a number of bits.
#[derive(Clone, Copy, Debug, PartialEq, Eq, Hash)]
pub struct IntegerType {
    pub signedness: Signedness,
    pub width: u32,
}

/// A function type: the types of its inputs and of its results.
#[derive(Debug, PartialEq, Eq, Hash, Drop)]
pub struct FunctionType {
    pub inputs: Vec<TypeHandle>,
    pub results: Vec<TypeHandle>,
}

/// A type.
#[derive(Debug, PartialEq, Eq, Hash, Drop)]
pub enum KitType {
    /// `builtin.integer`
    Integer(IntegerType),
    /// `builtin.function`
    Function(FunctionType),
    /// `builtin.unit`
    Unit,
}

/// The kinds of types.
#[derive(Clone, Copy, Debug, PartialEq, Eq)]
pub enum KitTypeKind {
    Integer,
    Function,
    Unit,
}

impl KitType {
    /// The kind of the type.
    pub fn kind(&self) -> KitTypeKind
        ensures { result ≡ type_kind self.now }
    {
        match self {
            KitType::Integer(_) => KitTypeKind::Integer,
            KitType::Function(_) => KitTypeKind::Function,
            KitType::Unit => KitTypeKind::Unit,
        }
    }
}
