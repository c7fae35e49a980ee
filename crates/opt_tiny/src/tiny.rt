//! A small dialect of one type, for tests: constants, folds, uses, branches, and operations that hold regions.
ghost use Rattle.std.specs.Prelude.{◌≡◌, true};

use ir_base::TypeHandle;
use ir_context::TypeTable;

/// The kinds of operations.
#[derive(Clone, Copy, PartialEq, Eq)]
pub enum Kind {
    /// Holds regions.
    Box,
    /// Holds regions, and has no side effects.
    Pure,
    /// Gives a value that isn't known.
    Def,
    /// Gives its number.
    Constant,
    /// Gives its operand.
    Id,
    /// Gives the sum of its two operands.
    Add,
    /// Uses its operands.
    Use,
    /// Goes on to its one successor.
    Br,
    /// Goes on to its first successor where its first operand is 1, and else to its second.
    Cond,
    /// Ends.
    Ret,
}

/// What an operation carries.
#[derive(Clone, Copy)]
pub struct Payload {
    pub kind: Kind,
    /// The number of a constant.
    pub number: u64,
    /// How many operands a conditional branch forwards to its first successor.
    pub first: usize,
}

/// What a block carries.
#[derive(Clone, Copy)]
pub struct Bare;

/// The table of the one type.
#[derive(Drop)]
pub struct OneType;

impl TypeTable for OneType {
    ghost type_count = { λ _. 1 };

    fn is_known(&self, ty: TypeHandle) -> bool {
        ty.number() == 0
    }
}

/// The dialect.
pub struct Tiny;
