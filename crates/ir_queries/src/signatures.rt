//! Types of functions.
ghost use Rattle.std.specs.Prelude.{◌≡◌};

use ir_names::TypeHandle;

/// The types of what a function takes and of what it answers.
#[derive(Debug, PartialEq, Eq, Hash, Drop)]
pub struct TypeSig {
    /// The types of what it takes, in order.
    pub arguments: Vec<TypeHandle>,
    /// The types of what it answers, in order.
    pub results: Vec<TypeHandle>,
}
