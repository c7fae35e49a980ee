//! Operations as objects.
ghost use Rattle.std.specs.Prelude.{◌≡◌};

use ir_program::{Operation, Ptr};

/// An operation as an object. Two are equal exactly where their handles are.
#[derive(Clone, Copy, Debug, PartialEq, Eq, Hash)]
pub struct OpObj {
    op: Ptr<Operation>,
}

impl OpObj {
    /// The operation with this handle.
    pub fn new(op: Ptr<Operation>) -> OpObj
        ensures { result ≡ record { op = op } }
    {
        OpObj { op }
    }

    /// Its handle.
    pub fn get_operation(self) -> Ptr<Operation>
        ensures { result ≡ self.op }
    {
        self.op
    }
}
