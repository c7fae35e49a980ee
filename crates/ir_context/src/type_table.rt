//! What operations, blocks and values need of the types that stand beside them.
ghost use Rattle.std.specs.Prelude.{◌≡◌, ◌↔◌, ℕ, IsTrue, length};
ghost use Rattle.ir_context.specs.Known.{IsKnownIn};

use ir_names::TypeHandle;
use ir_types::{DialectTables, Types};

/// A table of types, numbered from 0 on in the order in which they came.
pub trait TypeTable: Drop {
    /// How many types there are.
    ghost type_count: { Self → ℕ };

    /// Whether the handle leads to a type.
    fn is_known(&self, ty: TypeHandle) -> bool
        ensures { IsTrue result ↔ IsKnownIn (type_count self.now) ty };
}

impl<D: DialectTables> TypeTable for Types<D> {
    ghost type_count = { λ types. length types.keys };

    fn is_known(&self, ty: TypeHandle) -> bool {
        Types::is_known(self, ty)
    }
}
