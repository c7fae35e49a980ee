//! What making operations asks of a dialect.
ghost use Rattle.std.specs.Prelude.{◌≡◌};

use builtin_tables::BuiltinDialect;

/// A dialect with modules, functions, constants and forward references.
pub trait BuiltinOps: BuiltinDialect {
    /// The kind of modules.
    ghost MODULE: { Self.OpKind };

    /// The kind of functions.
    ghost FUNC: { Self.OpKind };

    /// The kind of constants.
    ghost CONSTANT: { Self.OpKind };

    /// The kind of what stands for a value until it is known.
    ghost FORWARD_REF: { Self.OpKind };

    /// The key of the type that has one value.
    ghost unit: { Self.TypeKey };

    /// The kind of modules.
    const MODULE: Self::OpKind;

    /// The kind of functions.
    const FUNC: Self::OpKind;

    /// The kind of constants.
    const CONSTANT: Self::OpKind;

    /// The kind of what stands for a value until it is known.
    const FORWARD_REF: Self::OpKind;

    /// The key of the type that has one value.
    fn unit_type() -> Self::TypeKey
        ensures { result ≡ unit };
}
