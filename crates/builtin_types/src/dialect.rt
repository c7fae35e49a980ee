//! What getting types asks of a dialect.
ghost use Rattle.std.specs.Prelude.{◌≡◌, ◌↔◌, true, Option, Some, option_copied};
ghost use Rattle.builtin_data.specs.declared.types.FunctionType.{FunctionType};
ghost use Rattle.builtin_data.specs.declared.types.IntegerType.{IntegerType};

use builtin_data::{FunctionType, IntegerType};
use builtin_tables::BuiltinDialect;

/// A dialect that has types of integers and of functions, and one with one value: a constructor for each.
pub trait BuiltinTypes: BuiltinDialect {
    /// The key of the type of these integers.
    ghost integer_key: { IntegerType → Self.TypeKey };

    /// The integers that a type is of, if it is one of integers.
    ghost integer_in: { Self.TypeKey → Option IntegerType };

    /// The key of the type of these functions.
    ghost function_key: { FunctionType → Self.TypeKey };

    /// The key of the type that has one value.
    ghost unit_key: { Self.TypeKey };

    /// The key of the type of these integers.
    fn from_integer_type(integer: IntegerType) -> Self::TypeKey
        ensures { result ≡ Self.integer_key integer };

    /// The integers that a type is of, if it is one of integers.
    fn as_integer_type(key: &Self::TypeKey) -> Option<&IntegerType>
        ensures { option_copied result ≡ integer_in key.now };

    /// The key of the type of these functions.
    fn from_function_type(function: FunctionType) -> Self::TypeKey
        ensures { result ≡ Self.function_key function };

    /// The key of the type that has one value.
    fn from_unit_type() -> Self::TypeKey
        ensures { result ≡ unit_key };

    /// A type is that of some integers exactly where its key equals theirs.
    ghost integers: { (integer : IntegerType) (key : Self.TypeKey)
        → ((integer_in key ≡ Some integer) ↔ (Self.TypeKey.eq (Self.integer_key integer) key ≡ true)) };

    /// A type is that of some functions exactly where its key equals theirs.
    ghost functions: { (function : FunctionType) (key : Self.TypeKey)
        → ((Self.signature key ≡ Some (function.inputs.items, function.results.items))
        ↔ (Self.TypeKey.eq (Self.function_key function) key ≡ true)) };
}
