//! The keys of the attributes that builtin operations have.

pub use builtin_tables::keys::{SEGMENT_SIZES, SYMBOL_NAME};

/// A function's type.
pub const FUNCTION_TYPE: &str = "builtin_func_type";

/// A constant's value.
pub const CONSTANT_VALUE: &str = "builtin_constant_value";
