//! The keys of the attributes that interfaces read.

/// An operation's name as a symbol.
pub const SYMBOL_NAME: &str = "builtin_sym_name";

/// How many operands each segment has.
pub const SEGMENT_SIZES: &str = "builtin_operand_segment_sizes";
