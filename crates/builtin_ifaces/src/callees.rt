//! What is called.
use ir_names::Identifier;
use ir_program::Value;

/// What a call calls.
#[derive(Clone, Copy, Debug)]
pub enum CallOpCallable<'a> {
    /// The function with this name.
    Direct(&'a Identifier),
    /// What this value stands for.
    Indirect(Value),
}
