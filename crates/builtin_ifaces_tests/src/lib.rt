//! Tests of interfaces that read attributes and types, on a dialect of their own.
#![tactic(auto)]

#[cfg(test)]
mod accepting;
mod tiny;

pub use tiny::{Tiny, TinyAttr, TinyAttrKind, TinyLocation, TinyOp, TinyType, TinyTypeKind, keys};
