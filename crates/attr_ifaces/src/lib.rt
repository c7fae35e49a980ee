//! Interfaces of attributes: types that stand for them, and what attributes that implement them have.
#![tactic(auto)]

mod outlined;
mod typed;

pub use outlined::{OutlinedAttr, PrintOnceAttr};
pub use typed::{MaterializableAttr, TypedAttrInterface, TypedAttributes};
