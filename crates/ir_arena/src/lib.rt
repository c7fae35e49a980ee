//! Values under keys that no later value gets.
#![tactic(auto)]

mod arena;

pub use arena::{Arena, Key, Slot};
