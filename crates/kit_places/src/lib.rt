//! What the machine reads of a module of `kit`, and where paths of names lead in it.
#![tactic(auto)]

mod places;
mod reading;

pub use places::{Place, find_place};
pub use reading::{attribute, entry, result_width, width};
