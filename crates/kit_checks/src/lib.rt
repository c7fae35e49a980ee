//! The rules of `kit` modules, and the first one that a module breaks.
#![tactic(auto)]

mod attributes;
mod blocks;
mod constants;
mod counts;
mod edges;
mod format;
mod naming;
mod operands;
mod places;
mod reading;
mod rule;
mod search;
mod signatures;
mod sites;
mod tests;
mod types;
mod walk_order;

pub use places::place_of;
pub use reading::{function_type, is_function, is_module, is_symbol};
pub use rule::{Rule, RuleFault};
pub use search::{first_place, keeps_local_rules};
pub use signatures::operands_are;
pub use sites::is_in_module;
