//! What is inside an operation: its operations, blocks and values by numbers, and in its tree.
#![tactic(auto)]

pub mod facts;
pub mod forwarding;
mod laws;
mod numbered_list;
mod numbering;
pub mod reach;
mod sets;

pub use laws::{know_occurrences, know_taken};
pub use numbered_list::{NumberedList, Slotted};
pub use numbering::{Inside, number_inside};
