//! What is open while a text is read into a context, and what has been made of it: numbers and widths of tokens, types,
//! attributes and what operations are made with, and the operands and successors that are linked once all values and blocks
//! are made. `building` has the calls on a context that make, fill and link what a text becomes, and take it out again.
#![tactic(auto)]

pub mod assembly;
pub mod building;
pub mod linking;
pub mod making;
pub mod opened;
pub mod source;
pub mod waiting;
