//! Dead code elimination.
#![tactic(auto)]

mod arguments;
mod erasing;
mod liveness;
mod operands;
mod pass;
mod taking;

pub use pass::dce;
pub use taking::take_out;
