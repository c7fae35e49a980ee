//! What stands for the arguments of blocks that are joined.

mod following;
mod forwarding;
mod stand_ins;

pub use stand_ins::find_stand_ins;
