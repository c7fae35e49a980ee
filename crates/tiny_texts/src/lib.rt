//! A dialect of eight kinds of operations, one type and two kinds of attributes, all of which have texts.
#![tactic(auto)]

mod dialect;
mod ending;
mod laws;
mod operations;
mod table;
mod texts;

pub use dialect::{Constant, Int, Single, TinyAttr, TinyOp, TinyText};
pub use ending::let_go;
pub use laws::{tiny_can_print, tiny_speaks};
