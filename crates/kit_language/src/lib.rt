//! The language of `kit`: what is printed in it can be read.
#![tactic(auto)]

mod laws;

pub use laws::{kit_can_print, kit_speaks};
