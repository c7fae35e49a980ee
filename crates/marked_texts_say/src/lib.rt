//! Laws of texts with marks ([`laws`]): what a text says, it says by the kinds and characters of its tokens alone, so a text
//! whose marks are taken out says what it said before they were put in.
#![tactic(auto)]

pub mod laws;
