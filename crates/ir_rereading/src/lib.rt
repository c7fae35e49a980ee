//! Laws of texts ([`laws`]): a text is read in one way, and what is printed of a closed tree is read again.
#![tactic(auto)]

pub mod laws;
