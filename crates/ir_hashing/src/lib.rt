//! Tables that no text can make slow by the names and types that it mentions.
//!
//! A table that hashes by a fixed function is slow for a text whose names were chosen to collide. Here the whole text is the
//! key of the hash, so who changes a name changes the key, and a text has the same key at every run.
#![tactic(auto)]

mod key;
mod rekeying;
mod words;

pub use key::TextKey;
pub use rekeying::rekey;
pub use words::{hash_bytes, hash_characters};
