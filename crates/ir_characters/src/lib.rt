//! Characters of texts, of one byte each wherever a byte is enough.
//!
//! A [`Text`] is lent characters, and [`Characters`] own them.
#![tactic(auto)]

pub mod characters;
pub mod text;

pub use characters::Characters;
pub use text::Text;
