//! Reading of texts into a context, for any dialect whose formats are data.
//!
//! [`top_level_parse`] makes the rules of a dialect's formats, reads a text by them, looks its names up, and puts what
//! it says into a context, or names the fault that is met first.
#![tactic(auto)]

mod finding;
mod reading;

pub use reading::top_level_parse;
pub use text_frames::building::discard;
