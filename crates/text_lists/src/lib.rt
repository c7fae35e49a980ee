//! Lists, by a parser of their members.
#![tactic(auto)]

mod delimited;
mod members;
mod parsers;
mod repeated;
mod signs;

pub use delimited::delimited_list_parser;
pub use parsers::{list_parser, list_with_sep_parser};
pub use repeated::zero_or_more_parser;
