//! Small parsers on a stream of characters with a place.
#![tactic(auto)]

mod faults;
mod numbers;
mod parsers;
mod position;
mod quotes;
mod radix;
mod stream;

pub use faults::{ParseFault, ParseResult, TextError};
pub use parsers::{hex_int_parse, int_parse, number_as_string_parse, quoted_string_parse, spaced};
pub use position::Position;
pub use radix::FromStrRadix;
pub use stream::{StateStream, StreamLocation, parse_from_str, state_stream_from_iterator};
