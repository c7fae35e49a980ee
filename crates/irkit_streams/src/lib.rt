//! Readers and writers that remember a failed call, with reading to the end, decoding, and writing of a whole text.
//!
//! A [`Watched`] reader or writer tells whether one of its calls failed. Over it, [`read_to_end`] gives all bytes of a
//! reader, [`decode`] their characters, and [`write_text`] writes a text, however little each call gives or takes.
//! Their contracts speak of the bytes that a reader gave and a writer took, of which a fault says where they end.
#![tactic(auto)]

mod faults;
mod reading;
mod watched;
mod writing;

pub use faults::{DecodeFault, ReadFault, WriteFault};
pub use reading::{decode, read_to_end};
pub use watched::Watched;
pub use writing::write_text;
