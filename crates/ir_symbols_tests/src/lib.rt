//! Tests of symbol tables by their public calls: that calls succeed where memory is ample, and what they answer after edits.
#![tactic(auto)]

#[cfg(test)]
mod collections;
#[cfg(test)]
mod modules;
#[cfg(test)]
mod tables;
#[cfg(test)]
mod walks;
