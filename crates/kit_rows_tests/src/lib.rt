//! Tests of what no text of `kit` can say: verdicts on modules that no text writes, calls that the program doesn't make, flat
//! modules that are built by calls, attributes that no operation's text has, and the table by which texts are read.
#![tactic(auto)]

#[cfg(test)]
mod asserting;
#[cfg(test)]
mod attributes;
#[cfg(test)]
mod flat;
#[cfg(test)]
mod rules;
#[cfg(test)]
mod table;
