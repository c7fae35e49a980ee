//! Tests of the reader, the printer and the check of formats on a dialect that is not `kit`, by their public calls. They stand
//! here so that the crates with the proofs are proved once.
#![tactic(auto)]

#[cfg(test)]
mod accepted;
#[cfg(test)]
mod formats;
#[cfg(test)]
mod reading;
#[cfg(test)]
mod refused;
