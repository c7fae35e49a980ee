//! How a run of a function ends.

/// What a run did in as many steps as it was given, at most.
#[derive(Debug, PartialEq, Eq, Drop)]
pub enum Outcome {
    /// The function returned these values; before that these numbers were emitted, in order.
    Ended(Vec<u64>, Vec<u64>),
    /// An operation trapped, after these emissions.
    Trapped(Vec<u64>),
    /// The steps ran out, after these emissions.
    Limit(Vec<u64>),
}
