//! What a walk answers that made as many calls as it may.
use thiserror::Error;

/// A walk made as many calls as its limit, and comes to a further one.
#[derive(Clone, Copy, Debug, PartialEq, Eq, Error)]
#[error("the walk would make more calls than its limit")]
pub struct WalkLimit;
