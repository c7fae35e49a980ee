//! The names of a text: where they stand, what they mean, and the first fault of scopes; and how deep its parts stand.
//!
//! All is over the events that reading gives. [`look_up`](scopes::look_up) looks up values and labels in their scopes.
#![tactic(auto)]

pub mod depth;
pub mod scopes;
pub mod sites;
