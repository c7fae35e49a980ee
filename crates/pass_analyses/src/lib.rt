//! Analyses of operations, computed on demand and kept, and what pass managers share.
#![tactic(auto)]

mod analysis;
mod cache;
mod manager;
mod none;
mod settings;
mod verified;

pub use analysis::Analysis;
pub use cache::AnalysisCache;
pub use manager::{AnalysisManager, PassResult};
pub use none::NoAnalysis;
pub use settings::{PMConfig, PMData, PMState};
pub use verified::{Verified, VerifiedContext};
