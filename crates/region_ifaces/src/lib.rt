//! Branches into regions: edges into the regions of an operation, between them, and out of them, and their verifier.
#![tactic(auto)]

mod edge_tests;
mod region_branches;
mod region_edges;

pub use region_branches::{
    RegionBranchOpInterface, RegionBranchOpInterfaceVerifyErr, RegionBranches,
};
pub use region_edges::{RegionBranchPoint, RegionEdge, RegionSuccessor, ValueRange};
