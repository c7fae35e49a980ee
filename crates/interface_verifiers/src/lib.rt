//! Verifying operations by the interfaces that their dialect's table lists.
#![tactic(auto)]

mod builtin_rules;
mod faults;
mod interfaces;
mod region_branches;
mod summary;
mod verifiers;

pub use faults::{BuiltinOpErr, InterfaceErr, OperationFault};
pub use region_branches::{NoRegionBranches, RegionBranchVerifier, RegionBranchesOfDialect};
pub use summary::Summarized;
pub use verifiers::InterfaceVerifiers;
