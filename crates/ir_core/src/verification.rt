//! Whether a program is as its dialect wants it: its blocks end as they have to, and the dialect's own
//! tests accept its operations, attributes and types. No memory is asked for.

mod asking;
mod blocks;
mod errors;
mod nodes;
mod verifiers;
mod verify;
mod verifying;

pub use errors::{BasicBlockVerifyErr, VerifyErr};
pub use verifiers::Verifiers;
pub use verify::{verify_attr, verify_op, verify_operation, verify_type};
pub use verifying::Verify;
