//! Interfaces of operations and types that read what a dialect's attributes and types hold: operands in segments, branches,
//! symbols, calls and types of functions; and a verifier of any interface that a table names.
#![tactic(auto)]

mod attributes;
mod branches;
mod callees;
mod calls;
mod forwarding;
mod function_types;
mod operand_ranges;
mod segment_types;
mod segments;
mod sizes;
mod symbols;
mod verifying;

pub use branches::{BranchOpInterface, BranchOpInterfaceVerifyErr};
pub use builtin_tables::{BuiltinDialect, CalleePlace, SuccessorLayout, keys};
pub use callees::CallOpCallable;
pub use calls::{CallOpInterface, CallOpInterfaceErr};
pub use function_types::FunctionTypeInterface;
pub use segment_types::{SegmentNOfType, SegmentNOfTypeError};
pub use segments::{OperandSegmentInterface, OperandSegmentInterfaceVerifyErr};
pub use symbols::{SymbolOpInterface, SymbolOpInterfaceErr};
pub use verifying::{InterfaceFault, VerifyFault, verify_interface, verify_interfaces};
