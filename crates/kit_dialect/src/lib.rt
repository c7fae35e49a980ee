//! The dialect `kit` by one name: its kinds, types and attributes, its rules, and runs of its functions.
//!
//! - [`Kit`] is the dialect: `Context<Kit>` holds programs of it. [`KitOp`], [`KitType`] and [`KitAttr`] are its kinds of operations,
//!   its types and its attributes.
//! - [`rules`] tests the fourteen rules on a module of a context, and tells the first that is broken, with its place.
//! - [`exec`] runs a function of a module that keeps them, for at most so many steps.
#![tactic(auto)]

pub use kit::{Kit, let_go};
pub use kit_checks::{Rule, RuleFault, place_of};
pub use kit_execution::execute as exec;
pub use kit_flat::Outcome;
pub use kit_interpreter::ExecFault;
pub use kit_ops::{
    Arithmetic, Comparison, FunctionType, IntegerAttr, IntegerType, KitAttr, KitAttrKind,
    KitLocation, KitOp, KitPass, KitType, KitTypeKind, keys,
};
pub use kit_verifier::verify_module as rules;
