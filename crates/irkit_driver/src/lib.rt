//! All that `irkit` does, as calls: from a reader to a module, through passes to text, runs of functions, and the
//! program on its words.
//!
//! - [`load`] reads a module into a context and tests its rules; [`run`] reads one, runs passes and writes it; [`check`]
//!   reads one and writes `ok`; [`execute`] reads one, runs a function of it and writes what the run did, by [`report`].
//! - [`optimise`] runs passes over a module that [`load`] gave, and [`text_of`] gives its text: a program of one's own needs these
//!   three, and a [`Context`] of [`Kit`].
//! - [`rules`] tests the rules on a module of a context, and [`exec`] runs a function of one that keeps them.
//! - [`serve`] makes the call that a [`Request`] asks for, tells how it ended, and gives the program's status.
//! - [`drive`] is the program on the words of its command line, and gives its status. [`tell_refusal`] and its kin tell faults as it does.
//! - [`laws`] are statements on the definitions alone, each proved by the contract of a function that does nothing.
//!
//! All read and write through [`Watched`], which remembers a failed call. Each call ends in an answer or in one
//! [`Refusal`], and its contract says, by cases on the whole answer, what was read and written then.
#![tactic(auto)]

mod checking;
mod driving;
mod executing;
mod faults;
pub mod laws;
mod reporting;

pub use checking::check;
pub use driving::{drive, serve, serve_last};
pub use executing::execute;
pub use faults::{tell, tell_execution_fault, tell_refusal};
pub use ir_base::GrowError;
pub use ir_context::Context;
pub use ir_names::Identifier;
pub use ir_program::{Operation, Ptr};
pub use irkit_refusals::{ExecutionFault, Refusal};
pub use irkit_running::{load, optimise, run, text_of};
pub use irkit_streams::Watched;
pub use irkit_words::{Execution, KitPass, Request};
pub use kit::{Kit, let_go};
pub use kit_checks::RuleFault;
pub use kit_execution::execute as exec;
pub use kit_flat::Outcome;
pub use kit_interpreter::ExecFault;
pub use kit_verifier::verify_module as rules;
pub use reporting::report;
