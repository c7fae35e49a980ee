//! From a reader to a module, and through passes to text.
//!
//! [`load`] reads a module into a context and tests its rules; [`run`] reads one, runs passes and writes it, and
//! [`run_in`] does so in a context that is given. [`optimise`] and [`text_of`] are the parts of it behind [`load`].
//!
//! All read and write through `Watched` of `irkit_streams`. Each call ends in an answer or in one `Refusal`, and its
//! contract says, by cases on the whole answer, what was read and written then.
#![tactic(auto)]

mod apart;
mod knowing;
mod loading;
mod running;

pub use loading::load;
pub use running::{optimise, run, run_in, text_of};
