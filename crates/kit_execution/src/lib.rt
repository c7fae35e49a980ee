//! Running the functions of a module that keeps the rules of `kit`; and the two machines of the dialect are in step: the
//! one that runs the functions of a context, and the one that runs programs of flat functions. Each function that stands
//! here has no code, and its contract is a law over the definitions in specs/.
#![tactic(auto)]

mod executing;

ghost use Rattle.kit_execution.specs.Laws.{NumberingsExist, PathsMeet, RunsAsProgram};

pub use executing::{execute, know_runs};

/// The run of the function that a path leads to is the run of the module's program from the same path, step by step.
pub fn runs_are_program_runs()
    ensures { RunsAsProgram }
{}

/// A path leads to a function of the context exactly where it leads to one of the module's program.
pub fn paths_meet()
    ensures { PathsMeet }
{}

/// There is a numbering of texts.
pub fn know_numbering()
    ensures { NumberingsExist }
{}
