//! Where a module keeps the rules of `kit`, the optimisations can be called on it; a module of a context that keeps them,
//! and that no operation outside it leads into or takes a value of, stays apart; and what the optimisations promise of a
//! context is what the laws on trees of modules ask. Each function here is a law, and its contract says it.
#![tactic(auto)]

mod apart;
mod edges;
mod live_uses;
mod naming;
mod operands;
mod premises;
mod refusals;
mod surroundings;

ghost use Rattle.kit_ruled_passes.specs.Laws.{RemovedStandAlone, SimplifiedStandAlone};

pub use apart::{dce_stays_apart, sccp_stays_apart, simplify_stays_apart};
pub use edges::know_edges;
pub use live_uses::know_no_live_use;
pub use naming::know_propagated;
pub use operands::know_determined;
pub use premises::know_premises;
pub use refusals::{know_no_refusal, know_scopes};
pub use surroundings::know_surroundings;

/// What is left without what is dead is removal of dead values on the tree alone, where nothing outside takes a value of it.
pub fn removed_stand_alone()
    ensures { RemovedStandAlone }
{}

/// Control flow that is simplified is simplified on the tree alone, where of its values exactly constants are known.
pub fn simplified_stand_alone()
    ensures { SimplifiedStandAlone }
{}
