//! What the three optimisations make of trees, for every dialect: definitions, and laws over them.
#![tactic(auto)]

mod laws;

pub use laws::{
    back_refuses, cut_goal, cut_orderly, dce_goal, dce_renames, dce_twice, facts_kept, one_best,
    one_dce, one_sccp, one_simplify, refusals_rename, same_results, sccp_goal, sccp_renames,
    simplify_goal, simplify_renames,
};
