//! Tests of `ir_scopes` by its public calls: where a region opens below a root that isn't isolated from above.
#![tactic(auto)]

#[cfg(test)]
mod roots;
