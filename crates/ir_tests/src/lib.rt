//! Tests of the store, of the core and of graphs by their public calls: that calls succeed where memory is ample, and worked examples of
//! what they answer. They stand here so that each of those crates is proved once.
#![tactic(auto)]

#[cfg(test)]
mod arenas;
#[cfg(test)]
mod around;
#[cfg(test)]
mod asserting;
#[cfg(test)]
mod dictionaries;
#[cfg(test)]
mod fresh;
#[cfg(test)]
mod holder_edits;
#[cfg(test)]
mod identifiers;
#[cfg(test)]
mod interning;
#[cfg(test)]
mod joined;
#[cfg(test)]
mod list_edits;
#[cfg(test)]
mod lists;
#[cfg(test)]
mod numbers;
#[cfg(test)]
mod orders;
#[cfg(test)]
mod place_rows;
#[cfg(test)]
mod playing;
#[cfg(test)]
mod refusals;
#[cfg(test)]
mod regions;
#[cfg(test)]
mod replaced;
#[cfg(test)]
mod reverse;
#[cfg(test)]
mod row_edits;
#[cfg(test)]
mod rows;
#[cfg(test)]
mod standing;
#[cfg(test)]
mod traversals;
#[cfg(test)]
mod types;
#[cfg(test)]
mod unique_names;
#[cfg(test)]
mod use_tables;
#[cfg(test)]
mod uses;
#[cfg(test)]
mod verified;
