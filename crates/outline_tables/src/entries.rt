//! Entries, as a section has them.
use ir_names::Identifier;

/// What stands under a key of an entry.
#[derive(Debug, PartialEq, Eq, Drop)]
pub enum Reference<A> {
    /// An attribute.
    Here(A),
    /// The mark of an attribute that has an entry of its own.
    AtMark(u64),
}

/// What an index leads to.
#[derive(Debug, PartialEq, Eq, Drop)]
pub enum Entry<A, L> {
    /// What stands beside an operation or a block: where it comes from, if that is said, and attributes under keys.
    Bracketed {
        location: Option<L>,
        attributes: Vec<(Identifier, Reference<A>)>,
    },
    /// A single attribute.
    Single(A),
}

/// What stands beside an operation or a block, its marks looked up.
#[derive(Drop)]
pub struct Outlined<'a, A, L> {
    /// Where it comes from, if that is said.
    pub location: Option<&'a L>,
    /// Attributes under keys, in the order of the entry.
    pub attributes: Vec<(&'a Identifier, &'a A)>,
}
