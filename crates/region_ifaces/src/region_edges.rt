//! Edges into the regions of an operation, between them, and out of them.
use ir_program::{Operation, Ptr, Region};

/// Where an edge leads from.
#[derive(Clone, Copy, Debug, PartialEq, Eq, Hash)]
pub enum RegionBranchPoint {
    /// The operation that has the regions.
    Parent,
    /// A terminator in one of its regions.
    Terminator(Ptr<Operation>),
}

/// Where an edge leads to.
#[derive(Clone, Copy, Debug, PartialEq, Eq, Hash)]
pub enum RegionSuccessor {
    /// The entry block of a region of the operation.
    Region(Ptr<Region>),
    /// What comes after the operation.
    After,
}

/// Some values in a row, one behind the other.
#[derive(Clone, Copy, Debug, PartialEq, Eq, Hash)]
pub struct ValueRange {
    /// The index of the first.
    pub first: usize,
    /// How many there are.
    pub count: usize,
}

/// An edge into a region of an operation, between two of them, or out of one.
#[derive(Clone, Copy, Debug, PartialEq, Eq, Hash)]
pub struct RegionEdge {
    /// Where it leads from.
    pub source: RegionBranchPoint,
    /// Where it leads to.
    pub target: RegionSuccessor,
    /// The operands that it hands on, of the operation or of the terminator that it leads from.
    pub operands: ValueRange,
    /// What is given them, of the arguments of the region's entry block or of the operation's results.
    pub receivers: ValueRange,
}
