//! What operations and blocks carry besides what stands where.
ghost use Rattle.std.specs.Prelude.{◌≡◌};

use ir_names::{AttributeDict, Identifier};
use ir_types::DialectTables;

/// What may be changed of an operation at any time: its attributes, and where it comes from.
#[derive(Drop)]
pub struct OperationNotes<D: DialectTables> {
    pub attributes: AttributeDict<D>,
    pub loc: D::Location,
}

/// What may be changed of a block at any time: its attributes, where it comes from, and its label.
#[derive(Drop)]
pub struct BlockNotes<D: DialectTables> {
    pub attributes: AttributeDict<D>,
    pub loc: D::Location,
    pub label: Option<Identifier>,
}

/// What is kept of an operation for its dialect: its kind, and its notes.
#[derive(Drop)]
pub struct OperationData<D: DialectTables> {
    pub(crate) kind: D::OpKind,
    pub notes: OperationNotes<D>,
}

impl<D: DialectTables> OperationData<D> {
    /// What an operation of this kind carries, with these notes.
    pub fn new(kind: D::OpKind, notes: OperationNotes<D>) -> OperationData<D>
        ensures kind { result.kind ≡ kind }
        ensures notes { result.notes ≡ notes }
    {
        OperationData { kind, notes }
    }

    /// The kind of the operation.
    pub fn kind(&self) -> D::OpKind
        ensures { result ≡ self.now.kind }
    {
        self.kind
    }
}
