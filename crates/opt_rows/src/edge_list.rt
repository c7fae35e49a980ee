//! Edges of branches in lists.
ghost use Rattle.std.specs.Prelude.{◌≡◌, ◌<◌, ◌++◌, ◌∷◌, [], length, OnOk, OnErr, IfOk};
ghost use Rattle.opt_rows.specs.OperationRows.{edge_numbered};

use crate::number_rows::NumberRows;
use std::alloc::{AllocError, Global};
use std::marker::Model;

/// Edges of branches: of each the block that it leads to, and which operands are forwarded along it, by their indices,
/// in the order of the arguments of the block. What is forwarded stands in one list, so that no edge asks for memory of
/// its own.
#[derive(Drop)]
pub struct EdgeList {
    targets: Vec<usize>,
    forwards: NumberRows,
}

impl Model for EdgeList {
    ghost use Rattle.std.specs.Prelude.{◌≡◌, List, length};
    ghost use Rattle.opt_rows.specs.OperationRows.{BranchEdge, numbered, edge_in};

    ghost Value = { List BranchEdge };

    ghost view = { λ e. numbered (edge_in e.targets.items e.forwards) (length e.targets.items) };

    ghost invariant = { λ e. length e.forwards ≡ length e.targets.items };
}

impl EdgeList {
    /// No edge.
    ///
    /// # Errors
    /// There may be no memory.
    pub fn new(alloc: Global) -> Result<EdgeList, AllocError>
        ensures { IfOk result (λ e. e ≡ []) }
    {
        Ok(EdgeList {
            targets: Vec::new(alloc),
            forwards: NumberRows::with_capacity(alloc, 0, 0)?,
        })
    }

    /// How many edges there are.
    pub fn len(&self) -> usize
        ensures { result ≡ length self.now }
    {
        self.targets.len()
    }

    /// The block that the edge at an index leads to.
    pub fn target(&self, index: usize) -> usize
        requires { index < length self.now }
        ensures { result ≡ (edge_numbered self.now index).target }
    {
        self.targets[index]
    }

    /// Which operands are forwarded along the edge at an index.
    pub fn forwards(&self, index: usize) -> &[usize]
        requires { index < length self.now }
        ensures { result.now ≡ (edge_numbered self.now index).forwards }
    {
        self.forwards.row(index)
    }

    /// Puts an edge behind the others.
    ///
    /// # Errors
    /// There may be no memory. Then the edges stay.
    pub fn push(&mut self, target: usize, forwards: &[usize]) -> Result<(), AllocError>
        ensures ok { OnOk result (self.new ≡ self.old ++ (record { target = target; forwards = forwards.now }) ∷ []) }
        ensures err { OnErr result (self.new ≡ self.old) }
    {
        self.targets.reserve(1)?;
        self.forwards.push_row(forwards)?;
        self.targets.push_reserved(target);
        Ok(())
    }

    /// Puts edges behind the others.
    ///
    /// # Errors
    /// There may be no memory. Then some of them may be there.
    pub fn append(&mut self, more: &EdgeList) -> Result<(), AllocError>
        ensures { OnOk result (self.new ≡ self.old ++ more.now) }
    {
        for index in 0..more.len() {
            self.push(more.target(index), more.forwards(index))?;
        }
        Ok(())
    }

    /// Lets all edges go. Their memory stays for others.
    pub fn clear(&mut self)
        ensures { self.new ≡ [] }
    {
        self.targets.clear();
        self.forwards.clear();
    }
}
