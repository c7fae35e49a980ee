//! What a graph of control flow is asked.
ghost use Rattle.std.specs.Prelude.{◌≡◌, ◌↔◌, ◌<◌, ℕ, List, Option, Some, true, length, slice_get, Contains, IfOk, IfSome};
ghost use Rattle.std.specs.String.{string_bytes};
ghost use Rattle.ir_graph.specs.Graphs.{AreDistinctNodes};

use std::alloc::{AllocError, Global};
use std::hash::Hash;

/// Something that has a name to be shown by.
pub trait HasLabel<C> {
    /// In this context it has a label.
    ghost has_label: { Self → C → Type 0 };

    /// In this context its label is this text.
    ghost is_label: { Self → C → List ℕ → Type 0 };

    /// Its label.
    ///
    /// # Errors
    /// There may be no memory.
    fn label(&self, alloc: Global, ctx: &C) -> Result<String, AllocError>
        requires { has_label self.now ctx.now }
        ensures { IfOk result (λ text. is_label self.now ctx.now (string_bytes text)) };
}

/// A directed graph that a context of type `C` holds, with an entry. A node may have one successor more than once.
pub trait ControlFlowGraph<C> {
    /// What stands for a node.
    type Node: Copy + Eq + Hash + HasLabel<C> + Drop;

    /// In this context it is a graph: what is said below holds of it.
    ghost is_graph: { Self → C → Type 0 };

    /// Its nodes, in order.
    ghost nodes_of: { Self → C → List Self.Node };

    /// Its entry, if it has a node.
    ghost entry_of: { Self → C → Option Self.Node };

    /// The successors of a node, in order.
    ghost successors_of: { Self → C → Self.Node → List Self.Node };

    /// The predecessors of a node, in order.
    ghost predecessors_of: { Self → C → Self.Node → List Self.Node };

    /// How many successors a node has.
    fn num_successors(&self, ctx: &C, node: &Self::Node) -> usize
        requires graph { is_graph self.now ctx.now }
        requires node { Contains (nodes_of self.now ctx.now) node.now }
        ensures { result ≡ length (successors_of self.now ctx.now node.now) };

    /// The successor at an index, from 0.
    fn get_successor(&self, ctx: &C, node: &Self::Node, index: usize) -> Self::Node
        requires graph { is_graph self.now ctx.now }
        requires node { Contains (nodes_of self.now ctx.now) node.now }
        requires index { index < length (successors_of self.now ctx.now node.now) }
        ensures { slice_get (successors_of self.now ctx.now node.now) index ≡ Some result };

    /// How many predecessors a node has.
    fn num_predecessors(&self, ctx: &C, node: &Self::Node) -> usize
        requires graph { is_graph self.now ctx.now }
        requires node { Contains (nodes_of self.now ctx.now) node.now }
        ensures { result ≡ length (predecessors_of self.now ctx.now node.now) };

    /// The predecessor at an index, from 0.
    fn get_predecessor(&self, ctx: &C, node: &Self::Node, index: usize) -> Self::Node
        requires graph { is_graph self.now ctx.now }
        requires node { Contains (nodes_of self.now ctx.now) node.now }
        requires index { index < length (predecessors_of self.now ctx.now node.now) }
        ensures { slice_get (predecessors_of self.now ctx.now node.now) index ≡ Some result };

    /// The successors of a node, in order.
    ///
    /// # Errors
    /// There may be no memory.
    fn successors(
        &self,
        alloc: Global,
        ctx: &C,
        node: &Self::Node,
    ) -> Result<Vec<Self::Node>, AllocError>
        requires graph { is_graph self.now ctx.now }
        requires node { Contains (nodes_of self.now ctx.now) node.now }
        ensures { IfOk result (λ row. row.items ≡ successors_of self.now ctx.now node.now) }
    {
        let mut row = Vec::new(alloc);
        for index in 0..self.num_successors(ctx, node) {
            row.push(self.get_successor(ctx, node, index))?;
        }
        Ok(row)
    }

    /// The predecessors of a node, in order.
    ///
    /// # Errors
    /// There may be no memory.
    fn predecessors(
        &self,
        alloc: Global,
        ctx: &C,
        node: &Self::Node,
    ) -> Result<Vec<Self::Node>, AllocError>
        requires graph { is_graph self.now ctx.now }
        requires node { Contains (nodes_of self.now ctx.now) node.now }
        ensures { IfOk result (λ row. row.items ≡ predecessors_of self.now ctx.now node.now) }
    {
        let mut row = Vec::new(alloc);
        for index in 0..self.num_predecessors(ctx, node) {
            row.push(self.get_predecessor(ctx, node, index))?;
        }
        Ok(row)
    }

    /// The node at which control enters, if there is one.
    fn entry_node(&self, ctx: &C) -> Option<Self::Node>
        requires { is_graph self.now ctx.now }
        ensures { result ≡ entry_of self.now ctx.now };

    /// All nodes, in order, each once.
    ///
    /// # Errors
    /// There may be no memory.
    fn nodes(&self, alloc: Global, ctx: &C) -> Result<Vec<Self::Node>, AllocError>
        requires { is_graph self.now ctx.now }
        ensures { IfOk result (λ nodes. nodes.items ≡ nodes_of self.now ctx.now) };

    /// No node is there twice.
    ghost distinct: { (g : Self) (c : C) → is_graph g c → AreDistinctNodes (nodes_of g c) };

    /// The entry is a node.
    ghost entered: { (g : Self) (c : C) → is_graph g c → IfSome (entry_of g c) (λ n. Contains (nodes_of g c) n) };

    /// Successors are nodes.
    ghost onward: { (g : Self) (c : C) → is_graph g c → (n m : Self.Node) → Contains (nodes_of g c) n
        → Contains (successors_of g c n) m → Contains (nodes_of g c) m };

    /// Predecessors are nodes.
    ghost backward: { (g : Self) (c : C) → is_graph g c → (n m : Self.Node) → Contains (nodes_of g c) n
        → Contains (predecessors_of g c n) m → Contains (nodes_of g c) m };

    /// A node is a predecessor of another exactly where this is a successor of it.
    ghost converse: { (g : Self) (c : C) → is_graph g c → (n m : Self.Node) → Contains (nodes_of g c) n
        → Contains (nodes_of g c) m → Contains (predecessors_of g c m) n ↔ Contains (successors_of g c n) m };

    /// Nodes that compare equal are the same.
    ghost same: { (n m : Self.Node) → Self.Node.eq n m ≡ true → n ≡ m };
}
