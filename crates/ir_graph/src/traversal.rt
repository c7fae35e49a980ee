//! A depth-first search from the entry of a graph, with numbers of the nodes and kinds of the edges.
ghost use Rattle.std.specs.Prelude.{◌≡◌, true, Some, All, Contains, IfOk, IsTrue, ◌↔◌, option_to_list, reverse, slice_get};
ghost use Rattle.digraph.specs.Visits.{empty, Visits};
ghost use Rattle.ir_graph.specs.EdgeKinds.{DescendsIf, HasEdgeKind};
ghost use Rattle.ir_graph.specs.Graphs.{AreDistinctNodes, AreNodeNumbers};

use crate::ControlFlowGraph;
use crate::numbering::{nodes_at, number, number_row, set_of};
use digraph::depth_first;
use indexmap::IndexSet;
use std::alloc::{AllocError, Global};
use std::hash::Hash;
use std::marker::Model;

/// What an edge is to a depth-first search.
#[derive(Clone, Copy, Debug, Eq, PartialEq)]
pub enum DFSEdgeKind {
    /// It leads to a node that was first seen by way of its own.
    Forward,
    /// It leads to its own node, or to one by way of which its own was first seen.
    Back,
    /// Neither.
    Cross,
}

/// A depth-first search of all that the entry of a graph reaches. It holds the graph as it was, and doesn't change with it.
#[derive(Drop)]
pub struct DFSTraversal<N: Copy + Eq + Hash + Drop> {
    // The nodes in the order in which they were first seen.
    pre: IndexSet<N>,
    // The nodes in the order in which they were left.
    post: Vec<N>,
    // For each node in the first order its place in the second.
    post_numbers: Vec<usize>,
}

impl<N: Copy + Eq + Hash + Drop> Model for DFSTraversal<N> {
    ghost use Rattle.std.specs.Prelude.{◌≡◌, true};
    ghost use Rattle.digraph.specs.Visits.{Traversal};
    ghost use Rattle.ir_graph.specs.Graphs.{AreNodeNumbers};

    ghost Value = { Traversal N };

    ghost view = { λ t. record { seen = t.pre.keys; left = t.post.items } };

    ghost invariant = { λ t. AreNodeNumbers t.post.items t.post_numbers.items t.pre.keys
        × ((a b : N) → N.eq a b ≡ true → a ≡ b) };
}

/// The place of a node that is in the list.
fn place<N: Eq>(nodes: &[N], node: &N) -> usize
    requires same { (a b : N) → N.eq a b ≡ true → a ≡ b }
    requires known { Contains nodes.now node.now }
    ensures { slice_get nodes.now result ≡ Some node.now }
{
    match nodes.iter().position(|other| other == node) {
        Some(number) => number,
        None => unreachable!(),
    }
}

/// The number of the entry, if there is one.
fn entry_numbers<C, G: ControlFlowGraph<C>>(
    alloc: Global,
    ctx: &C,
    graph: &G,
    nodes: &[G::Node],
) -> Result<Vec<usize>, AllocError>
    requires graph { G.is_graph graph.now ctx.now }
    requires nodes { nodes.now ≡ G.nodes_of graph.now ctx.now }
    ensures { IfOk result (λ ids. AreNodeNumbers nodes.now ids.items (option_to_list (G.entry_of graph.now ctx.now))) }
{
    let mut ids = Vec::new(alloc);
    if let Some(entry) = graph.entry_node(ctx) {
        ids.push(place(nodes, &entry))?;
    }
    Ok(ids)
}

impl<N: Copy + Eq + Hash + Drop> DFSTraversal<N> {
    /// The traversal in which the nodes were seen and left in these orders.
    fn of_orders(alloc: Global, pre: &[N], post: Vec<N>) -> Result<DFSTraversal<N>, AllocError>
        requires same { (a b : N) → N.eq a b ≡ true → a ≡ b }
        requires seen_once { AreDistinctNodes pre.now }
        requires left_once { AreDistinctNodes post.items }
        requires both { All (λ n. Contains post.items n) pre.now }
        ensures { IfOk result (λ t. t ≡ record { seen = pre.now; left = post.items }) }
    {
        let by_post = set_of(alloc, &post)?;
        let post_numbers = number_row(alloc, &by_post, pre)?;
        Ok(DFSTraversal {
            pre: set_of(alloc, pre)?,
            post,
            post_numbers,
        })
    }

    /// Searches depth first from the entry, the successors of a node in their order. A graph without an entry has an empty
    /// search.
    ///
    /// Source: Cormen, Leiserson, Rivest, Stein, Introduction to Algorithms, section 20.3. In time linear in nodes and edges:
    /// each node is asked once for its successors.
    ///
    /// # Errors
    /// There may be no memory.
    pub fn new<C, G: ControlFlowGraph<C, Node = N>>(
        alloc: Global,
        ctx: &C,
        graph: &G,
    ) -> Result<DFSTraversal<N>, AllocError>
        requires { G.is_graph graph.now ctx.now }
        ensures { IfOk result (λ t. Visits (G.successors_of graph.now ctx.now) empty
            (option_to_list (G.entry_of graph.now ctx.now)) t) }
    {
        let numbering = number(alloc, ctx, graph)?;
        let roots = entry_numbers(alloc, ctx, graph, &numbering.nodes)?;
        let orders = depth_first(alloc, &numbering.rows, &roots)?;
        let pre = nodes_at(alloc, &numbering.nodes, &orders.pre)?;
        let post = nodes_at(alloc, &numbering.nodes, &orders.post)?;
        DFSTraversal::of_orders(alloc, &pre, post)
    }

    /// Whether the search saw the node: whether the entry reaches it. In constant time.
    pub fn contains(&self, node: &N) -> bool
        ensures { IsTrue result ↔ Contains self.now.seen node.now }
    {
        self.pre.contains(node)
    }

    /// The place of a node in the order in which nodes are first seen, from 0. In constant time.
    pub fn pre_order_number(&self, node: &N) -> usize
        requires { Contains self.now.seen node.now }
        ensures { slice_get self.now.seen result ≡ Some node.now }
    {
        match self.pre.get_index_of(node) {
            Some(number) => number,
            None => unreachable!(),
        }
    }

    /// The place of a node in the order in which nodes are left, from 0. In constant time.
    pub fn post_order_number(&self, node: &N) -> usize
        requires { Contains self.now.seen node.now }
        ensures { slice_get self.now.left result ≡ Some node.now }
    {
        self.post_numbers[self.pre_order_number(node)]
    }

    /// The place of a node in the reverse of the order in which nodes are left, from 0. In constant time.
    pub fn reverse_post_order_number(&self, node: &N) -> usize
        requires { Contains self.now.seen node.now }
        ensures { slice_get (reverse self.now.left) result ≡ Some node.now }
    {
        let number = self.post_order_number(node);
        self.post.len() - 1 - number
    }

    /// The nodes in the order in which they were first seen.
    ///
    /// # Errors
    /// There may be no memory.
    pub fn pre_order(&self, alloc: Global) -> Result<Vec<N>, AllocError>
        ensures { IfOk result (λ order. order.items ≡ self.now.seen) }
    {
        Vec::from_slice(alloc, self.pre.as_slice())
    }

    /// The nodes in the order in which they were left.
    ///
    /// # Errors
    /// There may be no memory.
    pub fn post_order(&self, alloc: Global) -> Result<Vec<N>, AllocError>
        ensures { IfOk result (λ order. order.items ≡ self.now.left) }
    {
        Vec::from_slice(alloc, &self.post)
    }

    /// The nodes in the reverse of the order in which they were left.
    ///
    /// # Errors
    /// There may be no memory.
    pub fn reverse_post_order(&self, alloc: Global) -> Result<Vec<N>, AllocError>
        ensures { IfOk result (λ order. order.items ≡ reverse self.now.left) }
    {
        let mut order = Vec::from_slice(alloc, &self.post)?;
        order.reverse();
        Ok(order)
    }

    /// Whether the second node is the first or descends from it: it was seen no earlier, and left no later.
    fn descends(&self, from: &N, to: &N) -> bool
        requires from { Contains self.now.seen from.now }
        requires to { Contains self.now.seen to.now }
        ensures { DescendsIf self.now from.now to.now (IsTrue result) }
    {
        let is_seen_later = self.pre_order_number(from) <= self.pre_order_number(to);
        let is_left_earlier = self.post_order_number(to) <= self.post_order_number(from);
        is_seen_later && is_left_earlier
    }

    /// The kind of an edge from a node to one of its successors, in every graph of which this is a search.
    ///
    /// Source: Cormen, Leiserson, Rivest, Stein, Introduction to Algorithms, section 20.3: by the times at which the two nodes
    /// are first seen and left. In constant time.
    pub fn edge_kind(&self, from: &N, to: &N) -> DFSEdgeKind
        requires from { Contains self.now.seen from.now }
        requires to { Contains self.now.seen to.now }
        ensures { HasEdgeKind self.now from.now to.now result }
    {
        if self.descends(to, from) {
            DFSEdgeKind::Back
        } else if self.descends(from, to) {
            DFSEdgeKind::Forward
        } else {
            DFSEdgeKind::Cross
        }
    }
}
