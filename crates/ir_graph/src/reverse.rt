//! A graph with its edges turned round, entered by one more node.
ghost use Rattle.std.specs.Prelude.{◌≡◌, ◌↔◌, IfOk, IsTrue, option_copied};
ghost use Rattle.ir_graph.specs.Reverse.{CanReverse};

use crate::numbering::{nodes_at, number, set_of};
use crate::sinks::sink_ends;
use crate::{ControlFlowGraph, HasLabel};
use digraph::{sccs, transposed};
use indexmap::IndexSet;
use std::alloc::{AllocError, Global};
use std::hash::Hash;

/// A node of a graph whose edges are turned round.
#[derive(Clone, Copy, Debug, Eq, PartialEq, Hash)]
pub enum ReverseNode<N> {
    /// The entry, which isn't in the original graph.
    Sentinel,
    /// A node of the original graph.
    Real(N),
}

impl<N: Copy> ReverseNode<N> {
    ghost use Rattle.ir_graph.specs.declared.reverse.ReverseNode.TheVariants.{Sentinel, Real};
    ghost use Rattle.ir_graph.specs.ReverseNodes.{real_of};

    /// Whether it is the entry, which isn't in the original graph.
    pub fn is_sentinel(&self) -> bool
        ensures { IsTrue result ↔ (self.now ≡ Sentinel) }
    {
        matches!(self, ReverseNode::Sentinel)
    }

    /// The node of the original graph, if it is one.
    pub fn as_real(&self) -> Option<&N>
        ensures { option_copied result ≡ real_of self.now }
    {
        match self {
            ReverseNode::Sentinel => None,
            ReverseNode::Real(node) => Some(node),
        }
    }

    /// The node of the original graph, if it is one.
    pub fn into_real(self) -> Option<N>
        ensures { result ≡ real_of self }
    {
        match self {
            ReverseNode::Sentinel => None,
            ReverseNode::Real(node) => Some(node),
        }
    }
}

impl<C, N: HasLabel<C>> HasLabel<C> for ReverseNode<N> {
    ghost use Rattle.ir_graph.specs.ReverseNodes.{OfReal, IsReverseLabel};

    ghost has_label = { λ n c. OfReal (λ x. N.has_label x c) n };

    ghost is_label = { λ n c text. IsReverseLabel (λ x t. N.is_label x c t) n text };

    /// `sentinel`, or the label of the node of the original graph.
    ///
    /// # Errors
    /// There may be no memory.
    fn label(&self, alloc: Global, ctx: &C) -> Result<String, AllocError> {
        match self {
            ReverseNode::Sentinel => String::from_str(alloc, "sentinel"),
            ReverseNode::Real(node) => node.label(alloc, ctx),
        }
    }
}

/// A graph with its edges turned round, and one more node, the sentinel, which is its entry. It leads to the last node, in
/// the order of nodes, of each component that no edge of the original graph leaves.
#[derive(Drop)]
pub struct ReverseGraph<'a, G, N: Copy + Eq + Hash + Drop> {
    original: &'a G,
    pre_sentinels: IndexSet<N>,
}

/// The last nodes, in the order of nodes, of the components that no edge leaves.
fn pre_sentinels_of<C, G: ControlFlowGraph<C>>(
    alloc: Global,
    ctx: &C,
    graph: &G,
) -> Result<Vec<G::Node>, AllocError>
    requires { G.is_graph graph.now ctx.now }
    ensures { IfOk result (λ found. CanReverse (G.successors_of graph.now ctx.now)
        (G.nodes_of graph.now ctx.now) found.items) }
{
    let numbering = number(alloc, ctx, graph)?;
    let reverse = transposed(alloc, &numbering.rows)?;
    let parts = sccs(alloc, &numbering.rows, &reverse)?;
    let ends = sink_ends(alloc, &numbering.rows, parts)?;
    nodes_at(alloc, &numbering.nodes, &ends)
}

impl<'a, G, N: Copy + Eq + Hash + Drop> ReverseGraph<'a, G, N> {
    /// Turns a graph round. As a graph it may be asked as long as the original one is as it was.
    ///
    /// In time linear in nodes and edges: each node is asked once for its successors.
    ///
    /// # Errors
    /// There may be no memory.
    pub fn new<C>(
        alloc: Global,
        ctx: &C,
        original: &'a G,
    ) -> Result<ReverseGraph<'a, G, N>, AllocError>
    where
        G: ControlFlowGraph<C, Node = N>,
        requires { G.is_graph original.now ctx.now }
        ensures original { IfOk result (λ r. r.original.now ≡ original.now) }
        ensures found { IfOk result (λ r. CanReverse (G.successors_of original.now ctx.now)
            (G.nodes_of original.now ctx.now) r.pre_sentinels.keys) }
    {
        let found = pre_sentinels_of(alloc, ctx, original)?;
        Ok(ReverseGraph {
            original,
            pre_sentinels: set_of(alloc, &found)?,
        })
    }

    /// The graph whose edges are turned round.
    pub fn original(&self) -> &'a G
        ensures { result.now ≡ self.now.original.now }
    {
        self.original
    }

    /// The nodes to which the sentinel leads, in an open order.
    pub fn pre_sentinels(&self) -> &[N]
        ensures { result.now ≡ self.now.pre_sentinels.keys }
    {
        self.pre_sentinels.as_slice()
    }
}

impl<'a, C, G: ControlFlowGraph<C>> ControlFlowGraph<C> for ReverseGraph<'a, G, G::Node> {
    ghost use Rattle.std.specs.Prelude.{Some, refl};
    ghost use Rattle.ir_graph.specs.Reverse.{CanReverse, reverse_nodes, reverse_successors, reverse_predecessors};
    ghost use Rattle.ir_graph.specs.ReverseLaws.{same_reverse, reverse_distinct, reverse_onward, reverse_backward, reverse_converse, sentinel_in};
    ghost use Rattle.ir_graph.specs.declared.reverse.ReverseNode.TheVariants.{Sentinel, Real};

    type Node = ReverseNode<G::Node>;

    ghost is_graph = { λ r c. G.is_graph r.original.now c
        × CanReverse (G.successors_of r.original.now c) (G.nodes_of r.original.now c) r.pre_sentinels.keys };

    ghost nodes_of = { λ r c. reverse_nodes (G.nodes_of r.original.now c) };

    ghost entry_of = { λ r c. Some Sentinel };

    ghost successors_of = { λ r c n. reverse_successors (G.predecessors_of r.original.now c) r.pre_sentinels.keys n };

    ghost predecessors_of = { λ r c n. reverse_predecessors G.Node.eq
        (G.successors_of r.original.now c) r.pre_sentinels.keys n };

    fn num_successors(&self, ctx: &C, node: &ReverseNode<G::Node>) -> usize {
        match node {
            ReverseNode::Sentinel => self.pre_sentinels.len(),
            ReverseNode::Real(node) => self.original.num_predecessors(ctx, node),
        }
    }

    fn get_successor(
        &self,
        ctx: &C,
        node: &ReverseNode<G::Node>,
        index: usize,
    ) -> ReverseNode<G::Node> {
        match node {
            ReverseNode::Sentinel => ReverseNode::Real(self.pre_sentinels.as_slice()[index]),
            ReverseNode::Real(node) => ReverseNode::Real(
                self.original.get_predecessor(ctx, node, index),
            ),
        }
    }

    fn num_predecessors(&self, ctx: &C, node: &ReverseNode<G::Node>) -> usize {
        match node {
            ReverseNode::Sentinel => 0,
            ReverseNode::Real(node) => {
                self.original.num_successors(ctx, node)
                    + usize::from(self.pre_sentinels.contains(node))
            }
        }
    }

    fn get_predecessor(
        &self,
        ctx: &C,
        node: &ReverseNode<G::Node>,
        index: usize,
    ) -> ReverseNode<G::Node> {
        match node {
            ReverseNode::Sentinel => unreachable!(),
            ReverseNode::Real(node) => {
                if index < self.original.num_successors(ctx, node) {
                    ReverseNode::Real(self.original.get_successor(ctx, node, index))
                } else {
                    ReverseNode::Sentinel
                }
            }
        }
    }

    fn entry_node(&self, _ctx: &C) -> Option<ReverseNode<G::Node>> {
        Some(ReverseNode::Sentinel)
    }

    fn nodes(&self, alloc: Global, ctx: &C) -> Result<Vec<ReverseNode<G::Node>>, AllocError> {
        let mut nodes = Vec::new(alloc);
        nodes.push(ReverseNode::Sentinel)?;
        for node in &self.original.nodes(alloc, ctx)? {
            nodes.push(ReverseNode::Real(*node))?;
        }
        Ok(nodes)
    }

    ghost distinct = { λ r c h. reverse_distinct (G.nodes_of r.original.now c) (G.distinct r.original.now c h.0) };

    ghost entered = { λ r c h. sentinel_in (G.nodes_of r.original.now c) };

    ghost onward = { λ r c h. reverse_onward (G.nodes_of r.original.now c) r.pre_sentinels.keys
        (G.predecessors_of r.original.now c) (λ n k. (h.1.ends.only n k).0) (G.backward r.original.now c h.0) };

    ghost backward = { λ r c h. reverse_backward G.Node.eq (G.nodes_of r.original.now c) r.pre_sentinels.keys
        (G.successors_of r.original.now c) (G.onward r.original.now c h.0) };

    ghost converse = { λ r c h. reverse_converse G.Node.eq G.same G.Node.Eq.laws.refl
        (G.nodes_of r.original.now c) r.pre_sentinels.keys (G.successors_of r.original.now c)
        (G.predecessors_of r.original.now c) (G.converse r.original.now c h.0) };

    ghost same = { same_reverse G.Node.eq G.same _ (λ y. refl) (λ x. refl) (λ x y. refl) };
}
