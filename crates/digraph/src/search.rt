//! A depth-first search with a stack of its own.
ghost use Rattle.std.specs.Prelude.{ℕ, ◌≡◌, ◌<◌, ◌∷◌, ◌++◌, [], ◌↔◌, IfOk, IsTrue, MatchBool, OnOk, length};
ghost use Rattle.digraph.specs.Graph.{InRange, successors};
ghost use Rattle.digraph.specs.Marks.{IsMarked};
ghost use Rattle.digraph.specs.Visits.{Visits};

use crate::orders::Orders;
use std::alloc::{AllocError, Global};

/// A node that was seen and not yet left, and how many of its successors were looked at.
#[derive(Clone, Copy)]
pub(crate) struct Open {
    pub node: usize,
    pub next: usize,
}

/// What was seen and left so far, and the open nodes, the last one on top.
#[derive(Drop)]
pub(crate) struct Search {
    pub seen: Vec<bool>,
    pub pre: Vec<usize>,
    pub post: Vec<usize>,
    pub path: Vec<Open>,
}

impl Search {
    ghost use Rattle.digraph.specs.Searches.{IsNewSearch, IsSearch, Enters, Goes, RestsUnchanged, orders};
    ghost use Rattle.digraph.specs.Orders.{order_of};

    pub(crate) fn new(alloc: Global, count: usize) -> Result<Search, AllocError>
        ensures { IfOk result (λ s. IsNewSearch s count) }
    {
        Ok(Search {
            seen: vec![in alloc; false; count]?,
            pre: Vec::new(alloc),
            post: Vec::new(alloc),
            path: Vec::new(alloc),
        })
    }

    /// Opens a node that wasn't seen.
    fn enter(&mut self, node: usize) -> Result<(), AllocError>
        requires { node < length self.old.seen.items }
        ensures { OnOk result (Enters self.old self.new node) }
    {
        if !self.seen[node] {
            self.seen[node] = true;
            self.pre.push(node)?;
            self.path.push(Open { node, next: 0 })?;
        }
        Ok(())
    }

    /// Looks at one successor of the last open node, or leaves it. False where no node is open.
    fn step(&mut self, graph: &[Vec<usize>]) -> Result<bool, AllocError>
        requires graph { InRange graph.now }
        requires search { IsSearch graph.now self.old }
        ensures { IfOk result
            (λ more. MatchBool more (Goes graph.now self.old self.new) (RestsUnchanged self.old self.new)) }
    {
        let Some(top) = self.path.pop() else {
            return Ok(false);
        };
        let successors = &graph[top.node];
        if top.next < successors.len() {
            let node = successors[top.next];
            self.path.push(Open {
                node: top.node,
                next: top.next + 1,
            })?;
            self.enter(node)?;
        } else {
            self.post.push(top.node)?;
        }
        Ok(true)
    }

    /// Visits a node: if it wasn't seen, all that it leads to over nodes that weren't, depth first.
    pub(crate) fn visit(&mut self, graph: &[Vec<usize>], root: usize) -> Result<(), AllocError>
        requires graph { InRange graph.now }
        requires search { IsSearch graph.now self.old }
        requires idle { self.old.path.items ≡ [] }
        requires root { root < length graph.now }
        ensures visited { OnOk result (Visits (successors graph.now) (orders self.old) (root ∷ []) (orders self.new)) }
        ensures search { OnOk result (IsSearch graph.now self.new) }
        ensures idle { OnOk result (self.new.path.items ≡ []) }
    {
        self.enter(root)?;
        'steps: while self.step(graph)? {}
        Ok(())
    }

    /// Visits a node, and answers the nodes that were left meanwhile, in order.
    pub(crate) fn visit_apart(
        &mut self,
        alloc: Global,
        graph: &[Vec<usize>],
        root: usize,
    ) -> Result<Vec<usize>, AllocError>
        requires graph { InRange graph.now }
        requires search { IsSearch graph.now self.old }
        requires idle { self.old.path.items ≡ [] }
        requires root { root < length graph.now }
        ensures visited { OnOk result (Visits (successors graph.now) (orders self.old) (root ∷ []) (orders self.new)) }
        ensures part { IfOk result (λ part. self.new.post.items ≡ self.old.post.items ++ part.items) }
        ensures search { OnOk result (IsSearch graph.now self.new) }
        ensures idle { OnOk result (self.new.path.items ≡ []) }
    {
        let start = self.post.len();
        self.visit(graph, root)?;
        Vec::from_slice(alloc, &self.post[start..])
    }

    /// Whether a node was seen.
    pub(crate) fn has_seen(&self, node: usize) -> bool
        requires { node < length self.now.seen.items }
        ensures { IsTrue result ↔ IsMarked self.now.seen.items node }
    {
        self.seen[node]
    }

    pub(crate) fn into_orders(self) -> Orders
        ensures pre { result.pre ≡ self.pre }
        ensures post { result.post ≡ self.post }
    {
        let Search {
            seen,
            pre,
            post,
            path,
        } = self;
        let _ = seen;
        let _ = path;
        Orders { pre, post }
    }
}
