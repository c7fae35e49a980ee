//! Marks on the nodes of a graph, and the marked ones that are still to be looked at.
ghost use Rattle.std.specs.Prelude.{ℕ, ◌≡◌, ◌<◌, ◌∷◌, [], All, IfOk, IfSome, IfNone, OnOk, length};
ghost use Rattle.digraph.specs.Marks.{IsMarked};

use std::alloc::{AllocError, Global};

/// A set of nodes, as marks, with a list of those among them that wait. Each node waits once at most.
#[derive(Drop)]
pub struct Worklist {
    pub marked: Vec<bool>,
    pub waiting: Vec<usize>,
    ghost waiting_marked: { All (IsMarked marked.items) waiting.items },
}

impl Worklist {
    ghost use Rattle.digraph.specs.Work.{IsEmptyWorklist, Adds, Takes, IsDone};

    /// No node of `count` nodes is marked.
    ///
    /// # Errors
    /// There may be no memory.
    pub fn new(alloc: Global, count: usize) -> Result<Worklist, AllocError>
        ensures { IfOk result (λ w. IsEmptyWorklist w count) }
    {
        Ok(Worklist {
            marked: vec![in alloc; false; count]?,
            waiting: Vec::new(alloc),
        })
    }

    /// Marks a node, and puts it on the list if it had no mark.
    ///
    /// # Errors
    /// There may be no memory.
    pub fn add(&mut self, node: usize) -> Result<(), AllocError>
        requires { node < length self.old.marked.items }
        ensures { OnOk result (Adds self.old self.new (node ∷ [])) }
    {
        if !self.marked[node] {
            self.marked[node] = true;
            self.waiting.push(node)?;
        }
        Ok(())
    }

    /// Marks some nodes, and puts those on the list that had no mark.
    ///
    /// # Errors
    /// There may be no memory.
    pub fn add_all(&mut self, nodes: &[usize]) -> Result<(), AllocError>
        requires { All (λ n. n < length self.old.marked.items) nodes.now }
        ensures { OnOk result (Adds self.old self.new nodes.now) }
    {
        for node in nodes {
            self.add(*node)?;
        }
        Ok(())
    }

    /// Takes a node from the list, if one waits.
    pub fn take(&mut self) -> Option<usize>
        ensures some { IfSome result (Takes self.old self.new) }
        ensures none { IfNone result (IsDone self.old) }
        ensures empty { IfNone result (self.new.waiting.items ≡ []) }
        ensures marked { self.new.marked ≡ self.old.marked }
    {
        self.waiting.pop()
    }

    /// The marks alone.
    pub fn into_marked(self) -> Vec<bool>
        ensures { result ≡ self.marked }
    {
        let Worklist { marked, waiting } = self;
        let _ = waiting;
        marked
    }
}
