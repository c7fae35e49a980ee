//! Lists of nodes, threaded through one table, with no memory for an edit.

ghost use Rattle.std.specs.Prelude.{List, ◌≡◌, ◌≢◌, ℕ, Bool, true, false, ◌+◌, ◌<◌, ◌≤◌, ◌++◌, ◌∷◌, [], map, IfOk, OnOk, OnErr, IfSome, IfNone, IsNone, length, slice_set, slice_index_or, reverse};
ghost use Rattle.ir_entities.specs.Links.{AreLists, AreApart, AreDistinctNumbers, node_at, unlinked, no_ends, with_next, with_prev, with_head, with_tail, with_node, list_at, has, put_after, put_before, without, first_or, last_or, IsLinked, IsUnlinked, next_in, prev_in, items_from, items_back, drop_to, items_between, IsSpan, IsWithin};
ghost use Rattle.ir_entities.specs.Unique.{lists_exact};

use crate::link::Link;
use std::alloc::{AllocError, Global};
use std::marker::Model;

/// Where a node stands.
#[derive(Clone, Copy)]
pub struct Node {
    pub parent: Link,
    pub prev: Link,
    pub next: Link,
}

/// The first and the last node of a list.
#[derive(Clone, Copy)]
pub struct Ends {
    pub head: Link,
    pub tail: Link,
}

/// Lists of nodes. Each node stands in one list at most.
#[derive(Drop)]
pub struct Siblings {
    nodes: Vec<Node>,
    ends: Vec<Ends>,
    ghost lists: { (ls : List (List ℕ))
        × AreLists (node_at nodes.items) ends.items ls } by { lists_exact (node_at nodes.items) ends.items },
}

impl Model for Siblings {
    ghost use Rattle.std.specs.Prelude.{length};
    ghost use Rattle.ir_entities.specs.Lists.{ListsView};

    ghost Value = { ListsView };

    ghost view = { λ s. record { lists = s.lists.0; nodes = length s.nodes.items } };
}

/// The nodes of a list, from some node on.
#[derive(Drop)]
pub struct Forward<'a> {
    siblings: &'a Siblings,
    list: usize,
    at: Option<usize>,
    ghost within: { IsWithin (list_at siblings.now.lists list) at },
}

impl<'a> Iterator for Forward<'a> {
    ghost use Rattle.std.specs.Iterator.{YieldsFirst, item_count};

    type Item = usize;

    ghost next_gives = { YieldsFirst (λ s. items_from s.at (list_at s.siblings.now.lists s.list)) };

    ghost remaining = { item_count (λ s. items_from s.at (list_at s.siblings.now.lists s.list)) };

    fn next(&mut self) -> Option<usize> {
        let node = self.at?;
        self.at = self.siblings.next_of(self.list, node);
        Some(node)
    }
}

/// The nodes of a list, from some node back.
#[derive(Drop)]
pub struct Backward<'a> {
    siblings: &'a Siblings,
    list: usize,
    at: Option<usize>,
    ghost within: { IsWithin (list_at siblings.now.lists list) at },
}

impl<'a> Iterator for Backward<'a> {
    ghost use Rattle.std.specs.Iterator.{YieldsFirst, item_count};

    type Item = usize;

    ghost next_gives = { YieldsFirst (λ s. items_back s.at (list_at s.siblings.now.lists s.list)) };

    ghost remaining = { item_count (λ s. items_back s.at (list_at s.siblings.now.lists s.list)) };

    fn next(&mut self) -> Option<usize> {
        let node = self.at?;
        self.at = self.siblings.prev_of(self.list, node);
        Some(node)
    }
}

/// Some nodes that stand one after the other in a list, by the first and the last of them.
#[derive(Clone, Copy)]
pub struct Span {
    pub first: usize,
    pub last: usize,
}

/// The nodes of a list, taken from either end.
#[derive(Drop)]
pub struct Walk<'a> {
    siblings: &'a Siblings,
    list: usize,
    // The nodes that no end has given yet.
    left: Option<Span>,
    ghost within: { IsSpan (list_at siblings.now.lists list) left },
}

impl<'a> Iterator for Walk<'a> {
    ghost use Rattle.std.specs.Iterator.{YieldsFirst, item_count};

    type Item = usize;

    ghost next_gives = { YieldsFirst (λ s. items_between s.left (list_at s.siblings.now.lists s.list)) };

    ghost remaining = { item_count (λ s. items_between s.left (list_at s.siblings.now.lists s.list)) };

    fn next(&mut self) -> Option<usize> {
        let span = self.left?;
        self.left = self.siblings.without_first(self.list, span);
        Some(span.first)
    }
}

impl<'a> DoubleEndedIterator for Walk<'a> {
    ghost use Rattle.std.specs.Iterator.{YieldsLast};

    ghost next_back_gives = { YieldsLast (λ s. items_between s.left (list_at s.siblings.now.lists s.list)) };

    fn next_back(&mut self) -> Option<usize> {
        let span = self.left?;
        self.left = self.siblings.without_last(self.list, span);
        Some(span.last)
    }
}

impl Siblings {
    /// The node after this one, and what that means for the items that are left.
    fn next_of(&self, list: usize, node: usize) -> Option<usize>
        requires { has node (list_at self.now.lists list) ≡ true }
        ensures within { IsWithin (list_at self.now.lists list) result }
        ensures items { items_from (Some node) (list_at self.now.lists list) ≡ node ∷ items_from result
            (list_at self.now.lists list) }
    {
        let _nodes = &self.nodes;
        self.next(node)
    }

    /// The node before this one, and what that means for the items that are left.
    fn prev_of(&self, list: usize, node: usize) -> Option<usize>
        requires { has node (list_at self.now.lists list) ≡ true }
        ensures within { IsWithin (list_at self.now.lists list) result }
        ensures items { items_back (Some node) (list_at self.now.lists list) ≡ node ∷ items_back result
            (list_at self.now.lists list) }
    {
        let _nodes = &self.nodes;
        self.prev(node)
    }

    /// The first node of a list, and all items from there on.
    fn begin(&self, list: usize) -> Option<usize>
        requires { list < length self.now.lists }
        ensures within { IsWithin (list_at self.now.lists list) result }
        ensures items { items_from result (list_at self.now.lists list) ≡ list_at self.now.lists list }
    {
        let _nodes = &self.nodes;
        self.head(list)
    }

    /// The last node of a list, and all items from there back.
    fn finish(&self, list: usize) -> Option<usize>
        requires { list < length self.now.lists }
        ensures within { IsWithin (list_at self.now.lists list) result }
        ensures items { items_back result (list_at self.now.lists list) ≡ reverse (list_at self.now.lists list) }
    {
        let _nodes = &self.nodes;
        self.tail(list)
    }

    /// The nodes of a list, first to last.
    pub fn forward(&self, list: usize) -> Forward
        requires { list < length self.now.lists }
        ensures { items_from result.at (list_at result.siblings.now.lists result.list) ≡ list_at self.now.lists list }
    {
        Forward {
            siblings: self,
            list,
            at: self.begin(list),
        }
    }

    /// The nodes of a list, last to first.
    pub fn backward(&self, list: usize) -> Backward
        requires { list < length self.now.lists }
        ensures { items_back result.at (list_at result.siblings.now.lists result.list) ≡ reverse
            (list_at self.now.lists list) }
    {
        Backward {
            siblings: self,
            list,
            at: self.finish(list),
        }
    }

    /// What is left of a span after its first node.
    fn without_first(&self, list: usize, span: Span) -> Option<Span>
        requires { has span.last (drop_to span.first (list_at self.now.lists list)) ≡ true }
        ensures within { IsSpan (list_at self.now.lists list) result }
        ensures items { items_between (Some span) (list_at self.now.lists list) ≡ span.first ∷ items_between result
            (list_at self.now.lists list) }
    {
        let after = self.next_of(list, span.first);
        if span.first == span.last {
            return None;
        }
        let first = after?;
        Some(Span {
            first,
            last: span.last,
        })
    }

    /// What is left of a span before its last node.
    fn without_last(&self, list: usize, span: Span) -> Option<Span>
        requires { has span.last (drop_to span.first (list_at self.now.lists list)) ≡ true }
        ensures within { IsSpan (list_at self.now.lists list) result }
        ensures items { items_between (Some span) (list_at self.now.lists list) ≡ items_between result
            (list_at self.now.lists list) ++ span.last ∷ [] }
    {
        self.know_members();
        let before = self.prev_of(list, span.last);
        if span.first == span.last {
            return None;
        }
        let last = before?;
        Some(Span {
            first: span.first,
            last,
        })
    }

    /// The whole list, as a span.
    fn whole(&self, list: usize) -> Option<Span>
        requires { list < length self.now.lists }
        ensures within { IsSpan (list_at self.now.lists list) result }
        ensures items { items_between result (list_at self.now.lists list) ≡ list_at self.now.lists list }
    {
        let first = self.begin(list)?;
        let last = self.finish(list)?;
        Some(Span { first, last })
    }

    /// The nodes of a list, to be taken from either end.
    pub fn walk(&self, list: usize) -> Walk
        requires { list < length self.now.lists }
        ensures { items_between result.left (list_at result.siblings.now.lists result.list)
            ≡ list_at self.now.lists list }
    {
        Walk {
            siblings: self,
            list,
            left: self.whole(list),
        }
    }

    /// No node and no list.
    pub fn new(alloc: Global) -> Self
        ensures lists { result.lists ≡ [] }
        ensures nodes { result.nodes ≡ 0 }
    {
        Siblings {
            nodes: Vec::new(alloc),
            ends: Vec::new(alloc),
        }
    }

    /// How many nodes there are.
    pub fn nodes(&self) -> usize
        ensures { result ≡ self.now.nodes }
    {
        self.nodes.len()
    }

    /// How many lists there are.
    pub fn lists(&self) -> usize
        ensures { result ≡ length self.now.lists }
    {
        self.ends.len()
    }

    /// Makes room for so many nodes and so many lists more. No list changes, also where there is no memory.
    pub fn reserve(&mut self, nodes: usize, lists: usize) -> Result<(), AllocError>
        ensures same { self.new ≡ self.old }
    {
        self.nodes.reserve(nodes)?;
        self.ends.reserve(lists)?;
        Ok(())
    }

    /// Makes room for one node more, which stands in no list.
    pub fn add_node(&mut self) -> Result<(), AllocError>
        ensures lists { self.new.lists ≡ self.old.lists }
        ensures added { OnOk result (self.new.nodes ≡ self.old.nodes + 1) }
        ensures err { OnErr result (self.new.nodes ≡ self.old.nodes) }
    {
        self.nodes.push(Node {
            parent: Link::NONE,
            prev: Link::NONE,
            next: Link::NONE,
        })?;
        Ok(())
    }

    /// Adds an empty list.
    pub fn add_list(&mut self) -> Result<(), AllocError>
        ensures nodes { self.new.nodes ≡ self.old.nodes }
        ensures added { OnOk result (self.new.lists ≡ self.old.lists ++ [] ∷ []) }
        ensures err { OnErr result (self.new.lists ≡ self.old.lists) }
    {
        self.ends.push(Ends {
            head: Link::NONE,
            tail: Link::NONE,
        })?;
        Ok(())
    }

    /// The list that a node stands in.
    pub fn list(&self, node: usize) -> Option<usize>
        requires { node < self.now.nodes }
        ensures linked { IfSome result (λ c. has node (list_at self.now.lists c) ≡ true) }
        ensures unlinked { IsNone result → IsUnlinked self.now.lists node }
    {
        self.nodes[node].parent.get()
    }

    /// No node stands in two lists.
    pub fn know_apart(&self)
        ensures { AreApart self.now.lists }
    {
        let _nodes = &self.nodes;
    }

    /// No node stands twice in a list, and each is in the table.
    pub fn know_members(&self)
        ensures distinct { (c : ℕ) → c < length self.now.lists → AreDistinctNumbers (list_at self.now.lists c) }
        ensures below { (c x : ℕ) → has x (list_at self.now.lists c) ≡ true → x < self.now.nodes }
        ensures short { (c : ℕ) → c < length self.now.lists → length (list_at self.now.lists c) ≤ self.now.nodes }
        ensures known { (c : ℕ) → (list_at self.now.lists c ≡ [] → ⊥) → c < length self.now.lists }
    {
        let _nodes = &self.nodes;
    }

    /// The node after this one in its list.
    pub fn next(&self, node: usize) -> Option<usize>
        requires { node < self.now.nodes }
        ensures { (c : ℕ) → has node (list_at self.now.lists c) ≡ true
            → result ≡ next_in node (list_at self.now.lists c) }
    {
        self.nodes[node].next.get()
    }

    /// The node before this one in its list.
    pub fn prev(&self, node: usize) -> Option<usize>
        requires { node < self.now.nodes }
        ensures { (c : ℕ) → has node (list_at self.now.lists c) ≡ true
            → result ≡ prev_in node (list_at self.now.lists c) }
    {
        self.nodes[node].prev.get()
    }

    /// The first node of a list.
    pub fn head(&self, list: usize) -> Option<usize>
        requires { list < length self.now.lists }
        ensures first { result ≡ first_or None (list_at self.now.lists list) }
        ensures below { IfSome result (λ i. i < self.now.nodes) }
    {
        self.ends[list].head.get()
    }

    /// The last node of a list.
    pub fn tail(&self, list: usize) -> Option<usize>
        requires { list < length self.now.lists }
        ensures { result ≡ last_or None (list_at self.now.lists list) }
    {
        self.ends[list].tail.get()
    }

    /// Puts a node before all others of a list.
    pub fn insert_at_front(&mut self, list: usize, node: usize)
        requires list { list < length self.old.lists }
        requires node { node < self.old.nodes }
        requires unlinked { IsUnlinked self.old.lists node }
        ensures lists { self.new.lists ≡ slice_set self.old.lists list (node ∷ list_at self.old.lists list) }
        ensures nodes { self.new.nodes ≡ self.old.nodes }
    {
        let next = self.ends[list].head;
        link(
            &mut self.nodes,
            &mut self.ends,
            list,
            Link::NONE,
            next,
            node,
        );
    }

    /// Puts a node after all others of a list.
    pub fn insert_at_back(&mut self, list: usize, node: usize)
        requires list { list < length self.old.lists }
        requires node { node < self.old.nodes }
        requires unlinked { IsUnlinked self.old.lists node }
        ensures lists { self.new.lists ≡ slice_set self.old.lists list (list_at self.old.lists list ++ node ∷ []) }
        ensures nodes { self.new.nodes ≡ self.old.nodes }
    {
        let prev = self.ends[list].tail;
        link(
            &mut self.nodes,
            &mut self.ends,
            list,
            prev,
            Link::NONE,
            node,
        );
    }

    /// Moves all nodes of the list `donor` to the end of the list `donee`.
    pub fn append(&mut self, donee: usize, donor: usize)
        requires donee { donee < length self.old.lists }
        requires donor { donor < length self.old.lists }
        requires differ { donee ≢ donor }
        ensures lists { self.new.lists ≡ slice_set
            (slice_set self.old.lists donee (list_at self.old.lists donee ++ list_at self.old.lists donor)) donor [] }
        ensures nodes { self.new.nodes ≡ self.old.nodes }
    {
        while let Some(node) = self.head(donor) {
            self.unlink(node);
            self.insert_at_back(donee, node);
        }
    }

    /// Puts a node after `mark`.
    pub fn insert_after(&mut self, mark: usize, node: usize)
        requires mark { IsLinked self.old.lists mark }
        requires mark_in { mark < self.old.nodes }
        requires node { node < self.old.nodes }
        requires unlinked { IsUnlinked self.old.lists node }
        ensures lists { self.new.lists ≡ map (put_after mark node) self.old.lists }
        ensures nodes { self.new.nodes ≡ self.old.nodes }
    {
        let at = self.nodes[mark];
        if let Some(list) = at.parent.get() {
            link(
                &mut self.nodes,
                &mut self.ends,
                list,
                Link::to(mark),
                at.next,
                node,
            );
        }
    }

    /// Puts a node before `mark`.
    pub fn insert_before(&mut self, mark: usize, node: usize)
        requires mark { IsLinked self.old.lists mark }
        requires mark_in { mark < self.old.nodes }
        requires node { node < self.old.nodes }
        requires unlinked { IsUnlinked self.old.lists node }
        ensures lists { self.new.lists ≡ map (put_before mark node) self.old.lists }
        ensures nodes { self.new.nodes ≡ self.old.nodes }
    {
        let at = self.nodes[mark];
        if let Some(list) = at.parent.get() {
            link(
                &mut self.nodes,
                &mut self.ends,
                list,
                at.prev,
                Link::to(mark),
                node,
            );
        }
    }

    /// Takes a node out of its list.
    pub fn unlink(&mut self, node: usize)
        requires linked { IsLinked self.old.lists node }
        requires node { node < self.old.nodes }
        ensures lists { self.new.lists ≡ map (without node) self.old.lists }
        ensures one { (c : ℕ) → has node (list_at self.old.lists c) ≡ true
            → self.new.lists ≡ slice_set self.old.lists c (without node (list_at self.old.lists c)) }
        ensures unlinked { IsUnlinked self.new.lists node }
        ensures nodes { self.new.nodes ≡ self.old.nodes }
    {
        let at = self.nodes[node];
        if let Some(list) = at.parent.get() {
            cut(
                &mut self.nodes,
                &mut self.ends,
                list,
                at.prev,
                at.next,
                node,
            );
        }
    }
}

/// Puts a node between two that stand side by side.
fn link(
    nodes: &mut Vec<Node>,
    ends: &mut Vec<Ends>,
    list: usize,
    prev: Link,
    next: Link,
    node: usize,
)
    requires prev { IfSome prev (λ i. i < length nodes.old.items) }
    requires next { IfSome next (λ i. i < length nodes.old.items) }
    requires node { node < length nodes.old.items }
    requires list { list < length ends.old.items }
    ensures nodes { nodes.new.items ≡ with_node
        (with_prev (with_next nodes.old.items prev (Some node)) next (Some node)) node
        (record { parent = Some list; prev = prev; next = next }) }
    ensures ends { ends.new.items ≡ with_tail (with_head ends.old.items list prev (Some node)) list next (Some node) }
{
    let here = Link::to(node);
    set_after(nodes, ends, list, prev, here);
    set_before(nodes, ends, list, next, here);
    nodes[node] = Node {
        parent: Link::to(list),
        prev,
        next,
    };
}

/// Takes a node out from between two.
fn cut(
    nodes: &mut Vec<Node>,
    ends: &mut Vec<Ends>,
    list: usize,
    prev: Link,
    next: Link,
    node: usize,
)
    requires prev { IfSome prev (λ i. i < length nodes.old.items) }
    requires next { IfSome next (λ i. i < length nodes.old.items) }
    requires node { node < length nodes.old.items }
    requires list { list < length ends.old.items }
    ensures nodes { nodes.new.items ≡ with_node
        (with_prev (with_next nodes.old.items prev next) next prev) node unlinked }
    ensures ends { ends.new.items ≡ with_tail (with_head ends.old.items list prev next) list next prev }
{
    set_after(nodes, ends, list, prev, next);
    set_before(nodes, ends, list, next, prev);
    nodes[node] = Node {
        parent: Link::NONE,
        prev: Link::NONE,
        next: Link::NONE,
    };
}

/// Makes `to` what comes after `at` in the list, where `None` stands for the place before the first.
fn set_after(nodes: &mut Vec<Node>, ends: &mut Vec<Ends>, list: usize, at: Link, to: Link)
    requires node { IfSome at (λ i. i < length nodes.old.items) }
    requires list { list < length ends.old.items }
    ensures nodes { nodes.new.items ≡ with_next nodes.old.items at to }
    ensures ends { ends.new.items ≡ with_head ends.old.items list at to }
{
    match at.get() {
        None => ends[list].head = to,
        Some(i) => nodes[i].next = to,
    }
}

/// Makes `to` what comes before `at` in the list, where `None` stands for the place after the last.
fn set_before(nodes: &mut Vec<Node>, ends: &mut Vec<Ends>, list: usize, at: Link, to: Link)
    requires node { IfSome at (λ i. i < length nodes.old.items) }
    requires list { list < length ends.old.items }
    ensures nodes { nodes.new.items ≡ with_prev nodes.old.items at to }
    ensures ends { ends.new.items ≡ with_tail ends.old.items list at to }
{
    match at.get() {
        None => ends[list].tail = to,
        Some(i) => nodes[i].prev = to,
    }
}
