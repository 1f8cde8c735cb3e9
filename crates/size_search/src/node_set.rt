//! Sets of nodes of a graph. Such a set grows by the successors of its nodes, until it has all
//! nodes that can be reached from the nodes that were added first.

ghost use Rattle.std.specs.Prelude.{◌≡◌, ◌<◌, ◌+◌, ◌≤◌, ◌⊎◌, ℕ, List, [], OnOk, IfOk, length, slice_index_or, false};
ghost use Rattle.support.specs.In.{In};
ghost use Rattle.size_search.specs.Graph.{AreNodes, IsClosed};
ghost use Rattle.size_search.specs.Marks.{Has, Covers, Grows, IsReaching, MarksReached, unfound};

use crate::graph::Graph;
use std::alloc::{AllocError, Global};

/// A set of nodes, with a list of those of its nodes whose successors were not added yet.
#[derive(Drop)]
pub(crate) struct NodeSet {
    /// For each node, whether it is in the set.
    is_found: Vec<bool>,
    /// The nodes in the set whose successors were not added yet.
    pending: Vec<usize>,
}

impl NodeSet {
    /// Creates an empty set.
    pub(crate) fn empty(alloc: Global, graph: &Graph) -> Result<NodeSet, AllocError>
        ensures { IfOk result (λ set. (first : List ℕ) → IsReaching graph.now first set) }
    {
        Ok(NodeSet {
            is_found: vec![in alloc; false; graph.len()]?,
            pending: Vec::new(alloc),
        })
    }

    /// Returns whether the node is in the set.
    pub(crate) fn has(&self, node: usize) -> bool
        ensures { result ≡ slice_index_or self.now.is_found.items node false }
    {
        node < self.is_found.len() && self.is_found[node]
    }

    /// Consumes the set and returns, for each node, whether it is in the set.
    pub(crate) fn into_marks(self) -> Vec<bool>
        ensures { result.items ≡ self.is_found.items }
    {
        self.is_found
    }

    /// Adds the node to the set, if the set does not have it yet.
    fn add(&mut self, node: usize) -> Result<(), AllocError>
        requires { node < length self.old.is_found.items }
        ensures grows { OnOk result (Grows self.old self.new) }
        ensures found { OnOk result (Has self.new node) }
        ensures only { OnOk result ((k : ℕ) → Has self.new k → Has self.old k ⊎ (k ≡ node)) }
    {
        if !self.is_found[node] {
            self.pending.push(node)?;
            self.is_found[node] = true;
        }
        Ok(())
    }

    /// Adds the nodes to the set.
    pub(crate) fn add_each(&mut self, nodes: &[usize]) -> Result<(), AllocError>
        requires { (k : ℕ) → In k nodes.now → k < length self.old.is_found.items }
        ensures grows { OnOk result (Grows self.old self.new) }
        ensures covers { OnOk result (Covers self.new nodes.now) }
        ensures only { OnOk result ((k : ℕ) → Has self.new k → Has self.old k ⊎ In k nodes.now) }
    {
        for node in nodes {
            self.add(*node)?;
        }
        Ok(())
    }

    /// Adds the successors of one pending node. A node is pending if it is in the set, and its
    /// successors were not added yet. Does nothing if no node is pending.
    fn follow(&mut self, graph: &Graph) -> Result<(), AllocError>
        requires closed { IsClosed graph.now }
        requires as_many { length self.old.is_found.items ≡ length graph.now }
        ensures reaching { OnOk result
            ((first : List ℕ)
            → IsReaching graph.now first self.old
            → IsReaching graph.now first self.new) }
        ensures kept { OnOk result ((k : ℕ) → Has self.old k → Has self.new k) }
        ensures as_many { OnOk result
            (length self.new.is_found.items ≡ length self.old.is_found.items) }
        ensures idle { OnOk result (self.old.pending.items ≡ [] → self.new.pending.items ≡ []) }
        ensures fewer { OnOk result
            ((self.new.pending.items ≡ [])
            ⊎ (unfound self.new + length self.new.pending.items + 1
            ≤ unfound self.old + length self.old.pending.items)) }
    {
        if let Some(node) = self.pending.pop() {
            self.add_each(graph.successors(node))?;
        }
        Ok(())
    }

    /// Adds all nodes that can be reached from the nodes in the set.
    pub(crate) fn add_all(&mut self, graph: &Graph) -> Result<(), AllocError>
        requires closed { IsClosed graph.now }
        requires as_many { length self.old.is_found.items ≡ length graph.now }
        ensures { OnOk result ((first : List ℕ)
            → IsReaching graph.now first self.old
            → Covers self.old first
            → MarksReached graph.now first self.new.is_found.items) }
    {
        for _round in 0..graph.len() {
            self.follow(graph)?;
        }
        Ok(())
    }
}
