//! Directed graphs, stored as the list of successors of each node.

ghost use Rattle.std.specs.Prelude.{◌≡◌, ℕ, List, [], ◌∷◌, ◌++◌, OnOk, length, map};
ghost use Rattle.size_search.specs.Graph as spec;

use std::alloc::{AllocError, Global};
use std::marker::Model;

/// A directed graph. Its nodes are numbered from 0.
#[derive(Drop)]
pub struct Graph {
    /// The successors of each node.
    nodes: Vec<Vec<usize>>,
}

impl Model for Graph {
    ghost Value = { List (List ℕ) };

    ghost view = { λ g. map (λ row. row.items) g.nodes.items };
}

impl Graph {
    /// Creates a graph without nodes.
    pub fn new(alloc: Global) -> Graph
        ensures { result ≡ [] }
    {
        Graph {
            nodes: Vec::new(alloc),
        }
    }

    /// Appends a node with these successors.
    ///
    /// # Errors
    ///
    /// Returns [`AllocError`] if memory runs out.
    pub fn push(&mut self, successors: Vec<usize>) -> Result<(), AllocError>
        ensures { OnOk result (self.new ≡ self.old ++ successors.items ∷ []) }
    {
        self.nodes.push(successors)?;
        Ok(())
    }

    /// Returns the number of nodes.
    pub fn len(&self) -> usize
        ensures { result ≡ length self.now }
    {
        self.nodes.len()
    }

    /// Returns the successors of the node, or an empty slice if there is no such node.
    pub fn successors(&self, node: usize) -> &[usize]
        ensures { result.now ≡ spec.successors self.now node }
    {
        if node < self.nodes.len() {
            &self.nodes[node]
        } else {
            &[]
        }
    }
}
