//! The levels of the nodes of a graph. In a graph without circles (cycles), the level of a node is
//! the number of edges of the longest path that starts at the node.

ghost use Rattle.std.specs.Prelude.{◌≡◌, ◌≤◌, ◌<◌, ◌^◌, ℕ, IfOk, length, map, slice_index};
ghost use Rattle.size_search.specs.Levels as spec;

use crate::graph::Graph;
use crate::levels::number_at;
use std::alloc::{AllocError, Global};

/// Returns 1 more than the greatest level of these nodes, or 0 if there are no nodes. `levels` has
/// the level of each node of the graph.
fn level_above(levels: &[u64], nodes: &[usize]) -> u64
    requires { (node : ℕ) → slice_index levels.now node < 2 ^ 32 }
    ensures { result ≡ spec.level_above levels.now nodes.now }
{
    let mut highest = 0;
    for node in nodes {
        highest = highest.max(number_at(levels, *node) + 1);
    }
    highest
}

/// Computes a new level of each node: 1 more than the greatest level of its successors in `levels`,
/// or 0 if it has no successors. [`Graph::levels`] repeats this step.
fn next_levels(alloc: Global, graph: &Graph, levels: &[u64]) -> Result<Vec<u64>, AllocError>
    requires { (node : ℕ) → slice_index levels.now node < 2 ^ 32 }
    ensures { IfOk result (λ next. next.items ≡ map (spec.level_above levels.now) graph.now) }
{
    let mut next = Vec::with_capacity(alloc, graph.len())?;
    for node in 0..graph.len() {
        next.push(level_above(levels, graph.successors(node)))?;
    }
    Ok(next)
}

impl Graph {
    /// Returns the level of each node: 0 if it has no successors, and otherwise 1 more than the
    /// greatest level of its successors. The result is meaningful only if no node is on a circle (a
    /// cycle).
    ///
    /// # Errors
    ///
    /// Returns [`AllocError`] if memory runs out.
    pub fn levels(&self, alloc: Global) -> Result<Vec<u64>, AllocError>
        requires { length self.now < 2 ^ 32 }
        ensures { IfOk result (λ levels. levels.items ≡ spec.levels_of self.now) }
    {
        let mut levels = Vec::new(alloc);
        for _round in 0..self.len() {
            levels = next_levels(alloc, self, &levels)?;
        }
        Ok(levels)
    }
}
