//! The nodes of a graph that are on a circle (a cycle): a path from such a node leads back to it.

ghost use Rattle.std.specs.Prelude.{◌≤◌, ◌<◌, ◌≡◌, ◌↔◌, ℕ, true, IfOk, IfSome, IfNone, length};
ghost use Rattle.size_search.specs.Graph as spec;
ghost use Rattle.size_search.specs.Graph.{IsClosed};

use crate::graph::Graph;
use crate::node_set::NodeSet;
use std::alloc::{AllocError, Global};

impl Graph {
    /// Returns the number of the first node, from node `first` on, that is on a circle. A circle is
    /// a path that leads from a node back to the same node. Returns `None` if there is no such
    /// node.
    ///
    /// # Errors
    ///
    /// Returns [`AllocError`] if memory runs out.
    pub fn circle_from(&self, alloc: Global, first: usize) -> Result<Option<usize>, AllocError>
        requires { IsClosed self.now }
        ensures circle { IfOk result (λ found. IfSome found (spec.IsOnCircle self.now)) }
        ensures node { IfOk result
            (λ found. IfSome found (λ node. (first ≤ node) × (node < length self.now))) }
        ensures none { IfOk result
            (λ found. IfNone found ((node : ℕ) → first ≤ node → ¬ spec.IsOnCircle self.now node)) }
    {
        for node in first..self.len() {
            if self.is_on_circle(alloc, node)? {
                return Ok(Some(node));
            }
        }
        Ok(None)
    }

    /// Returns whether a path from the node leads back to it.
    fn is_on_circle(&self, alloc: Global, node: usize) -> Result<bool, AllocError>
        requires { IsClosed self.now }
        ensures { IfOk result (λ yes. (yes ≡ true) ↔ spec.IsOnCircle self.now node) }
    {
        let mut set = NodeSet::empty(alloc, self)?;
        set.add_each(self.successors(node))?;
        set.add_all(self)?;
        Ok(set.has(node))
    }
}
