//! The nodes of a graph that can be reached from given nodes.

ghost use Rattle.std.specs.Prelude.{IfOk};
ghost use Rattle.size_search.specs.Graph.{AreNodes, IsClosed};
ghost use Rattle.size_search.specs.Marks.{MarksReached};

use crate::graph::Graph;
use crate::node_set::NodeSet;
use std::alloc::{AllocError, Global};

impl Graph {
    /// Returns, for each node, whether it can be reached from a node in `first`. Each node in
    /// `first` counts as reached.
    ///
    /// # Errors
    ///
    /// Returns [`AllocError`] if memory runs out.
    pub fn reached_from(&self, alloc: Global, first: &[usize]) -> Result<Vec<bool>, AllocError>
        requires closed { IsClosed self.now }
        requires nodes { AreNodes self.now first.now }
        ensures { IfOk result (λ marks. MarksReached self.now first.now marks.items) }
    {
        let mut set = NodeSet::empty(alloc, self)?;
        set.add_each(first)?;
        set.add_all(self)?;
        Ok(set.into_marks())
    }
}
