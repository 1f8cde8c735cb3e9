//! An index of the submits in the path of an actor.

ghost use Rattle.std.specs.Prelude.{◌≡◌, ◌<◌, ◌++◌, ◌∷◌, [], true, false, length, set, get_or, IfSome, IsNone, IfOk, IfErr, IsTrue, OnOk, OnErr};
ghost use Rattle.recordings.specs.SubmitIndex as spec;

use std::alloc::{AllocError, Global};

/// A submit in a path.
#[derive(Clone, Copy)]
pub(crate) struct SubmitEntry {
    pub(crate) job: usize,
    /// The index of the submit in the path.
    pub(crate) place: usize,
    /// True if the path has a get of the job.
    pub(crate) got: bool,
}

/// The submits of a path, in the path's order.
///
/// A look-up is a binary search if the job numbers of the submits ascend, as in every valid
/// recording. Otherwise it is a linear search.
#[derive(Drop)]
pub(crate) struct SubmitIndex {
    pub(crate) entries: Vec<SubmitEntry>,
    pub(crate) ascending: bool,
}

impl SubmitIndex {
    /// Creates an empty index.
    pub(crate) fn new(alloc: Global) -> SubmitIndex
        ensures entries { result.entries.items ≡ [] }
        ensures ordered { spec.IsOrdered result }
    {
        SubmitIndex {
            entries: Vec::new(alloc),
            ascending: true,
        }
    }

    /// Returns the index, in `entries`, of the last entry with this job. Returns `None` if there is
    /// no such entry.
    pub(crate) fn find(&self, job: usize) -> Option<usize>
        requires { spec.IsOrdered self.now }
        ensures found { IfSome result (spec.IsLastOf self.now.entries.items job) }
        ensures absent { IsNone result → spec.IsAbsent self.now.entries.items job }
    {
        if self.ascending {
            self.search(job).ok()
        } else {
            self.find_last(job)
        }
    }

    /// Appends an entry for the submit of `job` at position `place` of the path.
    ///
    /// # Errors
    ///
    /// Returns `AllocError` if memory runs out. The entries are then unchanged.
    pub(crate) fn push(&mut self, job: usize, place: usize) -> Result<(), AllocError>
        requires { spec.IsOrdered self.old }
        ensures entries { OnOk result
            (self.new.entries.items ≡ self.old.entries.items ++ spec.unclaimed job place ∷ []) }
        ensures same { OnErr result (self.new.entries.items ≡ self.old.entries.items) }
        ensures ordered { spec.IsOrdered self.new }
    {
        let ascending = self.ascending && self.is_above_all(job);
        self.entries.push(SubmitEntry {
            job,
            place,
            got: false,
        })?;
        self.ascending = ascending;
        Ok(())
    }

    // Returns true if the job number is above that of the last entry, or if there is no entry.
    fn is_above_all(&self, job: usize) -> bool
        ensures { IsTrue result → spec.IsAboveLast self.now.entries.items job }
    {
        match self.entries.last() {
            Some(last) => last.job < job,
            None => true,
        }
    }

    // Searches the ascending entries for the job.
    fn search(&self, job: usize) -> Result<usize, usize>
        requires { spec.IsAscending self.now.entries.items }
        ensures found { IfOk result (spec.IsLastOf self.now.entries.items job) }
        ensures absent { IfErr result (λ at. spec.IsAbsent self.now.entries.items job) }
    {
        self.entries.binary_search_by_key(&job, |entry| entry.job)
    }

    // Searches the entries backwards for the job.
    fn find_last(&self, job: usize) -> Option<usize>
        ensures found { IfSome result (spec.IsLastOf self.now.entries.items job) }
        ensures absent { IsNone result → spec.IsAbsent self.now.entries.items job }
    {
        let mut at = self.entries.len();
        while at > 0 {
            at -= 1;
            if self.entries[at].job == job {
                return Some(at);
            }
        }
        None
    }
}
