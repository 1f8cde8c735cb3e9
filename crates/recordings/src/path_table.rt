//! A table of the paths of rounds, or of the paths of jobs.

ghost use Rattle.std.specs.Prelude.{◌≡◌, ℕ, [], OnOk, OnErr, None, Some, if◌then◌else◌, ◌==◌};
ghost use Rattle.std.specs.Option.{option_map};
ghost use Rattle.recordings.specs.ActorPath.{with_get, without_submit};
ghost use Rattle.recordings.specs.PathChanges.{with_step};
ghost use Rattle.recordings.specs.StoredPaths.{path_in};
ghost use Rattle.recordings.specs.declared.step.RecordedStep.TheVariants.{Submits};

use crate::live_path::LivePath;
use crate::step::RecordedStep;
use std::alloc::{AllocError, Global};
use support::IdMap;

/// A map from the numbers of live actors to their paths. An actor is live until it ends. The actors
/// in one map are either all jobs or all rounds. A round is one pass of a client through its body.
#[derive(Drop)]
pub(crate) struct PathTable {
    paths: IdMap<LivePath>,
    alloc: Global,
}

impl PathTable {
    /// Creates an empty map.
    pub(crate) fn new(alloc: Global) -> PathTable
        ensures { (n : ℕ) → path_in result n ≡ None }
    {
        PathTable {
            paths: IdMap::new(alloc),
            alloc,
        }
    }

    pub(crate) fn path(&self, number: usize) -> Option<&[RecordedStep]>
        ensures { option_map (λ path. path.now) result ≡ path_in self.now number }
    {
        match self.paths.get(number) {
            Some(path) => Some(path.steps()),
            None => None,
        }
    }

    /// Adds the actor with this number, with an empty path.
    ///
    /// # Errors
    ///
    /// Returns `AllocError` if memory runs out. The paths are then unchanged.
    pub(crate) fn begin(&mut self, number: usize) -> Result<(), AllocError>
        ensures begun { OnOk result
            ((n : ℕ) → path_in self.new n ≡ (if number == n then Some [] else path_in self.old n)) }
        ensures same { OnErr result ((n : ℕ) → path_in self.new n ≡ path_in self.old n) }
    {
        self.paths.insert(number, LivePath::new(self.alloc))
    }

    /// Removes the actor with this number and returns its path. Returns `None` if the actor is not
    /// live.
    pub(crate) fn end(&mut self, number: usize) -> Option<Vec<RecordedStep>>
        ensures path { option_map (λ path. path.items) result ≡ path_in self.old number }
        ensures gone { (n : ℕ)
            → path_in self.new n ≡ (if number == n then None else path_in self.old n) }
    {
        Some(self.paths.remove(number)?.into_steps())
    }

    /// Appends a submit of the job to the path of the actor with this number. Does nothing if the
    /// actor is not live.
    ///
    /// # Errors
    ///
    /// Returns `AllocError` if memory runs out. The paths are then unchanged.
    pub(crate) fn push_submit(&mut self, number: usize, job: usize) -> Result<(), AllocError>
        ensures done { OnOk result
            ((n : ℕ)
            → path_in self.new n
            ≡ (if number == n then option_map (with_step (Submits job)) (path_in self.old n) else path_in
            self.old n)) }
        ensures same { OnErr result ((n : ℕ) → path_in self.new n ≡ path_in self.old n) }
    {
        if let Some(path) = self.paths.get_mut(number) {
            path.push_submit(job)?;
        }
        Ok(())
    }

    /// Appends a get of the job to the path of the actor with this number. Does nothing in these
    /// cases:
    ///
    /// - The actor is not live.
    /// - The path has no submit of the job.
    /// - The path already has a get of the job.
    ///
    /// # Errors
    ///
    /// Returns `AllocError` if memory runs out. The paths are then unchanged.
    pub(crate) fn push_get(&mut self, number: usize, job: usize) -> Result<(), AllocError>
        ensures got { OnOk result
            ((n : ℕ)
            → path_in self.new n
            ≡ (if number == n then option_map (with_get job) (path_in self.old n) else path_in
            self.old n)) }
        ensures same { OnErr result ((n : ℕ) → path_in self.new n ≡ path_in self.old n) }
    {
        if let Some(path) = self.paths.get_mut(number) {
            path.push_get(job)?;
        }
        Ok(())
    }

    /// Removes the submit of a refused job from the path of the actor with this number. Does
    /// nothing if the submit is not the path's last action, or if the actor is not live.
    pub(crate) fn drop_submit(&mut self, number: usize, job: usize)
        ensures { (n : ℕ)
            → path_in self.new n
            ≡ (if number == n then option_map (without_submit job) (path_in self.old n) else path_in
            self.old n) }
    {
        if let Some(path) = self.paths.get_mut(number) {
            path.drop_submit(job);
        }
    }
}
