//! A map from submit calls to the latest jobs that they created. A submit call is an actor and the
//! position of a submit in the actor's body.

ghost use Rattle.std.specs.Prelude.{◌≡◌, ◌≤◌, ◌<◌, None, Some, OnOk, if◌then◌else◌, ℕ};
ghost use Rattle.pool_machine.specs.declared.parent.Parent.{Parent};
ghost use Rattle.interleaving.specs.LatestJobs.{found, is_call, latest_room};

use crate::submit_map::SubmitMap;
use pool_machine::Parent;
use std::alloc::{AllocError, Global};
use std::marker::Model;

/// A map from submit calls to job numbers. A submit call consists of an actor and the position of a
/// submit in the actor's body. For each submit call, the map has the number of the latest job that
/// the call created.
#[derive(Drop)]
pub(crate) struct LatestJobs {
    of_clients: SubmitMap,
    of_jobs: SubmitMap,
}

impl Model for LatestJobs {
    ghost use Rattle.interleaving.specs.LatestJobs.{LatestJobsView};

    ghost Value = { LatestJobsView };

    ghost view = { λ l. record { of_clients = l.of_clients; of_jobs = l.of_jobs } };
}

impl LatestJobs {
    /// Creates an empty map.
    pub(crate) fn new(alloc: Global) -> LatestJobs
        ensures { (a : Parent) (t : ℕ) → found result a t ≡ None }
    {
        LatestJobs {
            of_clients: SubmitMap::new(alloc),
            of_jobs: SubmitMap::new(alloc),
        }
    }

    /// Returns the number of the latest job that the actor created by the submit at position
    /// `submit`. Returns `None` if the map has no entry for this submit.
    #[inline(always)]
    pub(crate) fn get(&self, actor: Parent, submit: usize) -> Option<usize>
        ensures { result ≡ found self.now actor submit }
    {
        match actor {
            Parent::Client(client) => self.of_clients.get((client, submit)),
            Parent::Job(job) => self.of_jobs.get((job, submit)),
        }
    }

    /// Reserves memory so that [`set`](LatestJobs::set) can record one more job of the actor.
    ///
    /// # Errors
    ///
    /// Returns `AllocError` if there is not enough memory.
    #[inline(always)]
    pub(crate) fn reserve_for(&mut self, actor: Parent) -> Result<(), AllocError>
        ensures found { (a : Parent) (t : ℕ) → found self.new a t ≡ found self.old a t }
        ensures room { OnOk result (0 < latest_room self.new actor) }
    {
        match actor {
            Parent::Client(_) => self.of_clients.reserve(),
            Parent::Job(_) => self.of_jobs.reserve(),
        }
    }

    /// Records the job `number` as the latest job that the actor created by the submit at position
    /// `submit`. [`reserve_for`](LatestJobs::reserve_for) must have reserved memory.
    #[inline(always)]
    pub(crate) fn set(&mut self, actor: Parent, submit: usize, number: usize)
        requires { 0 < latest_room self.old actor }
        ensures { (a : Parent) (t : ℕ)
            → found self.new a t
            ≡ (if is_call actor submit a t then Some number else found self.old a t) }
    {
        match actor {
            Parent::Client(client) => self.of_clients.set((client, submit), number),
            Parent::Job(job) => self.of_jobs.set((job, submit), number),
        }
    }

    /// Removes the entry for the actor's submit at position `submit`, if there is one.
    #[inline(always)]
    pub(crate) fn remove(&mut self, actor: Parent, submit: usize)
        ensures found { (a : Parent) (t : ℕ)
            → found self.new a t ≡ (if is_call actor submit a t then None else found self.old a t) }
        ensures room { (a : Parent) → latest_room self.old a ≤ latest_room self.new a }
    {
        match actor {
            Parent::Client(client) => self.of_clients.remove((client, submit)),
            Parent::Job(job) => self.of_jobs.remove((job, submit)),
        }
    }
}
