//! The state of matching a path against a body. A joint walk goes through both together, each in
//! its own order. The path can match only if such a walk makes all steps of the path.

ghost use Rattle.std.specs.Prelude.{◌≡◌, ℕ, false, List, [], ◌∷◌, IfOk, OnOk, IsTrue, length};
ghost use Rattle.std.specs.List.{list_any};
ghost use Rattle.conformance.specs.declared.step.ActorKind.{ActorKind};
ghost use Rattle.conformance.specs.declared.step.PathStep.{PathStep};
ghost use Rattle.conformance.specs.BodyGets.{AreGets};
ghost use Rattle.conformance.specs.WalkState as spec;
ghost use Rattle.conformance.specs.WalkStates.{AreStatesAt, IsCopy, IsLastAt, AreJoined};

use crate::body_gets::{BodyGet, end_of_gets};
use crate::open_job::{OpenJob, count_in, take_job};
use crate::row::{add_row, close_row, cut_row, has_submit_at, shift_row, update_passes};
use crate::step::ActorKind;
use job_bodies::Action;
use std::alloc::{AllocError, Global};

/// A state of matching a path against a body, after the first steps of the path. It covers joint
/// walks, which go through path and body together, each in its own order. The open jobs of the path
/// are the same in all these walks, with the same classes, but the body can be at several indices.
#[derive(Drop)]
pub(crate) struct WalkState {
    /// The open jobs of the path.
    pub(crate) jobs: Vec<OpenJob>,
    /// For each action of the body, true if the body may pass the action while the jobs in `jobs`
    /// are open in the path. The body passes an action if it goes to the next one while the path
    /// makes no step.
    pub(crate) passes: Vec<bool>,
    /// The indices where the body can be after the steps so far. The list has an element for each
    /// index of the body, and one for the end of the body. An element is true if the body can be
    /// there.
    pub(crate) row: Vec<bool>,
}

impl WalkState {
    /// Returns the state before the first step of a path.
    ///
    /// # Errors
    ///
    /// Returns [`AllocError`] if memory runs out.
    pub(crate) fn new(alloc: Global, body: &[Action]) -> Result<WalkState, AllocError>
        ensures { (kind : ActorKind) (path : List PathStep) → IfOk result
            (λ state. AreStatesAt kind body.now path 0 (state ∷ [])) }
    {
        let mut row = Vec::from_elem(alloc, true, body.len())?;
        row.push(true)?;
        Ok(WalkState {
            jobs: Vec::new(alloc),
            passes: Vec::from_elem(alloc, true, body.len())?,
            row,
        })
    }

    /// Returns true if the body has a submit of the class at an index where the body can be.
    pub(crate) fn can_submit(&self, body: &[Action], class: usize) -> bool
        ensures can { IsTrue result → spec.CanSubmit body.now class self.now }
        ensures cannot { result ≡ false → ¬ spec.CanSubmit body.now class self.now }
    {
        for index in 0..body.len() {
            if self.is_at(index) && has_submit_at(body, index, class) {
                return true;
            }
        }
        false
    }

    /// Updates the state for a submit of a job of the class. `job` is the index of this submit in
    /// the path.
    ///
    /// # Errors
    ///
    /// Returns [`AllocError`] if memory runs out.
    pub(crate) fn submit(
        &mut self,
        body: &[Action],
        gets: &[Option<BodyGet>],
        job: usize,
        class: usize,
    ) -> Result<(), AllocError>
        requires gets { AreGets body.now gets.now }
        requires tables { spec.HasTables body.now self.old }
        ensures { OnOk result (spec.IsAfterSubmit body.now job class self.old self.new) }
    {
        self.jobs.push(OpenJob { job, class })?;
        let count = count_in(class, &self.jobs);
        update_passes(&mut self.passes, gets, class, count);
        shift_row(&mut self.row, body, class);
        close_row(&mut self.row, &self.passes);
        Ok(())
    }

    /// Updates the state for a get of a job. `job` is the index of the job's submit in the path. If
    /// the job is not open, no index remains where the body can be: every element of `row` becomes
    /// `false`.
    pub(crate) fn get(
        &mut self,
        kind: ActorKind,
        body: &[Action],
        gets: &[Option<BodyGet>],
        job: usize,
    )
        requires gets { AreGets body.now gets.now }
        requires tables { spec.HasTables body.now self.old }
        ensures { spec.IsAfterGet kind body.now job self.old self.new }
    {
        match take_job(&mut self.jobs, job) {
            Some(class) => {
                let count = count_in(class, &self.jobs);
                update_passes(&mut self.passes, gets, class, count);
                cut_row(&mut self.row, end_of_gets(kind, gets, class));
                close_row(&mut self.row, &self.passes);
            }
            None => cut_row(&mut self.row, 0),
        }
    }

    /// Returns true if the body can be at some index.
    pub(crate) fn is_begun(&self) -> bool
        ensures { result ≡ list_any (λ at. at) self.now.row.items }
    {
        self.row.iter().any(|at| *at)
    }

    /// Returns a copy of the state.
    ///
    /// # Errors
    ///
    /// Returns [`AllocError`] if memory runs out.
    pub(crate) fn try_clone(&self, alloc: Global) -> Result<WalkState, AllocError>
        ensures { IfOk result (IsCopy self.now) }
    {
        let jobs = Vec::from_slice(alloc, &self.jobs)?;
        let passes = Vec::from_slice(alloc, &self.passes)?;
        let row = Vec::from_slice(alloc, &self.row)?;
        Ok(WalkState { jobs, passes, row })
    }

    /// Returns the state after a submit of a job of the class. `job` is the index of this submit in
    /// the path.
    ///
    /// # Errors
    ///
    /// Returns [`AllocError`] if memory runs out.
    pub(crate) fn after_submit(
        &self,
        alloc: Global,
        body: &[Action],
        gets: &[Option<BodyGet>],
        job: usize,
        class: usize,
    ) -> Result<WalkState, AllocError>
        requires gets { AreGets body.now gets.now }
        requires tables { spec.HasTables body.now self.now }
        ensures { IfOk result (spec.IsAfterSubmit body.now job class self.now) }
    {
        let mut after = self.try_clone(alloc)?;
        after.submit(body, gets, job, class)?;
        Ok(after)
    }

    /// Adds the walks of `other`, a state with the same open jobs as this one.
    pub(crate) fn add_row(&mut self, other: &WalkState)
        ensures jobs { self.new.jobs.items ≡ self.old.jobs.items }
        ensures passes { self.new.passes.items ≡ self.old.passes.items }
        ensures long { length self.new.row.items ≡ length self.old.row.items }
        ensures row { AreJoined self.old.row.items other.now.row.items self.new.row.items }
    {
        add_row(&mut self.row, &other.row);
    }

    /// Returns the last index up to `end` at which the body can be, or `None` if there is none.
    pub(crate) fn last_at(&self, end: usize) -> Option<usize>
        ensures { IsLastAt self.now end result }
    {
        let mut last = None;
        for index in 0..self.row.len() {
            if index <= end && self.is_at(index) {
                last = Some(index);
            }
        }
        last
    }

    /// Returns true if the body can be at this index.
    pub(crate) fn is_at(&self, index: usize) -> bool
        ensures { result ≡ spec.is_at self.now index }
    {
        self.row.get(index).copied().unwrap_or(false)
    }
}
