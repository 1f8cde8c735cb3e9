//! The refused jobs of a recording: the pool of each job, whether the job acted, and whether the
//! job started.

ghost use Rattle.std.specs.Prelude.{◌≡◌, ◌==◌, ◌||◌, ◌++◌, ◌∷◌, [], ℕ, true, List, option_map, OnOk, IfOk};
ghost use Rattle.std.specs.Option.{option_and_then};
ghost use Rattle.support.specs.Numbered.{value_at};
ghost use Rattle.job_bodies.specs.Plan as plans;
ghost use Rattle.recordings.specs.Before.{has_started};
ghost use Rattle.recordings.specs.LineParts.{starts_job, refuses_job};
ghost use Rattle.recordings.specs.LineSteps.{is_refused};
ghost use Rattle.recordings.specs.RecordingLine.{RecordedLine, line_view};
ghost use Rattle.conformance.specs.JobSet.{has_job};
ghost use Rattle.conformance.specs.Lines.{lines_of};
ghost use Rattle.conformance.specs.PoolDeviations as deviations;
ghost use Rattle.conformance.specs.RefusedJobs as spec;
ghost use Rattle.conformance.specs.RejectionRule as rule;

use crate::job_set::JobSet;
use crate::pool_comparison::pool_named;
use crate::well_formed_lines::WellFormedLines;
use job_bodies::Plan;
use recordings::{Line, RecordedActor};
use std::alloc::{AllocError, Global};
use support::IdMap;

/// Returns the set of the jobs that have a `refused` line.
///
/// # Errors
///
/// Returns `AllocError` if memory runs out.
pub(crate) fn refused_jobs(alloc: Global, recording: &[u8]) -> Result<JobSet, AllocError>
    ensures { IfOk result
        (λ jobs. (job : ℕ) → has_job jobs job ≡ is_refused (lines_of recording.now) job) }
{
    let mut jobs = JobSet::new(alloc);
    let mut lines = WellFormedLines::new(recording);
    while let Some(line) = lines.next() {
        note_refusal(&mut jobs, &line)?;
    }
    Ok(jobs)
}

fn note_refusal(jobs: &mut JobSet, line: &Line<'_>) -> Result<(), AllocError>
    ensures { OnOk result
        ((one : ℕ)
        → has_job jobs.new one ≡ (has_job jobs.old one || refuses_job one (line_view line.now))) }
{
    match *line {
        Line::Refused { job, .. } => jobs.insert(job),
        _ => Ok(()),
    }
}

/// Facts about the refused jobs, from the lines read so far: the pool of each job, whether the job
/// has acted, and whether the job has started. A job acts if it submits, gets or cancels a job, or
/// calls `invokeAny`.
#[derive(Drop)]
pub(crate) struct RefusedJobs {
    refused: JobSet,
    // The pool of the plan that the first `submit` line of the job names, or `None` if the plan has
    // no such pool.
    pools: IdMap<Option<usize>>,
    acted: JobSet,
    started: JobSet,
}

impl RefusedJobs {
    /// Creates the facts about a recording of which no line has been read yet. `refused` has the
    /// jobs for which facts are collected.
    pub(crate) fn new(alloc: Global, refused: JobSet) -> RefusedJobs
        ensures jobs { result.refused ≡ refused }
        ensures none { (plan : plans.Plan) → spec.AreFactsOf plan [] result }
    {
        let pools = IdMap::new(alloc);
        let acted = JobSet::new(alloc);
        let started = JobSet::new(alloc);
        RefusedJobs {
            refused,
            pools,
            acted,
            started,
        }
    }

    /// Updates the facts for the next line of the recording.
    ///
    /// # Errors
    ///
    /// Returns `AllocError` if memory runs out.
    pub(crate) fn take(&mut self, plan: &Plan, line: &Line<'_>) -> Result<(), AllocError>
        ensures jobs { OnOk result (self.new.refused ≡ self.old.refused) }
        ensures facts { (before : List RecordedLine)
            → spec.AreFactsOf plan.now before self.old
            → OnOk result (spec.AreFactsOf plan.now (before ++ line_view line.now ∷ []) self.new) }
    {
        note_pool(&mut self.pools, &self.refused, plan, line)?;
        note_act(&mut self.acted, &self.refused, line)?;
        note_start(&mut self.started, &self.refused, line)
    }

    /// Returns the pool in the first `submit` line of the job, by its number in the plan. Returns
    /// `None` if the job has no `submit` line, or if the plan has no such pool. The job must be one
    /// of those given to `new`.
    pub(crate) fn pool_of(&self, job: usize) -> Option<usize>
        ensures { (plan : plans.Plan) (lines : List RecordedLine)
            → spec.AreFactsOf plan lines self.now
            → has_job self.now.refused job ≡ true
            → result ≡ option_and_then (deviations.pool_named plan) (rule.submit_pool lines job) }
    {
        match self.pools.get(job) {
            Some(pool) => *pool,
            None => None,
        }
    }

    /// Returns true if the job submits, gets or cancels a job, or calls `invokeAny`. The job must
    /// be one of those given to `new`.
    pub(crate) fn has_acted(&self, job: usize) -> bool
        ensures { (plan : plans.Plan) (lines : List RecordedLine)
            → spec.AreFactsOf plan lines self.now
            → has_job self.now.refused job ≡ true
            → result ≡ rule.has_acted lines job }
    {
        self.acted.contains(job)
    }

    /// Returns true if the job has a `start` line. The job must be one of those given to `new`.
    pub(crate) fn has_started(&self, job: usize) -> bool
        ensures { (plan : plans.Plan) (lines : List RecordedLine)
            → spec.AreFactsOf plan lines self.now
            → has_job self.now.refused job ≡ true
            → result ≡ has_started lines job }
    {
        self.started.contains(job)
    }
}

fn note_pool(
    pools: &mut IdMap<Option<usize>>,
    refused: &JobSet,
    plan: &Plan,
    line: &Line<'_>,
) -> Result<(), AllocError>
    ensures { OnOk result
        ((one : ℕ)
        → has_job refused.now one ≡ true
        → value_at pools.new one
        ≡ spec.or_else (value_at pools.old one) (spec.planned_by plan.now one (line_view line.now))) }
{
    match *line {
        Line::Submits { job, pool, .. } => note_submit(pools, refused, plan, job, pool),
        _ => Ok(()),
    }
}

fn note_submit(
    pools: &mut IdMap<Option<usize>>,
    refused: &JobSet,
    plan: &Plan,
    job: usize,
    pool: &str,
) -> Result<(), AllocError>
    ensures { OnOk result
        ((one : ℕ)
        → has_job refused.now one ≡ true
        → value_at pools.new one
        ≡ spec.or_else (value_at pools.old one)
        (spec.planned_if (job == one) (deviations.pool_named plan.now pool.now))) }
{
    if refused.contains(job) && !pools.contains(job) {
        pools.insert(job, pool_named(plan, pool))?;
    }
    Ok(())
}

fn note_act(acted: &mut JobSet, refused: &JobSet, line: &Line<'_>) -> Result<(), AllocError>
    ensures { OnOk result
        ((one : ℕ)
        → has_job refused.now one ≡ true
        → has_job acted.new one ≡ (has_job acted.old one || rule.acts one (line_view line.now))) }
{
    match acting_job(line) {
        Some(job) => insert_if(acted, refused, job),
        None => Ok(()),
    }
}

fn note_start(started: &mut JobSet, refused: &JobSet, line: &Line<'_>) -> Result<(), AllocError>
    ensures { OnOk result
        ((one : ℕ)
        → has_job refused.now one ≡ true
        → has_job started.new one ≡ (has_job started.old one || starts_job one (line_view line.now))) }
{
    match *line {
        Line::JobStarts { job } => insert_if(started, refused, job),
        _ => Ok(()),
    }
}

/// Adds the job to `jobs` if it is in `refused`.
fn insert_if(jobs: &mut JobSet, refused: &JobSet, job: usize) -> Result<(), AllocError>
    ensures { OnOk result
        ((one : ℕ)
        → has_job refused.now one ≡ true
        → has_job jobs.new one ≡ (has_job jobs.old one || job == one)) }
{
    if refused.contains(job) {
        jobs.insert(job)?;
    }
    Ok(())
}

/// Returns the job that acts in this line. A job acts if it submits, gets or cancels a job, or
/// calls `invokeAny`. Returns `None` if no job acts in this line.
fn acting_job(line: &Line<'_>) -> Option<usize>
    ensures { result ≡ rule.acting_job (line_view line.now) }
{
    match *line {
        Line::Submits { actor, .. }
        | Line::Refused { actor, .. }
        | Line::Got { actor, .. }
        | Line::TimedOut { actor, .. }
        | Line::Interrupted { actor, .. }
        | Line::Cancels { actor, .. }
        | Line::InvokesAny { actor, .. } => job_of_actor(actor),
        _ => None,
    }
}

fn job_of_actor(actor: RecordedActor) -> Option<usize>
    ensures { result ≡ rule.job_of_actor actor }
{
    match actor {
        RecordedActor::Job(job) => Some(job),
        RecordedActor::Round(_) => None,
    }
}
