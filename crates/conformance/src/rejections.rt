//! The refusals of a recording: the rejections that the plan allows, and the other refusals.
//! [`conform`](crate::conform) collects them only if some pool of the plan may reject jobs.

ghost use Rattle.std.specs.Prelude.{◌≡◌, ◌+◌, ◌==◌, ◌++◌, ◌∷◌, [], ℕ, true, Some, List, count_by, length, OnOk, IfOk};
ghost use Rattle.std.specs.Option.{option_to_list};
ghost use Rattle.job_bodies.specs.Plan as plans;
ghost use Rattle.recordings.specs.LineParts.{refuses_job};
ghost use Rattle.recordings.specs.LineSteps.{is_refused};
ghost use Rattle.recordings.specs.RecordingLine.{RecordedLine, line_view};
ghost use Rattle.conformance.specs.Lines.{lines_of};
ghost use Rattle.conformance.specs.RefusalFacts.{AreFactsFor};
ghost use Rattle.conformance.specs.RejectingPools as rejecting;
ghost use Rattle.conformance.specs.RejectionRule as rule;
ghost use Rattle.conformance.specs.Rejections as spec;

use crate::pool_names::PoolNames;
use crate::refusal_facts::{RefusalFacts, refusal_facts};
use crate::refused_jobs::refused_jobs;
use crate::rejection_rule::has_rejecting_pool;
use crate::well_formed_lines::WellFormedLines;
use job_bodies::{Plan, Pool};
use recordings::{InvalidatingEvent, Invalidation, Line, RecordedActor};
use std::alloc::{AllocError, Global};

/// The count of jobs that a pool rejected. `pool` is the number of this pool in the plan.
#[derive(Clone, Copy)]
pub struct PoolRejections {
    pub pool: usize,
    pub count: usize,
}

/// The refusals in the lines read so far.
#[derive(Drop)]
pub(crate) struct Rejections {
    /// The pool of each rejection that the plan allows, in the order of the lines.
    pools: Vec<usize>,
    /// The pool of each refusal that the plan does not allow, in the order of the lines. Pools that
    /// are not in the plan are not in the list.
    refusing: Vec<usize>,
    /// The first refusal that the plan does not allow.
    pub(crate) first_refusal: Option<Invalidation>,
    // The pools that are shut down.
    shut: PoolNames,
}

impl Rejections {
    fn new(alloc: Global) -> Rejections
        ensures { (plan : plans.Plan) (lines : List RecordedLine) → spec.AreRejectionsOfPrefix plan lines [] result }
    {
        let pools = Vec::new(alloc);
        let refusing = Vec::new(alloc);
        let shut = PoolNames::new(alloc);
        Rejections {
            pools,
            refusing,
            first_refusal: None,
            shut,
        }
    }

    // Reads line `number`. `facts` has the facts from the whole recording.
    fn take(
        &mut self,
        plan: &Plan,
        facts: &RefusalFacts,
        number: usize,
        line: &Line<'_>,
    ) -> Result<(), AllocError>
        ensures { (lines before : List RecordedLine)
            → AreFactsFor plan.now lines facts.now
            → ((job : ℕ) → refuses_job job (line_view line.now) ≡ true → is_refused lines job ≡ true)
            → number ≡ length before + 1
            → spec.AreRejectionsOfPrefix plan.now lines before self.old
            → OnOk result
            (spec.AreRejectionsOfPrefix plan.now lines (before ++ line_view line.now ∷ []) self.new) }
    {
        match *line {
            Line::Refused { actor, job } => self.note_refusal(plan, facts, number, actor, job),
            Line::ShutDown { pool } => self.shut.insert(pool),
            _ => Ok(()),
        }
    }

    fn note_refusal(
        &mut self,
        plan: &Plan,
        facts: &RefusalFacts,
        number: usize,
        actor: RecordedActor,
        job: usize,
    ) -> Result<(), AllocError>
        ensures { (lines before : List RecordedLine)
            → AreFactsFor plan.now lines facts.now
            → is_refused lines job ≡ true
            → number ≡ length before + 1
            → spec.AreRejectionsOfPrefix plan.now lines before self.old
            → OnOk result
            (spec.NotesRefusal (rule.rejecting_pool plan.now lines before job) (rule.pool_of_job plan.now lines job) number actor job self.old self.new) }
    {
        let pool = self.rejecting_pool(plan, facts, job);
        let of_job = facts.jobs.pool_of(job);
        self.note(pool, of_job, number, actor, job)
    }

    // Notes a refusal. `pool` is the pool that rejects the job if the plan allows this, and `None`
    // otherwise. `of_job` is the pool of the job, or `None` if the plan does not have this pool.
    fn note(
        &mut self,
        pool: Option<usize>,
        of_job: Option<usize>,
        number: usize,
        actor: RecordedActor,
        job: usize,
    ) -> Result<(), AllocError>
        ensures { OnOk result (spec.NotesRefusal pool of_job number actor job self.old self.new) }
    {
        match pool {
            Some(pool) => {
                self.pools.push(pool)?;
                Ok(())
            }
            None => {
                if self.first_refusal.is_none() {
                    self.first_refusal = Some(Invalidation {
                        line: number,
                        event: InvalidatingEvent::Refused { actor, job },
                    });
                }
                push_some(&mut self.refusing, of_job)
            }
        }
    }

    // Returns the pool that rejects the job, if the plan allows this.
    fn rejecting_pool(&self, plan: &Plan, facts: &RefusalFacts, job: usize) -> Option<usize>
        ensures { (lines before : List RecordedLine)
            → AreFactsFor plan.now lines facts.now
            → is_refused lines job ≡ true
            → spec.AreRejectionsOfPrefix plan.now lines before self.now
            → result ≡ rule.rejecting_pool plan.now lines before job }
    {
        match facts.jobs.pool_of(job) {
            Some(pool) => self.pool_if_allowed(plan, facts, job, pool),
            None => None,
        }
    }

    // Returns the pool if its rejection rule allows the refusal of the job, and `None` otherwise.
    fn pool_if_allowed(
        &self,
        plan: &Plan,
        facts: &RefusalFacts,
        job: usize,
        pool: usize,
    ) -> Option<usize>
        ensures { (lines before : List RecordedLine)
            → AreFactsFor plan.now lines facts.now
            → is_refused lines job ≡ true
            → spec.AreRejectionsOfPrefix plan.now lines before self.now
            → result ≡ rule.pool_if_allowed plan.now lines before job (Some pool) }
    {
        let closed = self.shut.contains(plan.pool_name(pool));
        if facts.allows(job, pool, closed) {
            Some(pool)
        } else {
            None
        }
    }

    /// Returns true if the pool refused at least one job and the plan allows all refusals by the
    /// pool.
    pub(crate) fn only_rejects(&self, pool: usize) -> bool
        ensures { result ≡ spec.only_rejected_by self.now pool }
    {
        is_among(pool, &self.pools) && !is_among(pool, &self.refusing)
    }

    /// Returns the number of allowed rejections for each pool that may reject jobs, in the order of
    /// the plan.
    ///
    /// # Errors
    ///
    /// Returns `AllocError` if memory runs out.
    pub(crate) fn counts(
        &self,
        alloc: Global,
        plan: &Plan,
    ) -> Result<Vec<PoolRejections>, AllocError>
        ensures { IfOk result (λ counts. counts.items ≡ spec.counts_by plan.now self.now.pools.items) }
    {
        let mut counts = Vec::new(alloc);
        for (number, pool) in plan.pools().iter().enumerate() {
            push_count(&mut counts, number, pool, &self.pools)?;
        }
        Ok(counts)
    }
}

fn push_some(pools: &mut Vec<usize>, pool: Option<usize>) -> Result<(), AllocError>
    ensures { OnOk result (pools.new.items ≡ pools.old.items ++ option_to_list pool) }
{
    if let Some(pool) = pool {
        pools.push(pool)?;
    }
    Ok(())
}

fn push_count(
    counts: &mut Vec<PoolRejections>,
    number: usize,
    pool: &Pool,
    pools: &[usize],
) -> Result<(), AllocError>
    ensures { OnOk result
        (counts.new.items
        ≡ counts.old.items ++ option_to_list (spec.count_if pools.now (number, pool.now))) }
{
    if pool.may_reject {
        counts.push(PoolRejections {
            pool: number,
            count: count_of(pools, number),
        })?;
    }
    Ok(())
}

fn is_among(pool: usize, pools: &[usize]) -> bool
    ensures { result ≡ rejecting.is_among pool pools.now }
{
    pools.iter().any(|one| *one == pool)
}

fn count_of(pools: &[usize], pool: usize) -> usize
    ensures { result ≡ count_by (λ one. one == pool) pools.now }
{
    pools.iter().filter(|one| **one == pool).count()
}

/// Returns the refusals of a recording, or `None` if no pool of the plan may reject jobs.
///
/// Reads the recording once, and twice more if a job was refused. The memory grows with the number
/// of refused jobs.
///
/// # Errors
///
/// Returns `AllocError` if memory runs out.
pub(crate) fn find_rejections(
    alloc: Global,
    plan: &Plan,
    recording: &[u8],
) -> Result<Option<Rejections>, AllocError>
    ensures { IfOk result (spec.AreRejectionsOf plan.now (lines_of recording.now)) }
{
    if !has_rejecting_pool(plan) {
        return Ok(None);
    }
    let rejections = rejections_in(alloc, plan, recording)?;
    Ok(Some(rejections))
}

/// Returns the refusals of a recording.
///
/// # Errors
///
/// Returns `AllocError` if memory runs out.
pub(crate) fn rejections_in(
    alloc: Global,
    plan: &Plan,
    recording: &[u8],
) -> Result<Rejections, AllocError>
    ensures { IfOk result (spec.AreAllRejections plan.now (lines_of recording.now)) }
{
    let refused = refused_jobs(alloc, recording)?;
    if refused.is_empty() {
        return Ok(Rejections::new(alloc));
    }
    let facts = refusal_facts(alloc, plan, recording, refused)?;
    rejections_by(alloc, plan, recording, &facts)
}

fn rejections_by(
    alloc: Global,
    plan: &Plan,
    recording: &[u8],
    facts: &RefusalFacts,
) -> Result<Rejections, AllocError>
    ensures { AreFactsFor plan.now (lines_of recording.now) facts.now
        → IfOk result (spec.AreAllRejections plan.now (lines_of recording.now)) }
{
    let mut rejections = Rejections::new(alloc);
    let mut lines = WellFormedLines::new(recording);
    let mut number = 0;
    while let Some(line) = lines.next() {
        number += 1;
        rejections.take(plan, facts, number, &line)?;
    }
    Ok(rejections)
}
