//! The facts about the refusals of a whole recording.

ghost use Rattle.std.specs.Prelude.{◌≡◌, ◌++◌, ◌∷◌, [], ℕ, true, List, OnOk, IfOk};
ghost use Rattle.job_bodies.specs.Plan as plans;
ghost use Rattle.recordings.specs.LineSteps.{is_refused};
ghost use Rattle.recordings.specs.RecordingLine.{RecordedLine, line_view};
ghost use Rattle.conformance.specs.JobSet.{has_job};
ghost use Rattle.conformance.specs.Lines.{lines_of};
ghost use Rattle.conformance.specs.RefusalFacts as spec;
ghost use Rattle.conformance.specs.RejectionRule.{is_allowed_by, has_acted, rule_of};
ghost use Rattle.recordings.specs.Before.{has_started};

use crate::handlers::Handlers;
use crate::job_set::JobSet;
use crate::refused_jobs::RefusedJobs;
use crate::rejection_rule::RejectionRule;
use crate::well_formed_lines::WellFormedLines;
use job_bodies::Plan;
use std::alloc::{AllocError, Global};

/// The facts that decide which refusals are allowed: the rejection rule of each pool, and what each
/// refused job does. These facts come from all lines of a recording.
#[derive(Drop)]
pub(crate) struct RefusalFacts {
    // The rule of each pool of the plan.
    rules: Vec<RejectionRule>,
    pub(crate) jobs: RefusedJobs,
}

impl RefusalFacts {
    /// Returns true if the rejection rule of the pool allows the refusal of this job. The job must
    /// have a `refused` line. `closed` says whether a `shutdown` of the pool precedes the refusal.
    pub(crate) fn allows(&self, job: usize, pool: usize, closed: bool) -> bool
        ensures { (plan : plans.Plan) (lines : List RecordedLine)
            → spec.AreFactsFor plan lines self.now
            → is_refused lines job ≡ true
            → result
            ≡ is_allowed_by (rule_of plan lines pool) (has_acted lines job) (has_started lines job) closed }
    {
        let rule = rule_at(&self.rules, pool);
        let acted = self.jobs.has_acted(job);
        let started = self.jobs.has_started(job);
        rule.allows(acted, started, closed)
    }
}

fn rule_at(rules: &[RejectionRule], pool: usize) -> RejectionRule
    ensures { result ≡ spec.rule_at rules.now pool }
{
    match rules.get(pool) {
        Some(rule) => *rule,
        None => RejectionRule::Never,
    }
}

/// Returns the facts about the refusals of the recording. `refused` has the jobs that were refused.
///
/// # Errors
///
/// Returns `AllocError` if memory runs out.
pub(crate) fn refusal_facts(
    alloc: Global,
    plan: &Plan,
    recording: &[u8],
    refused: JobSet,
) -> Result<RefusalFacts, AllocError>
    requires { (job : ℕ) → has_job refused job ≡ is_refused (lines_of recording.now) job }
    ensures { IfOk result (spec.AreFactsFor plan.now (lines_of recording.now)) }
{
    let mut jobs = RefusedJobs::new(alloc, refused);
    let mut handlers = Handlers::new(alloc);
    let mut lines = WellFormedLines::new(recording);
    while let Some(line) = lines.next() {
        jobs.take(plan, &line)?;
        handlers.take(&line)?;
    }
    let rules = handlers.rules(alloc, plan)?;
    Ok(RefusalFacts { rules, jobs })
}
