//! The step at the end of a body: a job finishes, or a client starts its body again.

ghost use Rattle.std.specs.Prelude.{◌≡◌, ◌≢◌, ◌<◌, true, false, length, slice_get, Some};
ghost use Rattle.pool_machine.specs.State.{pool_of};
ghost use Rattle.pool_machine.specs.declared.parent.Parent.TheVariants.{Job};
ghost use Rattle.interleaving.specs.LiveJobs.{DoneAreLatest};
ghost use Rattle.interleaving.specs.ViewStep.{live_job, is_done, may_get_in, pool_in, looped_in, finished_job_in, step_at_end_in};

use crate::plans::pool_of;
use crate::{JobView, World};
use job_bodies::Plan;
use pool_machine::{Outcome, Parent};

impl World {
    ghost use Rattle.interleaving.specs.Answers.{MatchesResult};
    ghost use Rattle.interleaving.specs.OfPlan.{IsAtWork, MadeByOther};

    /// Performs the step of an actor at the end of its body, and returns the outcome.
    ///
    /// - A job finishes.
    /// - A client of a repeating kind starts its body again.
    /// - Any other client cannot take a step, and the result is `None`.
    pub(crate) fn end(&mut self, plan: &Plan, actor: Parent) -> Option<Outcome>
        requires at_work { IsAtWork plan.now self.old.view actor }
        requires asks { may_get_in self.old.view.jobs actor ≡ true }
        requires other { MadeByOther self.old.view.jobs actor }
        requires done { DoneAreLatest self.old.view.jobs }
        ensures value { MatchesResult (step_at_end_in plan.now self.old.view actor) self.old.view result
            self.new.view }
        ensures places { self.new.places ≡ self.old.places }
    {
        match actor {
            Parent::Client(client) => self.begin_again(plan, client),
            Parent::Job(number) => {
                let job = self.jobs.get(number)?;
                Some(self.finish(plan, number, job))
            }
        }
    }

    fn begin_again(&mut self, plan: &Plan, client: usize) -> Option<Outcome>
        ensures value { MatchesResult
            (looped_in plan.now self.old.view client (slice_get self.old.view.clients client))
            self.old.view result self.new.view }
        ensures places { self.new.places ≡ self.old.places }
    {
        let kind = self.clients.get(client)?.kind;
        if !plan.client_at(kind)?.repeat {
            return None;
        }
        self.clients.begin_again(client);
        Some(Outcome::Looped)
    }

    fn finish(&mut self, plan: &Plan, number: usize, job: JobView) -> Outcome
        requires live { live_job self.old.view.jobs number ≡ Some job }
        requires pool { pool_of plan.now job.class < length self.old.view.pools }
        requires going { is_done job.phase ≡ false }
        requires other { job.parent ≢ Job number }
        requires done { DoneAreLatest self.old.view.jobs }
        requires busy { (pool_in self.old.view (pool_of plan.now job.class)).idle
            < (pool_in self.old.view (pool_of plan.now job.class)).threads }
        ensures value { finished_job_in plan.now self.old.view number (Some job)
            ≡ Some (self.new.view, result) }
        ensures places { self.new.places ≡ self.old.places }
    {
        self.pools[pool_of(plan, job.class)].finish();
        self.jobs.finish(number, job);
        Outcome::Finished(number)
    }
}
