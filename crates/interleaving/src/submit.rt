//! The submit action, in which an actor offers a job to a pool.

ghost use Rattle.std.specs.Prelude.{◌≡◌, ◌+◌, ◌<◌, ◌^◌, length, true, None, IfOk, OnErr};
ghost use Rattle.pool_machine.specs.State.{pool_of};
ghost use Rattle.interleaving.specs.ViewStep.{live_child, may_get_in, submitted_in};
ghost use Rattle.interleaving.specs.Clients.{IsClientAt};
ghost use Rattle.interleaving.specs.LiveJobs.{DoneAreLatest};
ghost use Rattle.interleaving.specs.NextAction.{IsAmong};

use crate::moves::move_actor;
use crate::next_action::NextAction;
use crate::plans::{may_reject, pool_of};
use crate::{JobView, Phase, World};
use job_bodies::Plan;
use pool_machine::{Offer, Outcome, Parent};
use std::alloc::AllocError;

impl World {
    ghost use Rattle.interleaving.specs.World.{ReusesPlaces};

    /// Performs a submit of the actor: offers a job of the class to the class's pool. The outcome
    /// is one of these:
    ///
    /// - The pool accepts the job. The job is created, and the actor moves to its next position.
    /// - The pool rejects the job. This is possible only if the pool may reject jobs. The job is
    ///   created as a done job, and the actor moves to its next position.
    /// - The pool refuses the job. The refusal is counted, and the actor does not move.
    ///
    /// `next` has the position of the submit in the body. If the body has a get of this submit, the
    /// earlier jobs of this submit must no longer be live.
    ///
    /// # Errors
    ///
    /// Returns `AllocError` if there is not enough memory, or if the number of jobs or of refusals
    /// would overflow. The world is then unchanged.
    pub(crate) fn submit(
        &mut self,
        plan: &Plan,
        actor: Parent,
        next: NextAction,
        class: usize,
    ) -> Result<Outcome, AllocError>
        requires pool { pool_of plan.now class < length self.old.view.pools }
        requires there { IsAmong (length self.old.view.clients) (length self.old.view.jobs) actor }
        requires stands { IsClientAt self.old.view.clients actor next.position }
        requires can_advance { next.position + 1 < 2 ^ 64 }
        requires asks { may_get_in self.old.view.jobs actor ≡ true }
        requires has_get { next.has_get ≡ true
            → live_child self.old.view.jobs actor next.position ≡ None }
        requires done { DoneAreLatest self.old.view.jobs }
        ensures ok { IfOk result (λ outcome.
            submitted_in plan.now self.old.view actor next.position class
            ≡ (self.new.view, outcome)) }
        ensures places { ReusesPlaces self.old self.new }
        ensures err { OnErr result (self.new ≡ self.old) }
    {
        let pool = pool_of(plan, class);
        let latest = self.latest_before(actor, next);
        self.jobs.reserve_for(actor)?;
        self.clients.reserve_for(actor, next.position)?;
        let number = self.jobs.len();
        let (phase, outcome) = match self.pools[pool].offer(number)? {
            Offer::Started => (Phase::At(0), Outcome::Started(number)),
            Offer::Queued => (Phase::Queued, Outcome::Queued(number)),
            Offer::Refused if may_reject(plan, pool) => {
                (Phase::Done, Outcome::Rejected(pool, number))
            }
            Offer::Refused => {
                self.refusals = self.refusals.checked_add(1).ok_or(AllocError)?;
                return Ok(Outcome::Refused(pool));
            }
        };
        move_actor(&mut self.jobs, &mut self.clients, actor, next.position + 1);
        self.jobs.create(
            latest,
            JobView {
                class,
                parent: actor,
                slot: next.position,
                phase,
            },
        );
        Ok(outcome)
    }

    // Returns the number of the latest live job that the actor created by this submit. There is
    // none if the body has a get of this submit.
    fn latest_before(&self, actor: Parent, next: NextAction) -> Option<usize>
        requires asks { may_get_in self.now.view.jobs actor ≡ true }
        requires has_get { next.has_get ≡ true
            → live_child self.now.view.jobs actor next.position ≡ None }
        ensures { result ≡ live_child self.now.view.jobs actor next.position }
    {
        if next.has_get {
            None
        } else {
            self.jobs.latest(actor, next.position)
        }
    }
}
