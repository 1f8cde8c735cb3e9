//! The effect of one event on the world of a plan.

ghost use Rattle.std.specs.Prelude.{◌≡◌, ◌+◌, ◌<◌, ◌^◌, true, IfOk, OnOk, OnErr};
ghost use Rattle.job_bodies.specs.WellFormed.{IsWellFormed};
ghost use Rattle.pool_machine.specs.State.{State};
ghost use Rattle.pool_machine.specs.Reach.{IsReached};
ghost use Rattle.interleaving.specs.LiveView.{live_view};
ghost use Rattle.interleaving.specs.ViewStep.{step_actor, point_in, may_get_in, move_actor};
ghost use Rattle.interleaving.specs.ViewAnswers.{AnswersAs};

use crate::World;
use crate::moves::move_actor;
use job_bodies::{Action, Plan};
use pool_machine::{Event, Outcome, Parent};
use std::alloc::AllocError;

impl World {
    ghost use Rattle.interleaving.specs.Answers.{MatchesResult, AnswersIn};
    ghost use Rattle.interleaving.specs.NextAction.{MayGrow, ActorMayGrow};
    ghost use Rattle.interleaving.specs.Clients.{IsClientAt, IsFirst};
    ghost use Rattle.interleaving.specs.OfPlan.{IsReachableView};
    ghost use Rattle.interleaving.specs.World.{ReusesPlaces};

    /// Performs the event and returns its outcome. If the event is not possible, changes nothing
    /// and returns `None`.
    ///
    /// An event belongs to one actor or one pool:
    ///
    /// - A client or a running job performs the next action of its body. At the end of its body, a
    ///   job finishes, and a client starts its body again if its kind repeats.
    /// - An idle worker of a pool takes the job at the head of the queue, or ends.
    ///
    /// # Errors
    ///
    /// Returns `AllocError` if there is not enough memory for a submit or for a client's first
    /// action. Also returns it if the number of jobs or of refusals would overflow. The world is
    /// then unchanged.
    pub fn step(&mut self, plan: &Plan, event: Event) -> Result<Option<Outcome>, AllocError>
        requires { IsReachableView plan.now self.old.view }

        // In every reachable state whose live view was the world's view before the event, the
        // machine of `pool_machine` gives the same result.
        ensures answered { IfOk result (λ answer.
            (s : State)
            → IsReached plan.now s
            → live_view plan.now s ≡ self.old.view
            → AnswersAs plan.now s event answer self.new.view) }
        ensures in_view { IfOk result
            (λ answer. AnswersIn plan.now self.old.view event answer self.new.view) }

        // Whether the call returns a result or an error, the world's view is afterwards the live
        // view of a reachable state of this plan.
        ensures of_plan { IsReachableView plan.now self.new.view }
        ensures well_formed { IsWellFormed plan.now }

        // The number of places grows only if a job is created while each place holds a live job.
        ensures places { ReusesPlaces self.old self.new }
        ensures error_unchanged { OnErr result (self.new ≡ self.old) }
        ensures error_only_where_it_grows { OnErr result (MayGrow plan.now self.old.view event) }
    {
        self.act(plan, event)
    }

    // Performs the event. The contract compares live views; the contract of `step` follows from it,
    // and compares states.
    fn act(&mut self, plan: &Plan, event: Event) -> Result<Option<Outcome>, AllocError>
        requires { IsReachableView plan.now self.old.view }
        ensures answered { IfOk result
            (λ answer. AnswersIn plan.now self.old.view event answer self.new.view) }
        ensures well_formed { IsWellFormed plan.now }
        ensures places { ReusesPlaces self.old self.new }
        ensures error_unchanged { OnErr result (self.new ≡ self.old) }
        ensures error_only_where_it_grows { OnErr result (MayGrow plan.now self.old.view event) }
    {
        match event {
            Event::Client(client) => self.step_actor(plan, Parent::Client(client)),
            Event::Job(number) => self.step_actor(plan, Parent::Job(number)),
            Event::Take(pool) => Ok(self.take(plan, pool)),
            Event::Retire(pool) => Ok(self.retire(plan, pool)),
        }
    }

    fn step_actor(&mut self, plan: &Plan, actor: Parent) -> Result<Option<Outcome>, AllocError>
        requires { IsReachableView plan.now self.old.view }
        ensures answered { IfOk result (λ answer.
            MatchesResult (step_actor plan.now self.old.view actor (point_in plan.now self.old.view actor))
            self.old.view answer self.new.view) }
        ensures well_formed { IsWellFormed plan.now }
        ensures places { ReusesPlaces self.old self.new }
        ensures error_unchanged { OnErr result (self.new ≡ self.old) }
        ensures error_only_where_it_grows { OnErr result
            (ActorMayGrow plan.now self.old.view actor) }
    {
        let Some(next) = self.next_action(plan, actor) else {
            return Ok(None);
        };
        match next.action {
            None => Ok(self.end(plan, actor)),
            Some(Action::Work(units)) => {
                self.advance(actor, next.position)?;
                Ok(Some(Outcome::Worked(units)))
            }
            Some(Action::Submit(class)) => Ok(Some(self.submit(plan, actor, next, class)?)),
            Some(Action::Get(submit)) => Ok(self.get(actor, next.position, submit)),
        }
    }

    // Moves the actor, which is at this position of its body, to the next position.
    fn advance(&mut self, actor: Parent, position: usize) -> Result<(), AllocError>
        requires stands { IsClientAt self.old.view.clients actor position }
        requires can_advance { position + 1 < 2 ^ 64 }
        requires asks { may_get_in self.old.view.jobs actor ≡ true }
        ensures ok { OnOk result (self.new.view ≡ move_actor actor (position + 1) self.old.view) }
        ensures places { self.new.places ≡ self.old.places }
        ensures err { OnErr result (self.new ≡ self.old) }
        ensures error_only_at_start { OnErr result (IsFirst actor position) }
    {
        self.clients.reserve_for(actor, position)?;
        move_actor(&mut self.jobs, &mut self.clients, actor, position + 1);
        Ok(())
    }
}
