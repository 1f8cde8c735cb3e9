//! The next action of an actor.

ghost use Rattle.std.specs.Prelude.{◌≡◌, ◌+◌, ◌<◌, ◌^◌, length, true, IsSome, IfSome, OnSome};
ghost use Rattle.job_bodies.specs.WellFormed.{IsWellFormed};
ghost use Rattle.std.specs.Option.{option_map};
ghost use Rattle.pool_machine.specs.declared.parent.Parent.TheVariants as parent;
ghost use Rattle.interleaving.specs.ViewStep.{point_in, may_get_in};
ghost use Rattle.interleaving.specs.Clients.{IsClientAt};
ghost use Rattle.interleaving.specs.NextAction.{IsAmong, next_action_in};

use crate::plans::{body_of_class, body_of_kind};
use crate::{Phase, World};
use job_bodies::{Action, Plan, has_get_of};
use pool_machine::Parent;

/// The position of an actor in its body, and the action at this position. At the end of the body
/// there is no action.
#[derive(Clone, Copy)]
pub(crate) struct NextAction {
    pub(crate) position: usize,
    pub(crate) action: Option<Action>,
    // Whether the action is a submit, and the body has a get of the submitted job.
    pub(crate) has_get: bool,
}

impl NextAction {
    fn of(body: &[Action], position: usize) -> NextAction
        ensures value { result ≡ next_action_in body.now position }
        ensures can_advance { IsSome result.action → position + 1 < 2 ^ 64 }
    {
        let action = body.get(position).copied();
        NextAction {
            position,
            action,
            has_get: matches!(action, Some(Action::Submit(_))) && has_get_of(body, position),
        }
    }
}

impl World {
    ghost use Rattle.interleaving.specs.NextAction.{next_action_at};

    /// Returns the position of the actor in its body, and the action at this position. Returns
    /// `None` if there is no such actor, or if the actor is a job that is not running.
    pub(crate) fn next_action(&self, plan: &Plan, actor: Parent) -> Option<NextAction>
        ensures value { result ≡ option_map next_action_at (point_in plan.now self.now.view actor) }
        ensures can_advance { IfSome result
            (λ next. IsSome next.action → next.position + 1 < 2 ^ 64) }
        ensures well_formed { IsWellFormed plan.now }
        ensures there { OnSome result
            (IsAmong (length self.now.view.clients) (length self.now.view.jobs) actor) }
        ensures asks { OnSome result (may_get_in self.now.view.jobs actor ≡ true) }
        ensures stands { IfSome result
            (λ next. IsClientAt self.now.view.clients actor next.position) }
    {
        match actor {
            Parent::Client(client) => self.next_of_client(plan, client),
            Parent::Job(number) => self.next_of_job(plan, number),
        }
    }

    fn next_of_client(&self, plan: &Plan, client: usize) -> Option<NextAction>
        ensures there { OnSome result (client < length self.now.view.clients) }
        ensures stands { IfSome result
            (λ next. IsClientAt self.now.view.clients (parent.Client client) next.position) }
        ensures value { result
            ≡ option_map next_action_at (point_in plan.now self.now.view (parent.Client client)) }
        ensures can_advance { IfSome result
            (λ next. IsSome next.action → next.position + 1 < 2 ^ 64) }
        ensures well_formed { IsWellFormed plan.now }
    {
        let kinds = plan.clients();
        let client = self.clients.get(client)?;
        Some(NextAction::of(body_of_kind(kinds, client.kind), client.position))
    }

    fn next_of_job(&self, plan: &Plan, number: usize) -> Option<NextAction>
        ensures there { OnSome result (number < length self.now.view.jobs) }
        ensures asks { OnSome result (may_get_in self.now.view.jobs (parent.Job number) ≡ true) }
        ensures value { result
            ≡ option_map next_action_at (point_in plan.now self.now.view (parent.Job number)) }
        ensures can_advance { IfSome result
            (λ next. IsSome next.action → next.position + 1 < 2 ^ 64) }
        ensures well_formed { IsWellFormed plan.now }
    {
        let classes = plan.classes();
        let job = self.jobs.get(number)?;
        match job.phase {
            Phase::At(position) => Some(NextAction::of(
                body_of_class(classes, job.class),
                position,
            )),
            Phase::Queued | Phase::Done => None,
        }
    }
}
