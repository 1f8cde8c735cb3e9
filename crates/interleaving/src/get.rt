//! The get action, in which an actor gets the result of a done job.

ghost use Rattle.std.specs.Prelude.{◌≡◌, ◌+◌, ◌<◌, ◌^◌, true};
ghost use Rattle.interleaving.specs.Clients.{IsClientAt};
ghost use Rattle.interleaving.specs.LiveJobs.{IsOnlyLiveJob};
ghost use Rattle.interleaving.specs.ViewStep.{got_child_in, live_child, may_get_in};

use crate::World;
use crate::moves::move_actor;
use pool_machine::{Outcome, Parent};

impl World {
    ghost use Rattle.interleaving.specs.Answers.{MatchesResult};

    /// Performs a get of the latest live job that the actor created by the submit at position
    /// `submit`. Changes nothing and returns `None` if there is no such job or the job is not done.
    /// `position` is the actor's current position, which must not be 0.
    pub(crate) fn get(&mut self, actor: Parent, position: usize, submit: usize) -> Option<Outcome>
        requires stands { IsClientAt self.old.view.clients actor position }
        requires begun { 0 < position }
        requires can_advance { position + 1 < 2 ^ 64 }
        requires asks { may_get_in self.old.view.jobs actor ≡ true }
        requires alone { IsOnlyLiveJob self.old.view.jobs actor submit }
        ensures value { MatchesResult
            (got_child_in self.old.view actor position (live_child self.old.view.jobs actor submit))
            self.old.view result self.new.view }
        ensures places { self.new.places ≡ self.old.places }
    {
        let number = self.jobs.latest(actor, submit)?;
        let job = self.jobs.get(number)?;
        if !job.is_done() {
            return None;
        }
        move_actor(&mut self.jobs, &mut self.clients, actor, position + 1);
        self.jobs.remove(number, job);
        Some(Outcome::Got(number))
    }
}
