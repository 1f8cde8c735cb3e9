//! The move of an actor to a position of its body.

ghost use Rattle.std.specs.Prelude.{◌≡◌, true};
ghost use Rattle.interleaving.specs.LiveView.{View};
ghost use Rattle.interleaving.specs.Clients.{CanMove};
ghost use Rattle.interleaving.specs.ViewStep.{may_get_in, moved_live_jobs, moved_live_clients};

use crate::{Clients, LiveJobs};
use pool_machine::Parent;

/// Moves the actor to this position of its body. The actor must be a client or an unfinished job.
/// For the first move of a client, [`Clients::reserve_for`] must have reserved memory.
pub(crate) fn move_actor(jobs: &mut LiveJobs, clients: &mut Clients, actor: Parent, position: usize)
    requires asks { may_get_in jobs.old.jobs actor ≡ true }
    requires room { CanMove clients.old actor }
    ensures jobs { (view : View)
        → view.jobs ≡ jobs.old.jobs
        → jobs.new.jobs ≡ moved_live_jobs actor position view }
    ensures places { jobs.new.places ≡ jobs.old.places }
    ensures room { jobs.new.room ≡ jobs.old.room }
    ensures clients { (view : View)
        → view.clients ≡ clients.old.items
        → clients.new.items ≡ moved_live_clients actor position view }
{
    match actor {
        Parent::Client(client) => clients.go_to(client, position),
        Parent::Job(number) => jobs.go_to(number, position),
    }
}
