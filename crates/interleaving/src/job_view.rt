//! Live jobs: jobs that are queued or running, and done jobs that their parents may still get. The
//! parent of a job is the actor that submitted it.

ghost use Rattle.std.specs.Prelude.{◌≡◌, Some};
ghost use Rattle.interleaving.specs.ViewStep.{is_done, is_live_child, drop_if_stale, drop_if_orphan};

use pool_machine::Parent;

/// The phase of a live job.
#[derive(Clone, Copy)]
pub enum Phase {
    /// The job waits in its pool's queue.
    Queued,
    /// A worker runs the job. The field is the position of the job in its body. At the end of the
    /// body, the position is the body's length.
    At(usize),
    /// The job is done, and its parent may still get it.
    Done,
}

/// A live job.
#[derive(Clone, Copy)]
pub struct JobView {
    /// The number of the job's class.
    pub class: usize,
    pub parent: Parent,
    /// The position of the submit that created the job. It is a position in the body of the job's
    /// parent.
    pub slot: usize,
    pub phase: Phase,
}

impl JobView {
    /// Returns `true` if the job is done.
    pub fn is_done(self) -> bool
        ensures { result ≡ is_done self.phase }
    {
        matches!(self.phase, Phase::Done)
    }

    /// Returns `true` if this actor created the job by the submit at position `submit` of the
    /// actor's body.
    pub fn is_child_of(self, actor: Parent, submit: usize) -> bool
        ensures { result ≡ is_live_child actor submit (Some self) }
    {
        actor == self.parent && submit == self.slot
    }

    /// Returns this job, or `None` if the job is *stale*. A stale job is done, and `actor` created
    /// it by the submit at position `submit` of the actor's body. A stale job stops being live when
    /// the same submit creates another job, because a get then returns only the new job.
    pub fn drop_if_stale(self, actor: Parent, submit: usize) -> Option<JobView>
        ensures { result ≡ drop_if_stale actor submit (Some self) }
    {
        if self.is_child_of(actor, submit) && self.is_done() {
            None
        } else {
            Some(self)
        }
    }

    /// Returns this job, or `None` if the job is an *orphan*. An orphan is done, and the job with
    /// the number `parent` created it. An orphan stops being live when its parent finishes, because
    /// no actor can get the orphan any more.
    pub fn drop_if_orphan(self, parent: usize) -> Option<JobView>
        ensures { result ≡ drop_if_orphan parent (Some self) }
    {
        if self.parent == Parent::Job(parent) && self.is_done() {
            None
        } else {
            Some(self)
        }
    }
}
