//! The lints of plans.

ghost use Rattle.std.specs.Prelude.{◌≡◌};
ghost use Rattle.diagnostics.specs.Lints as spec;

use crate::warnings::Warning;
use job_bodies::Part;

/// A lint: a part of a valid plan that is probably a mistake. The fields name pools, classes,
/// client kinds and actions by their numbers, which begin at 0.
#[derive(Clone, Copy)]
pub enum Lint {
    /// The plan would be SAFE if some maximums were lowered to the core sizes of their pools: a
    /// certificate accepts the plan that [`at_core`](crate::at_core) returns. This crate does not
    /// search for the certificate. The caller of [`warnings_of`](crate::warnings_of) says whether
    /// there is one.
    SafeAtCore,
    /// This class submits itself, directly or through other classes.
    SubmitsItself(usize),
    /// The body of a class or client kind has a submit without a get, and repeating clients cause
    /// this submit again and again. The submitted job goes to a pool that must not reject jobs and
    /// has a bounded queue. The fields are the kind of entry (class or client kind), the number of
    /// the entry, and the number of the action.
    NeverGot(Part, usize, usize),
    /// The core threads of this pool may time out, and the last thread of the pool can wait at a
    /// get until another job of the pool ends.
    PoolWaitsForItself(usize),
    /// The plan has no pools and no clients.
    NothingToAsk,
    /// The plan has pools, but no clients.
    NoClients,
    /// The plan has clients, but they submit nothing.
    NothingSubmitted,
    /// No job is ever submitted to this pool.
    PoolWithoutJobs(usize),
    /// The maximum of this pool is above its core size, but has no effect: its core threads never
    /// time out, and no submit finds its queue full.
    UselessMax(usize),
    /// The plan says that this pool may reject jobs, but the pool never does, because no submit
    /// finds its queue full. The second field is a bound on the number of jobs in the queue at
    /// once.
    UselessMayReject(usize, u64),
    /// The plan says that this pool may reject jobs, but the pool never does, because its queue is
    /// unbounded.
    NeverRejects(usize),
    /// The capacity of this pool's queue is more than ten times the second field, which is a bound
    /// on the number of jobs in the queue at once.
    QueueFarAbove(usize, u64),
    /// No client submits this class, directly or through other jobs.
    ClassWithoutJobs(usize),
    /// The pool of this class may reject the class's jobs, and the body of the class has submits or
    /// gets. If the pool's handler runs a rejected job in the caller, the plan does not describe
    /// what happens.
    RunInCaller(usize),
    /// This client kind does not repeat: each client of this kind goes through its body once.
    GoesOnce(usize),
    /// This client kind submits jobs only to pools that are small for the number of its clients.
    /// Such a pool has one core thread, and a bounded queue with a capacity below this number. The
    /// plan does not allow such a pool to reject jobs.
    Crowd(usize),
    /// The length of a `work` is a duration, but looks like a number of threads or jobs. The length
    /// is at least 50 units, and equals a size of a pool or the count of a client kind. The fields
    /// are the kind of entry (class or client kind), the number of the entry, the number of the
    /// action, and the length.
    WorkLikeASize(Part, usize, usize, u32),
    /// The body of a class or client kind submits a job while the future of an earlier job is open,
    /// and the pool of the new job may reject it. The future is open if the get of the earlier job
    /// comes after the new submit. The fields are the kind of entry (class or client kind), the
    /// number of the entry, and the number of the action.
    OpenFuture(Part, usize, usize),
    /// The body of a class or client kind submits a job to a pool with an unbounded queue and has
    /// no get of this job. Repeating clients cause this submit again and again, so the queue may
    /// grow without limit. The fields are the kind of entry (class or client kind), the number of
    /// the entry, and the number of the action.
    QueueMayGrow(Part, usize, usize),
    /// A certificate was given with the plan, but does not accept the plan. This crate never
    /// reports this lint. A caller that reports it writes the message too.
    StaleCertificate,
}

/// Returns whether the lint is a note instead of a warning. A plan does not show whether a note
/// matters: this depends on the handler of a pool, or on the code around a submit.
pub fn is_note(lint: Lint) -> bool
    ensures { result ≡ spec.is_note lint }
{
    matches!(lint, Lint::RunInCaller(_) | Lint::OpenFuture(_, _, _))
}

/// Returns whether the list has a warning that is not a note.
pub fn has_warning(warnings: &[Warning]) -> bool
    ensures { result ≡ spec.has_warning warnings.now }
{
    warnings.iter().any(|warning| !is_note(warning.lint))
}
