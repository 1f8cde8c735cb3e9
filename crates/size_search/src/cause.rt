//! Causes: reasons why no certificate accepts a plan, whatever its sizes.

/// A reason why no certificate accepts a plan, whatever its sizes.
#[derive(Clone, Copy)]
pub enum Cause {
    /// The number of a class that submits itself, directly or through other classes.
    Circle(usize),
    /// The number of a client kind, and the position of a submit in its body. Clients of this kind
    /// repeat, and never get the submitted job. The job goes to a pool that must not reject jobs
    /// and has a bounded queue.
    ClientNeverGets(usize, usize),
    /// The number of a class, and the position of a submit in its body. Jobs of this class never
    /// get the submitted job, which goes to a pool that must not reject jobs and has a bounded
    /// queue. Repeating clients submit jobs of this class, directly or through other jobs.
    ClassNeverGets(usize, usize),
    /// The number of a pool whose core threads may time out, so that only one thread can be left.
    /// This last thread can wait until another job of the pool ends.
    ///
    /// The job that the last thread executes waits at a get. It waits for the other job directly,
    /// or through a chain of jobs that ends with the other job. Each job of the chain waits for the
    /// next job in one of two ways:
    ///
    /// - It gets the next job.
    /// - It is queued in a pool whose last thread executes a job that gets the next job.
    PoolWaitsForItself(usize),
}
