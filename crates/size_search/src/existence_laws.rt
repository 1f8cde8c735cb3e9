//! Laws about the existence of sizes with which a certificate accepts a plan. Each law is the
//! contract of a function with an empty body. In the steady certificate of a plan, the same vector
//! serves as the blocked vector of every pool whose core threads never time out, and as the
//! standing vector of every pool that needs a bound. A pool needs none if it may reject jobs or its
//! queue is unbounded. The other blocked vectors are 0.

ghost use Rattle.size_search.specs.NoSizesHelp.{NoSizesHelp};
ghost use Rattle.size_search.specs.NoSizesHelp.{SizesExist};

/// States that no certificate accepts a plan with a cause, whatever sizes the plan has. A cause is
/// one of these:
///
/// - A class submits itself, directly or through other classes.
/// - A repeating client submits a job, directly or through other jobs. The job is never got, and
///   its pool must not reject jobs and has a bounded queue.
/// - The core threads of a pool may time out, and its last thread can wait until a job of the pool
///   ends.
pub fn no_sizes_help()
    ensures { NoSizesHelp }
{}

/// States that a plan without a cause has sizes with which some certificate accepts it, and that a
/// plan with a cause has no such sizes. The causes are listed in [`no_sizes_help`]. The premises
/// are these:
///
/// - Each weight of the plan's steady certificate (see [`steady`](crate::steady)) is at most
///   `MAX_WEIGHT`.
/// - The total of this certificate's vector is below `MAX_SIZE`.
/// - No repeating client submits, directly or through other jobs, a job that is never got and whose
///   pool needs no bound. A pool needs no bound if it may reject jobs or its queue is unbounded.
/// - If a class has a get and the core threads of its pool may time out, clients submit this class,
///   directly or through other jobs.
pub fn sizes_exist()
    ensures { SizesExist }
{}
