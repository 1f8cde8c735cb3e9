//! The results of a search for sizes.

ghost use Rattle.std.specs.Prelude.{◌≡◌, ◌<◌, length};

use crate::Cause;
use cert_text::Cert;
use job_bodies::Plan;
use std::alloc::AllocError;

/// The result of a search for sizes: the plan with the sizes that were found and a certificate that
/// accepts this plan, or the reason why no sizes were found.
#[derive(Drop)]
pub enum SizesFound {
    /// The plan with the sizes that were found, and a certificate that accepts it.
    Found { plan: Plan, cert: Cert },
    /// No sizes were found, for this reason.
    NotFound(NoSizes),
}

/// The reason why no sizes were found.
#[derive(Clone, Copy)]
pub enum NoSizes {
    /// A cause: a reason why no certificate accepts the plan with any sizes. The plan can still be
    /// safe.
    Cause(Cause),
    /// No attempt found sizes. The plan's steady certificate cannot be used either, for one of
    /// these reasons:
    ///
    /// - The certificate needs sizes above 1,000,000.
    /// - The certificate has a weight above [`MAX_WEIGHT`](job_bodies::MAX_WEIGHT).
    /// - A repeating client submits a job, directly or through other jobs. The job is never got,
    ///   and its pool may reject jobs or has an unbounded queue.
    /// - A class has a get, but no client submits this class, directly or through other jobs. The
    ///   core threads of the class's pool may time out.
    ///
    /// In the last two cases, there may be no sizes with which the steady certificate accepts the
    /// plan. In all cases, sizes for another certificate can exist. The field is the number of the
    /// pool at which the first attempt failed, or 0 if that attempt failed at no particular pool.
    TooLarge(usize),
}

/// The point at which an attempt to find sizes failed.
#[derive(Clone, Copy)]
pub(crate) enum Obstacle {
    /// The pool with this number, for which no vector or no size was found.
    Pool(usize),
    /// The attempt failed at no particular pool.
    Unknown,
}

impl Obstacle {
    /// Returns the number of the pool to report: the pool of the obstacle, or 0 if the obstacle
    /// names no pool of the plan. The search is not trusted, so an obstacle can name a pool that
    /// does not exist.
    pub(crate) fn pool(self, plan: &Plan) -> usize
        requires { 0 < length plan.now.pools }
        ensures { result < length plan.now.pools }
    {
        match self {
            Obstacle::Pool(pool) if pool < plan.pools().len() => pool,
            _ => 0,
        }
    }
}

/// The reason why an attempt ended without a result.
#[derive(Drop)]
pub(crate) enum AttemptError {
    /// Memory ran out.
    Memory(AllocError),
    /// The attempt failed at this point.
    Obstacle(Obstacle),
}

impl From<AllocError> for AttemptError {
    ghost use Rattle.size_search.specs.declared.found.AttemptError.TheVariants.{Memory};

    ghost from_gives = { λ error halt. halt ≡ Memory error };

    fn from(error: AllocError) -> AttemptError {
        AttemptError::Memory(error)
    }
}
