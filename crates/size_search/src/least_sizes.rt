//! The least sizes with which a certificate accepts a plan.

ghost use Rattle.std.specs.Prelude.{IfOk};
ghost use Rattle.size_search.specs.Widened.{IsLeastWide};
ghost use Rattle.size_search.specs.Sized.{IsSized};

use crate::found::Obstacle;
use crate::{FitError, fitted, widened};
use cert_text::Cert;
use job_bodies::Plan;
use std::alloc::{AllocError, Global};

/// Returns the plan with each size raised to the least that the certificate needs, or an obstacle
/// if no such sizes are found.
pub(crate) fn least_sizes(
    alloc: Global,
    plan: &Plan,
    cert: &Cert,
) -> Result<Result<Plan, Obstacle>, AllocError>
    ensures { IfOk result (λ answer. IfOk answer (IsSized plan.now cert.now)) }
{
    let wide = match widest(alloc, plan, cert)? {
        Ok(wide) => wide,
        Err(unfit) => return Ok(Err(obstacle_of_wide(unfit))),
    };
    Ok(match fitted(alloc, wide, cert)? {
        Ok(fit) => Ok(fit),
        Err((_plan, unfit)) => Err(obstacle_of_fit(unfit)),
    })
}

/// Returns the plan with its maximums raised until no maximum is below the core that its pool
/// needs. The maximum of a pool whose core threads may time out stays unchanged. One raise can make
/// another necessary, so the raises are repeated. There are at most as many repetitions as pools.
/// If no sizes are enough, or the certificate does not have the shape of the plan, the inner error
/// is the reason.
fn widest(alloc: Global, plan: &Plan, cert: &Cert) -> Result<Result<Plan, FitError>, AllocError>
    ensures { IfOk result (λ answer. IfOk answer (IsLeastWide plan.now cert.now)) }
{
    let mut wide = match widened(alloc, plan, cert)? {
        Ok(wide) => wide,
        Err(unfit) => return Ok(Err(unfit)),
    };
    for _ in 0..plan.pools().len() {
        let wider = match widened(alloc, &wide, cert)? {
            Ok(wider) => wider,
            Err(unfit) => return Ok(Err(unfit)),
        };
        let is_widest = have_same_maxes(&wide, &wider);
        wide = wider;
        if is_widest {
            break;
        }
    }
    Ok(Ok(wide))
}

/// Returns whether the pools of both plans have the same maximums.
fn have_same_maxes(plan: &Plan, other: &Plan) -> bool {
    plan.pools()
        .iter()
        .zip(other.pools())
        .all(|(pool, other)| pool.max == other.max)
}

/// Returns the obstacle that belongs to `unfit`, the reason why the maximums could not be raised.
fn obstacle_of_wide(unfit: FitError) -> Obstacle {
    match unfit {
        FitError::Core(pool) => Obstacle::Pool(pool),
        FitError::Shape | FitError::Condition(_) | FitError::Queue(_) | FitError::CoreTimeout(_) =>
            { Obstacle::Unknown }
    }
}

/// Returns the obstacle that belongs to `unfit`, the reason why the plan with raised maximums could
/// not be fitted. For [`FitError::Core`], this is [`Obstacle::Unknown`], because a core above the
/// pool's maximum is not necessarily above `MAX_SIZE`.
fn obstacle_of_fit(unfit: FitError) -> Obstacle {
    match unfit {
        FitError::Queue(pool) | FitError::CoreTimeout(pool) => Obstacle::Pool(pool),
        FitError::Shape | FitError::Condition(_) | FitError::Core(_) => Obstacle::Unknown,
    }
}
