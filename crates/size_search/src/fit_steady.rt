//! The least sizes for the steady certificate, which are used if the rounds find no sizes. In the
//! steady certificate, one vector is the blocked vector of every pool whose core threads never time
//! out. The same vector is the bound of every pool that needs one. A pool needs none if it may
//! reject jobs or has an unbounded queue. The other blocked vectors are 0.

ghost use Rattle.std.specs.Prelude.{◌≡◌, ◌≤◌, IfOk, IfSome, IfNone, IsTrue};
ghost use Rattle.job_bodies.specs.WellFormed.{IsWellFormed};
ghost use Rattle.job_bodies.specs.declared.limits.TheConstants.{MAX_SIZE};
ghost use Rattle.weights.specs.Vector.{has_small_numbers};
ghost use Rattle.size_search.specs.Widened.{IsLeastWide};
ghost use Rattle.size_search.specs.Widened as spec;
ghost use Rattle.size_search.specs.Waiting.{IsSteady};
ghost use Rattle.size_search.specs.Causes.{IsWithoutCause};
ghost use Rattle.size_search.specs.Steady.{steady_vector, steady_total, steady_cert};
ghost use Rattle.size_search.specs.Sized.{IsSized, IsFound, IsTooLarge};

use crate::causes::is_unsteady;
use crate::found::{NoSizes, Obstacle, SizesFound};
use crate::{fitted, steady, widened};
use cert_text::Cert;
use job_bodies::Plan;
use std::alloc::{AllocError, Global};

/// Returns the plan with the least sizes that its steady certificate needs (see [`steady`]). If
/// this certificate is too large, or if there may be no sizes with which it accepts the plan,
/// returns [`NoSizes::TooLarge`] with the pool of `obstacle`. `obstacle` is the point at which the
/// search for sizes failed before.
pub(crate) fn fit_steady(
    alloc: Global,
    plan: &Plan,
    obstacle: Obstacle,
) -> Result<SizesFound, AllocError>
    requires free { IsWithoutCause plan.now }
    requires well_formed { IsWellFormed plan.now }
    ensures found { IfOk result (IsFound plan.now) }
{
    let unsteady = is_unsteady(alloc, plan)?;
    if unsteady {
        return Ok(too_large(plan, obstacle));
    }
    fit_steady_plan(alloc, plan, obstacle)
}

/// Returns the plan with the least sizes that its steady certificate needs. If these sizes or the
/// weights of the certificate are too large, returns [`NoSizes::TooLarge`] with the pool of
/// `obstacle`.
fn fit_steady_plan(alloc: Global, plan: &Plan, obstacle: Obstacle) -> Result<SizesFound, AllocError>
    requires steady_plan { IsSteady plan.now }
    requires well_formed { IsWellFormed plan.now }
    ensures found { IfOk result (IsFound plan.now) }
{
    match steady(alloc, plan)? {
        Some(cert) => fit_steady_cert(alloc, plan, cert, obstacle),
        None => Ok(too_large(plan, obstacle)),
    }
}

/// Returns the plan with the least sizes for its steady certificate, which is `cert`. Returns
/// [`NoSizes::TooLarge`] with the pool of `obstacle` if these sizes are too large.
fn fit_steady_cert(
    alloc: Global,
    plan: &Plan,
    cert: Cert,
    obstacle: Obstacle,
) -> Result<SizesFound, AllocError>
    requires steady_plan { IsSteady plan.now }
    requires well_formed { IsWellFormed plan.now }
    requires steady { cert ≡ steady_cert plan.now }
    requires small { IsTrue (has_small_numbers (steady_vector plan.now)) }
    ensures found { IfOk result (IsFound plan.now) }
{
    match least_steady_sizes(alloc, plan, &cert)? {
        Some(plan) => Ok(SizesFound::Found { plan, cert }),
        None => Ok(too_large(plan, obstacle)),
    }
}

fn too_large(plan: &Plan, obstacle: Obstacle) -> SizesFound
    requires large { IsTooLarge plan.now }
    requires well_formed { IsWellFormed plan.now }
    ensures { IsFound plan.now result }
{
    SizesFound::NotFound(NoSizes::TooLarge(obstacle.pool(plan)))
}

/// Returns the plan with the least sizes that its steady certificate, `cert`, needs. Returns `None`
/// only if the total of the certificate's vector is at least `MAX_SIZE`.
fn least_steady_sizes(alloc: Global, plan: &Plan, cert: &Cert) -> Result<Option<Plan>, AllocError>
    requires steady_plan { IsSteady plan.now }
    requires well_formed { IsWellFormed plan.now }
    requires steady { cert.now ≡ steady_cert plan.now }
    requires small { IsTrue (has_small_numbers (steady_vector plan.now)) }
    ensures sized { IfOk result (λ found. IfSome found (IsSized plan.now cert.now)) }
    ensures none { IfOk result (λ found. IfNone found (MAX_SIZE ≤ steady_total plan.now)) }
{
    // Workers have weight 0 in the steady certificate. Raising the maximums therefore does not
    // change its total, and raising them once is enough.
    match widened(alloc, plan, cert)? {
        Ok(wide) => least_wide(alloc, plan, wide, cert),
        Err(_unfit) => Ok(None),
    }
}

/// Returns the plan with the least sizes for its steady certificate, or `None` if these sizes are
/// too large. `wide` is the plan with each maximum raised to what the certificate needs.
fn least_wide(
    alloc: Global,
    plan: &Plan,
    wide: Plan,
    cert: &Cert,
) -> Result<Option<Plan>, AllocError>
    requires steady_plan { IsSteady plan.now }
    requires well_formed { IsWellFormed plan.now }
    requires steady { cert.now ≡ steady_cert plan.now }
    requires small { IsTrue (has_small_numbers (steady_vector plan.now)) }
    requires wide { wide ≡ spec.widened plan.now cert.now }
    requires least { IsLeastWide plan.now cert.now wide }
    ensures sized { IfOk result (λ found. IfSome found (IsSized plan.now cert.now)) }
    ensures none { IfOk result (λ found. IfNone found (MAX_SIZE ≤ steady_total plan.now)) }
{
    match fitted(alloc, wide, cert)? {
        Ok(fit) => Ok(Some(fit)),
        Err(_back) => Ok(None),
    }
}
