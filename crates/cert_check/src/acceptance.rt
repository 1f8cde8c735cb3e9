//! Functions that decide whether a certificate accepts a plan. A certificate has
//! [`Ranks`](crate::Ranks) and, for each pool, a blocked vector, which bounds the number of the
//! pool's jobs that wait for other jobs. The certificate can also have a [`Bound`] for a pool: a
//! vector which shows that this pool never refuses a job. A pool needs a bound if it must not
//! reject jobs and its queue is bounded.

ghost use Rattle.std.specs.Prelude.{◌≡◌, ◌<◌, ◌&&◌, not, IsTrue, length};
ghost use Rattle.std.specs.List.{list_all, enumerate_from};
ghost use Rattle.job_bodies.specs.Plan.{pool_at};
ghost use Rattle.weights.specs.Row.{fails};
ghost use Rattle.weights.specs.Standing.{standing_rows};
ghost use Rattle.weights.specs.Vector.{vector_fits};
ghost use Rattle.cert_text.specs.Cert.{bound_fits, cert_fits, pool_cert_at};
ghost use Rattle.soundness.specs.Conditions.{failing};
ghost use Rattle.soundness.specs.Accepted.{is_nil, accepted};
ghost use Rattle.soundness.specs.Headline.{Promises, RefusesNothing, JavaRefusesNothing};
ghost use Rattle.cert_check.specs.PoolConditions.{bound_holds, pool_holds};
ghost use Rattle.cert_check.specs.Standing as spec;

use cert_text::Cert;
use job_bodies::Plan;
use weights::{Bound, RanksOf, Vector, blocked_fault};

/// Returns whether the certificate accepts the plan. A certificate accepts a plan if it fits the
/// plan and all of its conditions hold. Allocates no memory.
pub fn accepts(plan: &Plan, cert: &Cert) -> bool
    ensures exact { result ≡ accepted plan.now cert.now }
    ensures promises { IsTrue result → Promises plan.now cert.now }
{
    cert.fits(plan) && conditions_hold(plan, cert)
}

/// Returns whether all conditions of the certificate hold. The certificate must fit the plan.
pub(crate) fn conditions_hold(plan: &Plan, cert: &Cert) -> bool
    requires { IsTrue (cert_fits plan.now cert.now) }
    ensures exact { result ≡ is_nil (failing plan.now cert.now) }
    ensures promises { IsTrue result → Promises plan.now cert.now }
{
    if cert.ranks.fault(plan).is_some() {
        return false;
    }
    for pool in 0..plan.pools().len() {
        if !pool_holds(plan, cert, pool) {
            return false;
        }
    }
    true
}

/// Returns whether all conditions for the pool hold: those of the pool's blocked vector and those
/// of its bound. A pool without a bound has only the conditions of the blocked vector. The
/// certificate must fit the plan.
pub(crate) fn pool_holds(plan: &Plan, cert: &Cert, pool: usize) -> bool
    requires fits { IsTrue (cert_fits plan.now cert.now) }
    requires pool { pool < length plan.now.pools }
    ensures { result ≡ pool_holds plan.now cert.now pool }
{
    let of_pool = cert.pool_at(pool);
    let counted = RanksOf::new(plan, &cert.ranks);
    bound_holds(plan, pool, &of_pool.bound)
        && blocked_fault(plan, pool, &counted, &of_pool.blocked).is_none()
}

/// Returns whether all conditions of the pool's bound hold. Returns `true` if there is no bound.
fn bound_holds(plan: &Plan, pool: usize, bound: &Option<Bound>) -> bool
    requires fits { IsTrue (bound_fits plan.now pool bound.now) }
    requires pool { pool < length plan.now.pools }
    ensures { result ≡ bound_holds plan.now pool bound.now }
{
    match bound {
        Some(bound) => bound.fault(plan, pool).is_none(),
        None => true,
    }
}

/// Returns whether the certificate's standing vectors alone show that no submit is ever refused. A
/// standing vector bounds the number of a pool's queued jobs. The result is `true` exactly when all
/// of these conditions hold:
///
/// - The certificate fits the plan.
/// - No pool of the plan may reject jobs. A rejected job could increase the weight of a state, so
///   the standing vectors alone would not be enough.
/// - The certificate has a standing vector for each pool, and all conditions of these vectors hold.
///
/// The conditions of the blocked vectors and of the ranks are not checked.
///
/// If the result is `true`, no submit is ever refused. This is also true if other events occur
/// between the steps of a submit, as in Java's `execute`. Allocates no memory.
pub fn accepts_standing(plan: &Plan, cert: &Cert) -> bool
    ensures exact { result ≡ spec.accepted_standing plan.now cert.now }
    ensures refuses_nothing { IsTrue result → RefusesNothing plan.now }
    ensures java_refuses_nothing { IsTrue result → JavaRefusesNothing plan.now }
{
    cert.fits(plan) && has_valid_standing_vectors(plan, cert)
}

fn has_valid_standing_vectors(plan: &Plan, cert: &Cert) -> bool
    requires { IsTrue (cert_fits plan.now cert.now) }
    ensures exact { result
        ≡ list_all (λ entry. spec.is_valid_standing_vector plan.now entry.0 (pool_cert_at cert.now entry.0).bound)
        (enumerate_from 0 plan.now.pools) }
    ensures refuses_nothing { IsTrue result → RefusesNothing plan.now }
    ensures java_refuses_nothing { IsTrue result → JavaRefusesNothing plan.now }
{
    for pool in 0..plan.pools().len() {
        if !is_valid_standing_vector(plan, pool, &cert.pool_at(pool).bound) {
            return false;
        }
    }
    true
}

/// Returns `true` if the pool must not reject jobs, its bound is a standing vector, and all
/// conditions of this vector hold.
fn is_valid_standing_vector(plan: &Plan, pool: usize, bound: &Option<Bound>) -> bool
    requires fits { IsTrue (bound_fits plan.now pool bound.now) }
    requires pool { pool < length plan.now.pools }
    ensures { result ≡ spec.is_valid_standing_vector plan.now pool bound.now }
{
    match bound {
        Some(Bound::Standing(vector)) => !may_reject(plan, pool)
            && all_rows_hold(plan, pool, vector),
        Some(Bound::Lifetime(_)) | None => false,
    }
}

/// Returns whether all conditions of the pool's standing vector hold.
fn all_rows_hold(plan: &Plan, pool: usize, vector: &Vector) -> bool
    requires fits { IsTrue (vector_fits plan.now vector.now) }
    requires pool { pool < length plan.now.pools }
    ensures { result ≡ list_all (λ row. not (fails row)) (standing_rows plan.now pool vector.now) }
{
    vector.standing_fault(plan, pool).is_none()
}

fn may_reject(plan: &Plan, pool: usize) -> bool
    requires { pool < length plan.now.pools }
    ensures { result ≡ (pool_at plan.now pool).may_reject }
{
    let pool = &plan.pools()[pool];
    pool.may_reject
}
