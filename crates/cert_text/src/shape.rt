//! The shape of a certificate's JSON value in each version: its keys, and the length of each list.

ghost use Rattle.std.specs.Prelude.{◌≡◌, map, option_map};
ghost use Rattle.support.specs.Reading.{read_each};
ghost use Rattle.support.specs.Results.{Gives};
ghost use Rattle.serde_json.specs.View.{view};
ghost use Rattle.cert_text.specs.Shape as spec;

use crate::cert::needs_no_bound;
use crate::fault::{CertError, wrong_shape};
use crate::values::{check_keys, elements_of, value_at};
use crate::vectors::{numbers_of, vector_of};
use crate::version::Version;
use crate::{Cert, PoolCert};
use job_bodies::Plan;
use serde_json::Value;
use std::alloc::Global;
use weights::{Bound, Ranks};

#[tactic(auto, unfolding(crate::specs::Shape::standing_of))]
fn standing_of(alloc: Global, plan: &Plan, value: &Value) -> Result<Option<Bound>, CertError>
    ensures { Gives (λ bound. bound) result (spec.standing_of plan.now (view value.now)) }
{
    let vector = vector_of(alloc, plan, value)?;
    Ok(Some(Bound::Standing(vector)))
}

#[tactic(auto, unfolding(crate::specs::Shape::lifetime_of))]
fn lifetime_of(alloc: Global, plan: &Plan, value: &Value) -> Result<Option<Bound>, CertError>
    ensures { Gives (λ bound. bound) result (spec.lifetime_of plan.now (view value.now)) }
{
    let vector = vector_of(alloc, plan, value)?;
    Ok(Some(Bound::Lifetime(vector)))
}

/// Handles a missing bound of the pool with this index: returns `None` if the pool needs no bound,
/// and a fault otherwise.
#[tactic(auto, unfolding(crate::specs::Shape::no_bound_of))]
fn no_bound_of(plan: &Plan, pool: usize) -> Result<Option<Bound>, CertError>
    ensures { Gives (λ bound. bound) result (spec.no_bound_of plan.now pool) }
{
    if !needs_no_bound(plan, pool) {
        return Err(wrong_shape());
    }
    Ok(None)
}

/// Reads the bound of the pool with this index. `lifetime` and `standing` are the values at these
/// keys of the pool's object. A missing key is `None`. A standing vector bounds the number of
/// queued jobs. A lifetime vector bounds the number of all jobs that are ever submitted to the
/// pool.
///
/// - If `lifetime` is a value, the bound is a lifetime vector.
/// - Otherwise, if `standing` is a value, the bound is a standing vector.
/// - If both are `None` and the pool needs no bound, the bound is `None`.
/// - If both are `None` and the pool needs a bound, the result is a fault.
fn either_of(
    alloc: Global,
    plan: &Plan,
    pool: usize,
    lifetime: Option<&Value>,
    standing: Option<&Value>,
) -> Result<Option<Bound>, CertError>
    ensures { Gives (λ bound. bound) result
        (spec.either_of plan.now pool (option_map (λ value. view value.now) lifetime.entry)
        (option_map (λ value. view value.now) standing.entry)) }
{
    match (lifetime, standing) {
        (Some(value), _) => lifetime_of(alloc, plan, value),
        (None, Some(value)) => standing_of(alloc, plan, value),
        (None, None) => no_bound_of(plan, pool),
    }
}

/// Reads the bound of the pool with this index from `value`, the pool's object. In version 1, each
/// pool must have a standing vector, which bounds its queued jobs. In version 2, the bound can also
/// be a lifetime vector, which bounds all jobs ever submitted to the pool. Also in version 2, a
/// pool that needs no bound can have none.
fn bound_of(
    alloc: Global,
    version: Version,
    plan: &Plan,
    pool: usize,
    value: &Value,
) -> Result<Option<Bound>, CertError>
    ensures { Gives (λ bound. bound) result
        (spec.bound_of version plan.now pool (view value.now)) }
{
    match version {
        Version::One => standing_of(alloc, plan, value_at(value, "standing")?),
        Version::Two => either_of(
            alloc,
            plan,
            pool,
            value.get("lifetime"),
            value.get("standing"),
        ),
    }
}

/// Returns the number of keys of a pool's object: 2 if the pool has a bound, and 1 if `bound` is
/// `None`.
fn keys_with(bound: &Option<Bound>) -> usize
    ensures { result ≡ spec.keys_with bound.now }
{
    match bound {
        Some(_) => 2,
        None => 1,
    }
}

#[tactic(auto, unfolding(crate::specs::Shape::pool_of))]
fn pool_of(
    alloc: Global,
    version: Version,
    plan: &Plan,
    pool: usize,
    value: &Value,
) -> Result<PoolCert, CertError>
    ensures { Gives (λ part. part) result (spec.pool_of version plan.now pool (view value.now)) }
{
    let bound = bound_of(alloc, version, plan, pool, value)?;
    check_keys(value, keys_with(&bound))?;
    let blocked = value_at(value, "blocked")?;
    let blocked = vector_of(alloc, plan, blocked)?;
    Ok(PoolCert { bound, blocked })
}

fn pools_in(
    alloc: Global,
    version: Version,
    plan: &Plan,
    values: &[Value],
) -> Result<Vec<PoolCert>, CertError>
    ensures { Gives (λ pools. pools.items) result
        (read_each (spec.pool_of version plan.now) 0 (map view values.now)) }
{
    let mut pools = Vec::with_capacity(alloc, values.len())?;
    for (pool, value) in values.iter().enumerate() {
        let part = pool_of(alloc, version, plan, pool, value)?;
        pools.push(part)?;
    }
    Ok(pools)
}

#[tactic(auto, unfolding(crate::specs::Shape::pools_of))]
fn pools_of(
    alloc: Global,
    version: Version,
    plan: &Plan,
    value: &Value,
) -> Result<Vec<PoolCert>, CertError>
    ensures { Gives (λ pools. pools.items) result
        (spec.pools_of version plan.now (view value.now)) }
{
    let values = elements_of(value, plan.pools().len())?;
    pools_in(alloc, version, plan, values)
}

#[tactic(auto, unfolding(crate::specs::Shape::ranks_of))]
fn ranks_of(alloc: Global, plan: &Plan, value: &Value) -> Result<Ranks, CertError>
    ensures { Gives (λ ranks. ranks) result (spec.ranks_of plan.now (view value.now)) }
{
    check_keys(value, 3)?;
    let pools = value_at(value, "pools")?;
    let pools = numbers_of(alloc, pools, plan.pools().len())?;
    let reach = value_at(value, "reach")?;
    let reach = numbers_of(alloc, reach, plan.classes().len())?;
    let levels = value_at(value, "levels")?;
    let levels = numbers_of(alloc, levels, plan.classes().len())?;
    Ok(Ranks {
        pools,
        reach,
        levels,
    })
}

/// Reads a certificate for the plan from a JSON value. Returns a fault in these cases:
///
/// - A key is missing or unknown.
/// - A list does not have the plan's shape.
/// - A number is not an unsigned 64-bit integer.
///
/// Does not check that the numbers are at most [`MAX_WEIGHT`](job_bodies::MAX_WEIGHT).
#[tactic(auto, unfolding(crate::specs::Shape::shape_of))]
pub fn shape_of(
    alloc: Global,
    version: Version,
    plan: &Plan,
    value: &Value,
) -> Result<Cert, CertError>
    ensures { Gives (λ cert. cert) result (spec.shape_of version plan.now (view value.now)) }
{
    check_keys(value, 3)?;
    let pools = value_at(value, "pools")?;
    let pools = pools_of(alloc, version, plan, pools)?;
    let ranks = value_at(value, "ranks")?;
    let ranks = ranks_of(alloc, plan, ranks)?;
    Ok(Cert { pools, ranks })
}
