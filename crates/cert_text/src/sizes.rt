//! The limit of the numbers of a certificate.

ghost use Rattle.std.specs.Prelude.{◌≡◌};
ghost use Rattle.std.specs.List.{list_all};
ghost use Rattle.cert_text.specs.Sizes as spec;

use crate::{Cert, PoolCert};
use weights::{Bound, Ranks, are_small};

fn bound_is_small(bound: &Option<Bound>) -> bool
    ensures { result ≡ spec.bound_has_small_numbers bound.now }
{
    match bound {
        Some(bound) => bound.vector().has_small_numbers(),
        None => true,
    }
}

fn pool_is_small(pool: &PoolCert) -> bool
    ensures { result ≡ spec.pool_has_small_numbers pool.now }
{
    bound_is_small(&pool.bound) && pool.blocked.has_small_numbers()
}

fn pools_are_small(pools: &[PoolCert]) -> bool
    ensures { result ≡ list_all spec.pool_has_small_numbers pools.now }
{
    pools.iter().all(|pool| pool_is_small(pool))
}

fn ranks_are_small(ranks: &Ranks) -> bool
    ensures { result ≡ spec.ranks_have_small_numbers ranks.now }
{
    are_small(&ranks.pools) && are_small(&ranks.reach) && are_small(&ranks.levels)
}

/// Returns whether each number of the certificate is at most
/// [`MAX_WEIGHT`](job_bodies::MAX_WEIGHT).
#[tactic(auto, unfolding(crate::specs::Sizes::cert_has_small_numbers))]
pub fn has_small_numbers(cert: &Cert) -> bool
    ensures { result ≡ spec.cert_has_small_numbers cert.now }
{
    pools_are_small(&cert.pools) && ranks_are_small(&cert.ranks)
}
