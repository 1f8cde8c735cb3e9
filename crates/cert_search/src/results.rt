//! The check that a round has one result for each pool without a rank, and no other results.

ghost use Rattle.std.specs.Prelude.{◌≡◌, false, IfErr, IfOk, IsTrue};
ghost use Rattle.cert_search.specs.declared.finding.SearchFault.TheVariants.{Mixed};
ghost use Rattle.cert_search.specs.Results as spec;

use crate::SearchFault;
use crate::round::PoolVectors;

/// Returns the results if each pool without a rank has exactly one result, and there are no other
/// results.
///
/// # Errors
///
/// Returns [`SearchFault::Mixed`] if a pool without a rank has no result or several results, or if
/// there is any other result.
pub(crate) fn check_complete(
    has_rank: &[bool],
    found: Vec<PoolVectors>,
) -> Result<Vec<PoolVectors>, SearchFault>
    ensures kept { IfOk result (λ kept. kept.items ≡ found.items) }
    ensures check_complete { IfOk result (λ kept. IsTrue (spec.are_complete has_rank.now kept.items)) }
    ensures mixed { IfErr result (λ fault. fault ≡ Mixed) }
    ensures incomplete { IfErr result (λ _. spec.are_complete has_rank.now found.items ≡ false) }
{
    if are_complete(has_rank, &found) {
        Ok(found)
    } else {
        Err(SearchFault::Mixed)
    }
}

fn are_complete(has_rank: &[bool], found: &[PoolVectors]) -> bool
    ensures { result ≡ spec.are_complete has_rank.now found.now }
{
    have_right_counts(has_rank, found) && all_exist(has_rank.len(), found)
}

/// Returns whether each pool has the right number of results: none if the pool has a rank, and
/// otherwise one.
fn have_right_counts(has_rank: &[bool], found: &[PoolVectors]) -> bool
    ensures { result ≡ spec.have_right_counts has_rank.now found.now }
{
    has_rank.iter().enumerate().all(|(pool, has_rank)| count_of(found, pool)
        == expected_count(*has_rank))
}

/// Returns the number of results for the pool.
fn count_of(found: &[PoolVectors], pool: usize) -> usize
    ensures { result ≡ spec.count_of found.now pool }
{
    found.iter().filter(|found| found.pool == pool).count()
}

/// Returns the number of results that a pool must have: none if the pool has a rank, and otherwise
/// one.
fn expected_count(has_rank: bool) -> usize
    ensures { result ≡ spec.expected_count has_rank }
{
    if has_rank { 0 } else { 1 }
}

/// Returns whether every result is for a pool of the plan.
fn all_exist(pools: usize, found: &[PoolVectors]) -> bool
    ensures { result ≡ spec.all_exist pools found.now }
{
    found.iter().all(|found| found.pool < pools)
}
