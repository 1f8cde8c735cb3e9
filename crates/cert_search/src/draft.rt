//! A draft: a certificate whose parts become known round by round. A round searches for the blocked
//! vectors of pools, and gives a rank to each pool whose blocked vector it finds. The blocked
//! vector of a pool bounds the number of the pool's jobs that wait for other jobs.

use crate::round::PoolVectors;
use cert_text::{Cert, PoolCert};
use job_bodies::Plan;
use std::alloc::{AllocError, Global};
use weights::{Bound, Levels, Ranks, Vector, reach};

/// The parts of a certificate that are known for one pool.
#[derive(Drop)]
struct PoolDraft {
    /// Whether the pool needs a bound. A pool needs a bound if it must not reject jobs and its
    /// queue is bounded.
    needs_bound: bool,
    rank: Option<u64>,
    bound: Option<Bound>,
    blocked: Option<Vector>,
}

impl PoolDraft {
    /// Returns `true` if the bound is known, and also if the pool needs no bound.
    fn is_bounded(&self) -> bool {
        self.bound.is_some() || !self.needs_bound
    }
}

/// The parts of a certificate that are known for each pool, in plan order.
#[derive(Drop)]
pub(crate) struct Draft {
    pools: Vec<PoolDraft>,
}

impl Draft {
    /// Creates a draft in which no part is known.
    pub(crate) fn of(alloc: Global, plan: &Plan) -> Result<Draft, AllocError> {
        let mut pools = Vec::with_capacity(alloc, plan.pools().len())?;
        for pool in plan.pools() {
            pools.push(PoolDraft {
                needs_bound: !pool.needs_no_bound(),
                rank: None,
                bound: None,
                blocked: None,
            })?;
        }
        Ok(Draft { pools })
    }

    /// Returns the number of pools that have no rank yet.
    pub(crate) fn unranked_count(&self) -> usize {
        self.pools.iter().filter(|pool| pool.rank.is_none()).count()
    }

    /// Returns, for each pool, whether it has a rank.
    pub(crate) fn has_rank(&self, alloc: Global) -> Result<Vec<bool>, AllocError> {
        self.pools
            .iter()
            .map(|pool| pool.rank.is_some())
            .collect(alloc)
    }

    /// Returns the rank of each pool. For a pool that has no rank yet, the result contains `rank`.
    pub(crate) fn ranks_or(&self, alloc: Global, rank: u64) -> Result<Vec<u64>, AllocError> {
        self.pools
            .iter()
            .map(|pool| pool.rank.unwrap_or(rank))
            .collect(alloc)
    }

    /// Records the results of a round, and gives `rank` to each pool whose blocked vector was
    /// found. Returns `false` if no certificate can result, which is so in two cases:
    ///
    /// - No pool got the rank.
    /// - A pool of `found` needs a bound, and no bound is known for it.
    pub(crate) fn note(&mut self, found: Vec<PoolVectors>, rank: u64) -> bool {
        let mut moved = false;
        let mut bounded = true;
        for found in found {
            let PoolVectors {
                pool,
                bound,
                blocked,
            } = found;
            if let Some(draft) = self.pools.get_mut(pool) {
                if bound.is_some() {
                    draft.bound = bound;
                }
                bounded = bounded && draft.is_bounded();
                if blocked.is_some() {
                    draft.blocked = blocked;
                    draft.rank = Some(rank);
                    moved = true;
                }
            }
        }
        moved && bounded
    }

    /// Returns the certificate. Returns `None` if a pool has no blocked vector, or if a pool needs
    /// a bound and has none.
    pub(crate) fn into_cert(
        self,
        alloc: Global,
        plan: &Plan,
        levels: Levels,
    ) -> Result<Option<Cert>, AllocError> {
        let ranks = self.ranks_or(alloc, 0)?;
        let reach = reach(alloc, plan, &levels, &ranks)?;
        let Levels {
            of_classes,
            order: _,
            submitted: _,
        } = levels;
        let mut pools = Vec::with_capacity(alloc, self.pools.len())?;
        for draft in self.pools {
            if !draft.is_bounded() {
                return Ok(None);
            }
            let PoolDraft {
                needs_bound: _,
                rank: _,
                bound,
                blocked,
            } = draft;
            match blocked {
                Some(blocked) => pools.push(PoolCert { bound, blocked })?,
                None => return Ok(None),
            }
        }
        Ok(Some(Cert {
            pools,
            ranks: Ranks {
                pools: ranks,
                reach,
                levels: of_classes,
            },
        }))
    }
}
