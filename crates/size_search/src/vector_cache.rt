//! A cache of vectors. Most attempts need vectors that an earlier attempt has computed.

use crate::found::{AttemptError, Obstacle};
use job_bodies::{Action, Plan};
use std::alloc::{AllocError, Global};
use weights::{Kind, Levels, ResizedPlan, Vector, VectorSummary, submitted_class};

/// The maximum number of vectors that one search computes. This limit bounds the time of the
/// search. All known plans need less than a quarter of this number.
const MAX_VECTORS: usize = 32_768;

/// The kind of a vector, as a part of a cache key. For a blocked vector, the kind also says which
/// gets are counted, and whether the workers of other pools can have weight. A counted get can
/// block a thread that other jobs need. The vector that the search finds for a pool depends only on
/// these values and the other fields of [`CacheKey`].
#[derive(PartialEq, Drop)]
enum VectorKey {
    Standing,
    Lifetime,
    Blocked {
        /// For each class, whether jobs of this pool have counted gets that wait for jobs of that
        /// class.
        counted: Vec<bool>,
        /// Whether the workers of other pools can have weight.
        lending: bool,
    },
}

/// A cache key: all values that determine the vector that the search finds for a pool.
#[derive(Drop)]
struct CacheKey {
    vector: VectorKey,
    /// The maximum of each pool.
    maxes: Vec<u64>,
    /// A total that is small enough: the search for the vector stops when it reaches this total or
    /// a smaller one.
    enough: u64,
}

/// A cache key, and the answer of the search for this key. The answer has the total of the vector
/// and the weights of the workers. It is `None` if the search found no vector.
#[derive(Drop)]
struct CacheEntry {
    key: CacheKey,
    answer: Option<VectorSummary>,
}

impl CacheEntry {
    /// Returns whether a new search for the key would give the vector of this entry.
    fn matches_key(&self, key: &CacheKey) -> bool {
        self.key.enough == key.enough
            && self.key.vector == key.vector
            && self.is_valid_for(&key.maxes)
    }

    /// Returns whether a new search with these maximums would give the vector of this entry. For
    /// each pool, one of two conditions must hold:
    ///
    /// - The maximum is the same as in the entry.
    /// - The maximum is larger than in the entry, but the workers of the pool got no weight in the
    ///   search for this entry. The larger maximum then changes nothing: a weight of these workers
    ///   would add even more to the total than before, so they still get none.
    fn is_valid_for(&self, maxes: &[u64]) -> bool {
        for (pool, now) in maxes.iter().enumerate() {
            if !self.is_valid_for_max(pool, *now) {
                return false;
            }
        }
        true
    }

    /// Returns whether the pool with this number, whose maximum is `now`, meets one of the conditions
    /// of [`is_valid_for`](Self::is_valid_for).
    fn is_valid_for_max(&self, pool: usize, now: u64) -> bool {
        match self.key.maxes.get(pool) {
            Some(before) => *before == now || (*before < now && !self.is_lender(pool)),
            None => true,
        }
    }

    /// Returns whether the workers of the pool got weight in the search for the cached vector.
    /// Returns `false` if the search found no vector, so that larger maximums do not cause a new
    /// search.
    fn is_lender(&self, pool: usize) -> bool {
        match &self.answer {
            Some(summary) => summary.lenders.contains(&pool),
            None => false,
        }
    }
}

/// The cached vectors of a pool.
#[derive(Drop)]
struct PoolCache {
    /// For each class, whether a job of the pool gets jobs of that class.
    gets: Vec<bool>,
    entries: Vec<CacheEntry>,
}

/// The result of a look-up in the cache: the total of a pool's lightest vector, and the place of
/// the vector in the cache. The lightest vector is the one with the smallest total that the search
/// finds.
#[derive(Clone, Copy)]
pub(crate) struct CacheHit {
    pub(crate) pool: usize,
    /// The vector's total, or `u64::MAX` if the pool has no vector.
    pub(crate) total: u64,
    /// The index of the vector's entry in the pool's cache, or `None` if the pool has no vector.
    index: Option<usize>,
}

impl CacheHit {
    /// Creates a cache hit without a vector, for the pool with this number. Its total is
    /// `u64::MAX`, and its index is `None`.
    fn empty(pool: usize) -> CacheHit {
        CacheHit {
            pool,
            total: u64::MAX,
            index: None,
        }
    }
}

/// A cache of the vectors of a plan. The vectors were computed for the plan with various maximums.
#[derive(Drop)]
pub(crate) struct VectorCache<'a> {
    pub(crate) plan: &'a Plan,
    pub(crate) levels: &'a Levels,
    pools: Vec<PoolCache>,
    /// The number of vectors that can still be computed.
    vectors_left: usize,
}

impl<'a> VectorCache<'a> {
    /// Creates an empty cache.
    pub(crate) fn of(
        alloc: Global,
        plan: &'a Plan,
        levels: &'a Levels,
    ) -> Result<VectorCache<'a>, AllocError> {
        let mut pools = Vec::with_capacity(alloc, plan.pools().len())?;
        for number in 0..plan.pools().len() {
            pools.push(PoolCache {
                gets: gets_of(alloc, plan, number)?,
                entries: Vec::new(alloc),
            })?;
        }
        Ok(VectorCache {
            plan,
            levels,
            pools,
            vectors_left: MAX_VECTORS,
        })
    }

    /// Returns the cache hit of the pool's lightest vector of this kind. `maxes` has the maximum of
    /// each pool. Computes the vector if the cache does not have it. The computation stops when the
    /// total is at most `enough`. The hit has no vector if the search finds none, or if there is no
    /// such pool.
    ///
    /// # Errors
    ///
    /// Returns [`Obstacle::Unknown`] if a vector must be computed, but [`MAX_VECTORS`] vectors have
    /// already been computed.
    pub(crate) fn lightest(
        &mut self,
        alloc: Global,
        pool: usize,
        kind: Kind,
        maxes: &[u64],
        enough: u64,
    ) -> Result<CacheHit, AttemptError> {
        let Some(memory) = self.pools.get(pool) else {
            return Ok(CacheHit::empty(pool));
        };
        let key = memory.key(alloc, kind, maxes, enough)?;
        match memory.index_of(&key) {
            Some(index) => Ok(memory.hit(pool, index)),
            None => self.compute(alloc, pool, kind, key),
        }
    }

    /// Computes the lightest vector of the pool for this key, and adds it to the cache. `kind` is
    /// the kind of the vector. Returns the cache hit of the vector.
    fn compute(
        &mut self,
        alloc: Global,
        pool: usize,
        kind: Kind,
        key: CacheKey,
    ) -> Result<CacheHit, AttemptError> {
        if self.vectors_left == 0 {
            return Err(AttemptError::Obstacle(Obstacle::Unknown));
        }
        self.vectors_left -= 1;
        let answer = self
            .resized_plan(&key.maxes)
            .lightest(alloc, pool, kind, key.enough)?;
        match self.pools.get_mut(pool) {
            Some(memory) => Ok(memory.push(pool, key, answer)?),
            None => Ok(CacheHit::empty(pool)),
        }
    }

    /// Returns the plan with these maximums.
    fn resized_plan<'b>(&self, maxes: &'b [u64]) -> ResizedPlan<'b>
    where
        'a: 'b,
    {
        ResizedPlan {
            plan: self.plan,
            levels: self.levels,
            maxes,
        }
    }

    /// Returns the vector of the hit, computed anew with these maximums. `kind` is its kind.
    /// Returns `None` if the hit has no vector, or if the search finds none with these maximums.
    pub(crate) fn vector_at(
        &self,
        alloc: Global,
        hit: CacheHit,
        kind: Kind,
        maxes: &[u64],
    ) -> Result<Option<Vector>, AllocError> {
        match self.workers_at(hit) {
            Some(workers) => self
                .resized_plan(maxes)
                .vector(alloc, hit.pool, kind, workers),
            None => Ok(None),
        }
    }

    /// Returns, for each pool, the weight of a worker in the vector of the hit. Returns `None` if
    /// the hit has no vector.
    fn workers_at(&self, hit: CacheHit) -> Option<&[u64]> {
        let entry = self.pools.get(hit.pool)?.entries.get(hit.index?)?;
        match &entry.answer {
            Some(summary) => Some(&summary.workers),
            None => None,
        }
    }
}

impl PoolCache {
    fn key(
        &self,
        alloc: Global,
        kind: Kind,
        maxes: &[u64],
        enough: u64,
    ) -> Result<CacheKey, AllocError> {
        let vector = match kind {
            Kind::Standing => VectorKey::Standing,
            Kind::Lifetime => VectorKey::Lifetime,
            Kind::Blocked {
                reach,
                rank,
                lending,
            } => VectorKey::Blocked {
                counted: self.counted(alloc, reach, rank)?,
                lending,
            },
        };
        Ok(CacheKey {
            vector,
            maxes: Vec::from_slice(alloc, maxes)?,
            enough,
        })
    }

    /// Returns, for each class, whether jobs of this pool have counted gets that wait for jobs of
    /// that class. A get that waits for a job of a class is counted if the reach of the class is at
    /// least `rank`, the rank of this pool. `reach` has the reach of each class.
    fn counted(&self, alloc: Global, reach: &[u64], rank: u64) -> Result<Vec<bool>, AllocError> {
        self.gets
            .iter()
            .zip(reach)
            .map(|(gets, reach)| *gets && *reach >= rank)
            .collect(alloc)
    }

    /// Returns the index of the entry whose vector is the result for this key, or `None` if there
    /// is no such entry.
    fn index_of(&self, key: &CacheKey) -> Option<usize> {
        self.entries.iter().position(|entry| entry.matches_key(key))
    }

    /// Appends an entry, and returns its cache hit.
    fn push(
        &mut self,
        pool: usize,
        key: CacheKey,
        answer: Option<VectorSummary>,
    ) -> Result<CacheHit, AllocError> {
        let index = self.entries.len();
        self.entries.push(CacheEntry { key, answer })?;
        Ok(self.hit(pool, index))
    }

    /// Returns the cache hit for the entry at this index. The hit has no vector if there is no such
    /// entry, or if the search for the entry found no vector.
    fn hit(&self, pool: usize, index: usize) -> CacheHit {
        let mut hit = CacheHit::empty(pool);
        if let Some(entry) = self.entries.get(index) {
            if let Some(summary) = &entry.answer {
                hit.total = summary.total;
                hit.index = Some(index);
            }
        }
        hit
    }
}

/// Returns, for each class, whether a job of the pool gets jobs of that class.
fn gets_of(alloc: Global, plan: &Plan, pool: usize) -> Result<Vec<bool>, AllocError> {
    let mut gets = vec![in alloc; false; plan.classes().len()]?;
    for class in plan.classes() {
        if class.pool == pool {
            for action in &class.body {
                if let Action::Get(submit) = action {
                    if let Some(gets) = gets.get_mut(submitted_class(&class.body, *submit)) {
                        *gets = true;
                    }
                }
            }
        }
    }
    Ok(gets)
}
