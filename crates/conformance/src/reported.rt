//! The pool differences that were already reported.

ghost use Rattle.std.specs.Prelude.{◌≡◌, ◌&&◌, ◌||◌, ◌==◌, ℕ, OnOk, false};
ghost use Rattle.conformance.specs.declared.difference.Difference as SettledPaths;
ghost use Rattle.conformance.specs.Difference.{is_same_difference};
ghost use Rattle.conformance.specs.PoolDeviations.{is_among};
ghost use Rattle.conformance.specs.PoolComparison.{is_reported};

use crate::Difference;
use std::alloc::{AllocError, Global};
use std::collections::HashSet;

/// A difference between a recorded pool and the plan, with the number of the pool in the plan.
#[derive(Clone, Copy, PartialEq, Eq, Hash)]
pub(crate) struct PoolDifference {
    pool: usize,
    difference: Difference,
}

/// A set of the pool differences that were already reported.
#[derive(Drop)]
pub(crate) struct ReportedDifferences {
    items: HashSet<PoolDifference>,
}

impl ReportedDifferences {
    /// Creates an empty set.
    pub(crate) fn new(alloc: Global) -> ReportedDifferences
        ensures { (pool : ℕ) (difference : SettledPaths.Difference)
            → is_reported result pool difference ≡ false }
    {
        ReportedDifferences {
            items: HashSet::new(alloc),
        }
    }

    pub(crate) fn contains(&self, pool: usize, difference: Difference) -> bool
        ensures { result ≡ is_reported self.now pool difference }
    {
        self.items.contains(&PoolDifference { pool, difference })
    }

    /// Adds these differences of the pool.
    ///
    /// # Errors
    ///
    /// Returns `AllocError` if memory runs out.
    pub(crate) fn add_all(
        &mut self,
        pool: usize,
        differences: &[Difference],
    ) -> Result<(), AllocError>
        ensures { OnOk result
            ((one : ℕ) (difference : SettledPaths.Difference)
            → is_reported self.new one difference
            ≡ (is_reported self.old one difference ||
            (pool == one && is_among differences.now difference))) }
    {
        for difference in differences {
            self.insert(pool, *difference)?;
        }
        Ok(())
    }

    fn insert(&mut self, pool: usize, difference: Difference) -> Result<(), AllocError>
        ensures { OnOk result
            ((one : ℕ) (other : SettledPaths.Difference)
            → is_reported self.new one other
            ≡ (is_reported self.old one other ||
            (pool == one && is_same_difference difference other))) }
    {
        self.items.insert(PoolDifference { pool, difference })?;
        Ok(())
    }
}
