//! Comparison of the pools of a recording with a plan, line by line.

ghost use Rattle.std.specs.Prelude.{◌≡◌, List, [], ◌∷◌, ◌++◌, map, length, ◌<◌, if◌then◌else◌, OnOk, IfSome};
ghost use Rattle.std.specs.Option.{option_to_list};
ghost use Rattle.job_bodies.specs.Plan as plans;
ghost use Rattle.recordings.specs.RecordingLine.{RecordedLine, line_view};
ghost use Rattle.recordings.specs.RecordingLine as lines;
ghost use Rattle.conformance.specs.PoolDeviations as spec;
ghost use Rattle.conformance.specs.PoolComparison.{has_name, is_reported, IsPoolComparisonOf, AppliesLine, Adds};

use crate::pool_names::PoolNames;
use crate::reported::ReportedDifferences;
use crate::{Difference, differences};
use job_bodies::{Plan, Pool};
use recordings::{Line, PoolSizes};
use std::alloc::{AllocError, Global};

/// A difference between the pools of a recording and those of a plan. Lines are numbered from 1.
#[derive(Drop)]
pub enum PoolDeviation {
    /// A pool that is not in the plan. `line` is the number of the pool's first line in the
    /// recording.
    UnplannedLabel {
        line: usize,
        pool: String,
    },
    /// A difference between a line of a pool and the plan. `pool` is the number of the pool in the
    /// plan.
    Differs {
        line: usize,
        pool: usize,
        difference: Difference,
    },
    /// A pool of the plan that has no line, although the recording ends with `end`. `pool` is the
    /// number of the pool in the plan.
    NotRecorded {
        pool: usize,
    },
}

/// A comparison of the pools of a recording with the pools of a plan, line by line.
///
/// It stores the name of each recorded pool, and the differences that were reported for each pool
/// of the plan.
#[derive(Drop)]
pub struct PoolComparison {
    named: PoolNames,
    reported: ReportedDifferences,
    closed: bool,
    alloc: Global,
}

impl PoolComparison {
    /// Creates a comparison that has read no line yet.
    pub fn new(alloc: Global) -> PoolComparison
        ensures { (plan : plans.Plan) → IsPoolComparisonOf plan result [] }
    {
        PoolComparison {
            named: PoolNames::new(alloc),
            reported: ReportedDifferences::new(alloc),
            closed: false,
            alloc,
        }
    }

    /// Reads line `number`. If it is a line of a pool, appends these deviations to `found`:
    ///
    /// - the pool, if the plan lacks it and this is the first line of the pool;
    /// - each [`Difference`] between the line and the plan, unless an earlier line of the pool has
    ///   the same difference. The number of prestarted threads is compared only in the first line
    ///   of a pool.
    ///
    /// # Errors
    ///
    /// Returns `AllocError` if memory runs out. The comparison must not be used after an error.
    pub fn take(
        &mut self,
        plan: &Plan,
        number: usize,
        line: &Line<'_>,
        found: &mut Vec<PoolDeviation>,
    ) -> Result<(), AllocError>
        ensures taken { (before : List RecordedLine)
            → IsPoolComparisonOf plan.now self.old before
            → OnOk result (IsPoolComparisonOf plan.now self.new (before ++ line_view line.now ∷ [])) }
        ensures found { (before : List RecordedLine)
            → IsPoolComparisonOf plan.now self.old before
            → OnOk result
            (Adds found.old.items
            (spec.deviations_by_line plan.now before number (line_view line.now)) found.new.items) }
    {
        self.note(plan, number, line, found)
    }

    /// If the last line was `end`, appends each pool of the plan that has no line, in the order of
    /// the plan.
    ///
    /// # Errors
    ///
    /// Returns `AllocError` if memory runs out.
    pub fn finish(&self, plan: &Plan, found: &mut Vec<PoolDeviation>) -> Result<(), AllocError>
        ensures { (lines : List RecordedLine)
            → IsPoolComparisonOf plan.now self.now lines
            → OnOk result
            (Adds found.old.items (spec.deviations_at_end plan.now lines) found.new.items) }
    {
        if self.closed {
            self.push_unrecorded(plan, found)?;
        }
        Ok(())
    }

    fn note(
        &mut self,
        plan: &Plan,
        number: usize,
        line: &Line<'_>,
        found: &mut Vec<PoolDeviation>,
    ) -> Result<(), AllocError>
        ensures noted { OnOk result (AppliesLine plan.now self.old (line_view line.now) self.new) }
        ensures found { OnOk result
            (Adds found.old.items
            (spec.reported_by_line plan.now (has_name self.old.named) (is_reported self.old.reported) number (line_view line.now))
            found.new.items) }
    {
        match *line {
            Line::Pool { name, sizes } => self.note_pool(plan, number, name, &sizes, found),
            Line::End => {
                self.closed = true;
                Ok(())
            }
            _ => Ok(()),
        }
    }

    fn note_pool(
        &mut self,
        plan: &Plan,
        number: usize,
        name: &str,
        sizes: &PoolSizes,
        found: &mut Vec<PoolDeviation>,
    ) -> Result<(), AllocError>
        ensures noted { OnOk result
            (AppliesLine plan.now self.old (lines.Pool name.now sizes.now) self.new) }
        ensures found { OnOk result
            (Adds found.old.items
            (spec.reported_by_line plan.now (has_name self.old.named) (is_reported self.old.reported) number (lines.Pool name.now sizes.now))
            found.new.items) }
    {
        let is_first = !self.named.contains(name);
        self.named.insert(name)?;
        match pool_named(plan, name) {
            Some(pool) => {
                let differences = differences(self.alloc, sizes, &plan.pools()[pool], is_first)?;
                self.push_unreported(number, pool, &differences, found)?;
                self.reported.add_all(pool, &differences)
            }
            None => push_unplanned(self.alloc, is_first, number, name, found),
        }
    }

    // Appends the differences that were not reported before for this pool of the plan.
    fn push_unreported(
        &self,
        line: usize,
        pool: usize,
        differences: &[Difference],
        found: &mut Vec<PoolDeviation>,
    ) -> Result<(), AllocError>
        ensures { OnOk result
            (Adds found.old.items
            (map (spec.Differs line pool) (spec.unreported (is_reported self.now.reported pool) differences.now))
            found.new.items) }
    {
        for difference in differences {
            if !self.reported.contains(pool, *difference) {
                found.push(PoolDeviation::Differs {
                    line,
                    pool,
                    difference: *difference,
                })?;
            }
        }
        Ok(())
    }

    fn push_unrecorded(&self, plan: &Plan, found: &mut Vec<PoolDeviation>) -> Result<(), AllocError>
        ensures { OnOk result
            (Adds found.old.items (spec.unrecorded_by (has_name self.now.named) plan.now)
            found.new.items) }
    {
        for (number, pool) in plan.pools().iter().enumerate() {
            self.push_unless_named(number, pool, found)?;
        }
        Ok(())
    }

    fn push_unless_named(
        &self,
        number: usize,
        pool: &Pool,
        found: &mut Vec<PoolDeviation>,
    ) -> Result<(), AllocError>
        ensures { OnOk result
            (Adds found.old.items
            (option_to_list (spec.unrecorded_at (has_name self.now.named) (number, pool.now)))
            found.new.items) }
    {
        if !self.named.contains(&pool.name) {
            found.push(PoolDeviation::NotRecorded { pool: number })?;
        }
        Ok(())
    }
}

/// Returns the number of the plan's pool with this name, or `None` if there is no such pool.
pub(crate) fn pool_named(plan: &Plan, name: &str) -> Option<usize>
    ensures is { result ≡ spec.pool_named plan.now name.now }
    ensures within { IfSome result (λ pool. pool < length plan.now.pools) }
{
    plan.pools()
        .iter()
        .position(|pool| pool.name.as_str() == name)
}

// Appends a pool that is not in the plan, if this is its first line.
fn push_unplanned(
    alloc: Global,
    is_first: bool,
    number: usize,
    name: &str,
    found: &mut Vec<PoolDeviation>,
) -> Result<(), AllocError>
    ensures { OnOk result
        (Adds found.old.items (if is_first then spec.UnplannedLabel number name.now ∷ [] else [])
        found.new.items) }
{
    if is_first {
        let pool = String::from_str(alloc, name)?;
        found.push(PoolDeviation::UnplannedLabel { line: number, pool })?;
    }
    Ok(())
}
