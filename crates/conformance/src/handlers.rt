//! The handlers of the pools of a recording, and the pools that are shut down.

ghost use Rattle.std.specs.Prelude.{◌≡◌, ◌||◌, ◌&&◌, ◌++◌, ◌∷◌, [], ℕ, not, List, OnOk, IfOk};
ghost use Rattle.std.specs.Str.{bytes_eq};
ghost use Rattle.job_bodies.specs.Plan.{pool_at};
ghost use Rattle.recordings.specs.RecordingLine.{RecordedLine, line_view};
ghost use Rattle.conformance.specs.PoolComparison.{has_name};
ghost use Rattle.conformance.specs.Handlers as spec;
ghost use Rattle.conformance.specs.RejectionRule.{can_reject, rule_by, rule_for, rule_of};

use crate::pool_names::PoolNames;
use crate::rejection_rule::{RejectionRule, is_abort, is_caller_runs, is_discard, is_got};
use job_bodies::Plan;
use recordings::Line;
use std::alloc::{AllocError, Global};

/// The facts about the pools of a recording that, together with the plan, determine the
/// [`RejectionRule`] of each pool. They come from the lines read so far, and are four sets of
/// pools:
///
/// - the pools with a line that names a handler other than `abort`;
/// - the pools with a line that names a handler other than `caller_runs`;
/// - the pools with a line that names a handler other than `discard`;
/// - the pools that are shut down.
#[derive(Drop)]
pub(crate) struct Handlers {
    not_abort: PoolNames,
    not_caller_runs: PoolNames,
    not_discard: PoolNames,
    shut: PoolNames,
}

impl Handlers {
    /// Creates four empty sets.
    pub(crate) fn new(alloc: Global) -> Handlers
        ensures { spec.AreHandlersOf [] result }
    {
        Handlers {
            not_abort: PoolNames::new(alloc),
            not_caller_runs: PoolNames::new(alloc),
            not_discard: PoolNames::new(alloc),
            shut: PoolNames::new(alloc),
        }
    }

    /// Updates the sets for the next line of the recording.
    ///
    /// # Errors
    ///
    /// Returns `AllocError` if memory runs out.
    pub(crate) fn take(&mut self, line: &Line<'_>) -> Result<(), AllocError>
        ensures { (before : List RecordedLine)
            → spec.AreHandlersOf before self.old
            → OnOk result (spec.AreHandlersOf (before ++ line_view line.now ∷ []) self.new) }
    {
        self.note(line)
    }

    fn note(&mut self, line: &Line<'_>) -> Result<(), AllocError>
        ensures { OnOk result (spec.NotesLine self.old (line_view line.now) self.new) }
    {
        match *line {
            Line::Pool { name, sizes } => {
                insert_unless(&mut self.not_abort, name, is_abort(sizes.handler))?;
                insert_unless(
                    &mut self.not_caller_runs,
                    name,
                    is_caller_runs(sizes.handler),
                )?;
                insert_unless(&mut self.not_discard, name, is_discard(sizes.handler))
            }
            Line::ShutDown { pool } => self.shut.insert(pool),
            _ => Ok(()),
        }
    }

    /// Returns the rejection rule of each pool of the plan, in the order of the plan.
    ///
    /// # Errors
    ///
    /// Returns `AllocError` if memory runs out.
    pub(crate) fn rules(&self, alloc: Global, plan: &Plan) -> Result<Vec<RejectionRule>, AllocError>
        ensures { (lines : List RecordedLine)
            → spec.AreHandlersOf lines self.now
            → IfOk result (λ rules. spec.AreRules plan.now lines rules.items) }
    {
        let mut rules = Vec::new(alloc);
        for pool in 0..plan.pools().len() {
            rules.push(self.rule_of(plan, pool))?;
        }
        Ok(rules)
    }

    fn rule_of(&self, plan: &Plan, pool: usize) -> RejectionRule
        ensures { (lines : List RecordedLine)
            → spec.AreHandlersOf lines self.now
            → result ≡ rule_of plan.now lines pool }
    {
        if can_reject(plan, pool) {
            self.rule_for(plan, pool)
        } else {
            RejectionRule::Never
        }
    }

    // Returns the rule of a pool that may reject jobs and whose queue is bounded.
    fn rule_for(&self, plan: &Plan, pool: usize) -> RejectionRule
        ensures { (lines : List RecordedLine)
            → spec.AreHandlersOf lines self.now
            → result ≡ rule_for plan.now lines pool }
    {
        let name = plan.pool_name(pool);
        let not_abort = self.not_abort.contains(name);
        let not_caller_runs = self.not_caller_runs.contains(name);
        let closes = self.shut.contains(name);
        let not_discard = self.not_discard.contains(name);
        let drops = is_neither(not_discard, is_got(plan, pool));
        rule_by(!not_abort, !not_caller_runs, closes, drops)
    }
}

// Returns true if the pool may reject jobs and its queue is bounded. An unbounded queue is never
// full.
fn can_reject(plan: &Plan, pool: usize) -> bool
    ensures { result ≡ can_reject (pool_at plan.now pool) }
{
    match plan.pool_at(pool) {
        Some(pool) => pool.may_reject && !pool.unbounded,
        None => false,
    }
}

fn is_neither(not_discard: bool, is_got: bool) -> bool
    ensures { result ≡ (not not_discard && not is_got) }
{
    !not_discard && !is_got
}

fn rule_by(aborts: bool, caller_runs: bool, closes: bool, drops: bool) -> RejectionRule
    ensures { result ≡ rule_by aborts caller_runs closes drops }
{
    if aborts {
        RejectionRule::Always
    } else if caller_runs {
        RejectionRule::IfCallerRuns { closes }
    } else if drops {
        RejectionRule::Always
    } else {
        RejectionRule::Never
    }
}

/// Adds the name of a pool to `names`, unless `is_kind` is true. `names` has the pools with a line
/// that names a handler other than one certain handler, such as `abort`. `is_kind` says whether the
/// pool's current line names that handler.
fn insert_unless(names: &mut PoolNames, name: &str, is_kind: bool) -> Result<(), AllocError>
    ensures { OnOk result
        ((q : List ℕ)
        → has_name names.new q ≡ (has_name names.old q || (bytes_eq name.now q && not is_kind))) }
{
    if !is_kind {
        names.insert(name)?;
    }
    Ok(())
}
