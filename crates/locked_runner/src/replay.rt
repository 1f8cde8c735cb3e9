//! The replay of a history from the initial state of the plan.

ghost use Rattle.std.specs.Prelude.{◌≡◌, ◌<◌, ◌+◌, ◌↔◌, [], ℕ, IfOk, OnErr, IsTrue, Some, List, length, take, false};
ghost use Rattle.pool_machine.specs.declared.event.Event.{Event};
ghost use Rattle.interleaving.specs.OfPlan.{IsReachableView};
ghost use Rattle.locked_runner.specs.Replayed.{IsReplayedAs, IsCounted, ReplaysEvent};
ghost use Rattle.locked_runner.specs.Run.{IsLegal, IsLegalPart, worked};

use crate::ViewedWorld;
use crate::owner::pool_of;
use interleaving::{Event, Outcome};
use job_bodies::Plan;
use std::alloc::{AllocError, Global};

/// The result of replaying a history. It does not store the events.
#[derive(Drop)]
pub(crate) struct Replay {
    /// The state after the replayed events.
    pub(crate) world: ViewedWorld,
    /// For each replayed event, the pool of the job that performed the event, or 0 if no job
    /// performed it. This pool and the event determine the owner of the event.
    pub(crate) pools: Vec<u8>,
    /// The number of units of work of the replayed events, or `None` if this number exceeds
    /// `u64::MAX`.
    pub(crate) units: Option<u64>,
    /// Whether the replay ended because memory ran out.
    pub(crate) ended_for_memory: bool,
}

/// Replays the history from the initial state of the plan. Stops before the first event that is not
/// possible. Also stops before an event for which there is not enough memory, and then sets
/// `ended_for_memory` in the result.
///
/// # Errors
///
/// Returns `AllocError` if there is not enough memory for the initial state or the list of pools.
pub(crate) fn replay_history(
    alloc: Global,
    plan: &Plan,
    history: &[Event],
) -> Result<Replay, AllocError>
    ensures replayed { IfOk result (λ replay.
        IsReplayedAs plan.now (take (length replay.pools.items) history.now) replay.world
        replay.pools.items replay.units) }
    ensures part { IfOk result (λ replay.
        replay.ended_for_memory ≡ false
        → IsLegalPart plan.now history.now (length replay.pools.items)) }
{
    let mut replay = Replay {
        world: ViewedWorld::start(alloc, plan)?,
        pools: Vec::with_capacity(alloc, history.len())?,
        units: Some(0),
        ended_for_memory: false,
    };
    replay.ended_for_memory = replay.replay_all(plan, history).is_err();
    Ok(replay)
}

impl Replay {
    /// Returns the number of replayed events.
    pub(crate) fn events(&self) -> usize
        ensures { result ≡ length self.now.pools.items }
    {
        self.pools.len()
    }

    /// Replays the events. Stops before the first event that is not possible.
    ///
    /// # Errors
    ///
    /// Returns `AllocError` if there is not enough memory for an event. The events before it have
    /// then been replayed.
    fn replay_all(&mut self, plan: &Plan, history: &[Event]) -> Result<(), AllocError>
        requires at_start { IsReplayedAs plan.now [] self.old.world self.old.pools.items
            self.old.units }
        ensures replayed { IsReplayedAs plan.now (take (length self.new.pools.items) history.now)
            self.new.world self.new.pools.items self.new.units }
        ensures ends { IfOk result (λ _.
            length self.new.pools.items < length history.now
            → ¬ IsLegal plan.now (take (length self.new.pools.items + 1) history.now)) }
    {
        for event in history {
            if !self.replay_event(plan, *event)? {
                return Ok(());
            }
        }
        Ok(())
    }

    /// Replays the event, and returns whether it was possible.
    ///
    /// # Errors
    ///
    /// Returns `AllocError` if there is not enough memory for the event. The event is then not
    /// replayed.
    fn replay_event(&mut self, plan: &Plan, event: Event) -> Result<bool, AllocError>
        requires { IsReachableView plan.now self.old.world }
        ensures made { IfOk result (λ made.
            (history : List Event)
            → IsReplayedAs plan.now history self.old.world self.old.pools.items self.old.units
            → ReplaysEvent plan.now history event made self.new.world self.new.pools.items
            self.new.units) }
        ensures error_unmade { OnErr result
            ((self.new.world ≡ self.old.world)
            × (self.new.pools.items ≡ self.old.pools.items)
            × (self.new.units ≡ self.old.units)) }
    {
        let pool = pool_of(plan, self.world.world(), event);
        self.pools.reserve(1)?;
        let Some(outcome) = self.world.step(plan, event)? else {
            return Ok(false);
        };
        self.pools.push_reserved(pool);
        self.units = with_work(self.units, outcome);
        Ok(true)
    }
}

/// Returns `units` plus the units of work of the outcome. Returns `None` if `units` is `None` or
/// the sum exceeds `u64::MAX`.
fn with_work(units: Option<u64>, outcome: Outcome) -> Option<u64>
    ensures { (n : ℕ) → IsCounted n units → IsCounted (n + worked (Some outcome)) result }
{
    match outcome {
        Outcome::Worked(more) => units?.checked_add(u64::from(more)),
        _ => units,
    }
}

/// Returns `true` if `units` is `Some(wanted)`.
pub(crate) fn equals_count(units: Option<u64>, wanted: u64) -> bool
    ensures { (n : ℕ) → IsCounted n units → (IsTrue result ↔ (n ≡ wanted)) }
{
    match units {
        Some(units) => units == wanted,
        None => false,
    }
}
