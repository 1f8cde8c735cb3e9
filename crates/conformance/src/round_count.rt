//! The number of rounds of a client kind.

ghost use Rattle.std.specs.Prelude.{◌≡◌, ◌↔◌, ◌+◌, ◌<◌, IsTrue, IsNone};
ghost use Rattle.conformance.specs.Rounds as spec;

use crate::Excess;
use job_bodies::{Client, MAX_RECORDED_ROUNDS};
use std::marker::Model;

/// A counter for the rounds of one client kind, with the kind's `count` and `repeat`.
///
/// In contracts, the value of this type is the kind's `count` and `repeat` in the plan, and the
/// numbers of rounds that began and ended.
#[derive(Drop)]
pub struct RoundCount {
    count: u64,
    repeat: bool,
    begun: u64,
    ended: u64,
}

impl Model for RoundCount {
    ghost use Rattle.std.specs.Prelude.{◌≤◌};
    ghost use Rattle.job_bodies.specs.declared.limits.TheConstants.{MAX_RECORDED_ROUNDS};
    ghost use Rattle.conformance.specs.Rounds.{Rounds};

    ghost Value = { Rounds };

    ghost view = { λ r. record { count = r.count; repeat = r.repeat; begun = r.begun; ended = r.ended } };

    ghost invariant = { λ r. (r.ended ≤ r.begun) × (r.begun ≤ MAX_RECORDED_ROUNDS) };
}

impl RoundCount {
    /// Creates a counter for a client kind of the plan, with no rounds.
    pub fn new(client: &Client) -> RoundCount
        ensures { result ≡ spec.no_rounds client.now }
    {
        RoundCount {
            count: client.count,
            repeat: client.repeat,
            begun: 0,
            ended: 0,
        }
    }

    /// Counts the beginning of a round, and then returns [`excess`](RoundCount::excess).
    ///
    /// Fewer than [`MAX_RECORDED_ROUNDS`] rounds must have begun before.
    /// [`can_begin`](RoundCount::can_begin) tests this condition. It holds in any recording that
    /// numbers its rounds in order.
    pub fn begin(&mut self) -> Option<Excess>
        requires { self.old.begun < MAX_RECORDED_ROUNDS }
        ensures excess_tracker { self.new ≡ record self.old { begun = self.old.begun + 1 } }
        ensures exact { result ≡ spec.excess_of self.new }
        ensures none { IsNone result ↔ spec.IsWithinPlan self.new }
    {
        self.begun += 1;
        self.excess()
    }

    /// Counts the end of a round. A round must be open, which [`can_end`](RoundCount::can_end)
    /// tests.
    pub fn end(&mut self)
        requires { self.old.ended < self.old.begun }
        ensures { self.new ≡ record self.old { ended = self.old.ended + 1 } }
    {
        self.ended += 1;
    }

    /// Returns true if fewer than [`MAX_RECORDED_ROUNDS`] rounds have begun.
    pub fn can_begin(&self) -> bool
        ensures { IsTrue result ↔ (self.now.begun < MAX_RECORDED_ROUNDS) }
    {
        self.begun < MAX_RECORDED_ROUNDS
    }

    /// Returns true if a round is open.
    pub fn can_end(&self) -> bool
        ensures { IsTrue result ↔ (self.now.ended < self.now.begun) }
    {
        self.ended < self.begun
    }

    /// Returns how the rounds exceed the plan, or `None` if they are within the plan:
    ///
    /// - [`Excess::Concurrent`] if more than `count` rounds are open at the same time;
    /// - otherwise [`Excess::InAll`] if the kind does not repeat and more than `count` rounds began
    ///   in all.
    pub fn excess(&self) -> Option<Excess>
        ensures exact { result ≡ spec.excess_of self.now }
        ensures none { IsNone result ↔ spec.IsWithinPlan self.now }
    {
        let (count, open) = (self.count, self.begun - self.ended);
        if open > count {
            Some(Excess::Concurrent {
                rounds: open,
                count,
            })
        } else if !self.repeat && self.begun > count {
            Some(Excess::InAll {
                rounds: self.begun,
                count,
            })
        } else {
            None
        }
    }
}
