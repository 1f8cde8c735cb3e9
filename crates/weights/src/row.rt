//! A row: one condition of a certificate at one place in the plan.

ghost use Rattle.std.specs.Prelude.{◌≡◌};
ghost use Rattle.weights.specs.Row.{fails, row};

/// A rule of a certificate. Most rules give conditions at several places of the plan. The *actor*
/// of an action is the job or the client that performs it.
///
/// [`Vector`](crate::Vector) explains weights, [`Ranks`](crate::Ranks) explains ranks, reaches and
/// levels, and [`Counted`](crate::Counted) explains counted gets.
#[derive(Clone, Copy, Debug, PartialEq, Eq)]
pub enum Rule {
    /// The reach of a class is at least the rank of its pool.
    K1,
    /// The reach of a class is at least the reach of each class whose jobs it gets.
    K2,
    /// The level of a class is above the level of each class that it submits.
    K3,
    /// `work` does not increase the weight of its actor.
    V2,
    /// The weight of an actor before a submit is at least its weight afterwards plus the weight of
    /// the queued job.
    V3,
    /// The weight of a job at its first position is at most its weight in the queue plus the weight
    /// of a worker of its pool.
    V4,
    /// A get increases the weight of the actor that performs it by at most the weight of the done
    /// job.
    V5,
    /// The weight of a job at the end of its body is at least its weight when it is done plus the
    /// weight of a worker of its pool.
    V6,
    /// A client that repeats weighs at least as much at its end as at its start.
    V7,
    /// In the standing vector of a pool with a bounded queue, a queued job of the pool weighs at
    /// least 1.
    S1,
    /// If the queue of a pool is bounded, the total of the pool's standing vector is at most the
    /// capacity of the queue.
    S2,
    /// In a lifetime vector, each worker weighs 0.
    L1,
    /// In the lifetime vector of a pool with a bounded queue, a job of the pool always weighs at
    /// least 1: when it is queued, at each position of its body, and when it is done.
    L2,
    /// If the queue of a pool is bounded, the total of the pool's lifetime vector has a limit. The
    /// limit is the capacity of the queue plus the maximum of the pool, minus the number of its
    /// prestarted threads. If core threads may time out, the limit is only the capacity of the
    /// queue.
    L3,
    /// In a lifetime vector, a get does not increase the weight of the actor that performs it. In
    /// such a vector, this rule replaces V5.
    L5,
    /// In the blocked vector of a pool, a job of the pool weighs at least 1 at each counted get.
    B1,
    /// The total of a pool's blocked vector is less than the core size of the pool. If core threads
    /// may time out, the total is 0.
    B2,
}

/// The place at which a rule applies: a class, a client kind, one action of a body, the workers of
/// a pool, or the whole plan. Pools, classes, client kinds and actions are counted from 0.
#[derive(Clone, Copy, Debug, PartialEq, Eq)]
pub enum Place {
    Class(usize),
    /// A class, and the position of an action in its body.
    ClassAction(usize, usize),
    Client(usize),
    /// A client kind, and the position of an action in its body.
    ClientAction(usize, usize),
    /// The workers of a pool.
    Worker(usize),
    Total,
}

/// A rule at one place: the condition that `left` is at most `right`.
#[derive(Clone, Copy, Debug, PartialEq, Eq)]
pub struct Row {
    pub rule: Rule,
    pub place: Place,
    pub left: u64,
    pub right: u64,
}

impl Row {
    /// Creates the row of this rule at this place.
    pub fn new(rule: Rule, place: Place, left: u64, right: u64) -> Row
        ensures { result ≡ row rule place left right }
    {
        Row {
            rule,
            place,
            left,
            right,
        }
    }

    /// Returns whether the condition does not hold: `left` is greater than `right`.
    pub fn fails(self) -> bool
        ensures { result ≡ fails self }
    {
        self.left > self.right
    }
}

/// A failing [`Row`]: its `left` is greater than its `right`.
pub type RowFault = Row;
/// A failing [`Row`] of a pool's standing or lifetime vector: its `left` is greater than its
/// `right`.
pub type StandingFault = Row;
