//! The ranks of pools, and the reaches and levels of classes.

ghost use Rattle.std.specs.Prelude.{◌≡◌, ◌<◌, length};
ghost use Rattle.weights.specs.Ranks as spec;

use crate::are_small;
use job_bodies::Plan;
use std::marker::Model;

/// The ranks of pools, and the reaches and levels of classes, in plan order. The ranks and reaches
/// decide which gets are [counted](crate::Counted). The levels show that no class submits itself,
/// directly or through other classes. A certificate requires that each number is at most
/// [`MAX_WEIGHT`](job_bodies::MAX_WEIGHT).
#[derive(Debug, Drop)]
pub struct Ranks {
    /// The rank of each pool.
    pub pools: Vec<u64>,
    /// The reach of each class. A certificate requires that the reach is at least the rank of the
    /// class's pool. It must also be at least the reach of each class whose jobs this class gets.
    pub reach: Vec<u64>,
    /// The level of each class. If a class A submits jobs of a class B, a certificate requires that
    /// the level of A is above the level of B.
    pub levels: Vec<u64>,
}

impl Model for Ranks {
    ghost Value = { spec.Ranks };

    ghost view = { λ r. record { pools = r.pools.items; reach = r.reach.items; levels = r.levels.items } };
}

impl Ranks {
    /// Returns the rank of the pool.
    pub fn rank_of(&self, pool: usize) -> u64
        requires { pool < length self.now.pools }
        ensures { result ≡ spec.rank self.now pool }
    {
        self.pools[pool]
    }

    /// Returns the reach of the class.
    pub fn reach_of(&self, class: usize) -> u64
        requires { class < length self.now.reach }
        ensures { result ≡ spec.reach self.now class }
    {
        self.reach[class]
    }

    /// Returns the level of the class. A certificate requires that this level is above the levels
    /// of all classes that the class submits.
    pub fn level_of(&self, class: usize) -> u64
        requires { class < length self.now.levels }
        ensures { result ≡ spec.level self.now class }
    {
        self.levels[class]
    }

    /// Returns whether the ranks fit the plan: there is a rank for each pool, there are a reach and
    /// a level for each class, and each number is at most [`MAX_WEIGHT`](job_bodies::MAX_WEIGHT).
    pub fn fits(&self, plan: &Plan) -> bool
        ensures { result ≡ spec.ranks_fit plan.now self.now }
    {
        self.pools.len() == plan.pools().len()
            && self.reach.len() == plan.classes().len()
            && self.levels.len() == plan.classes().len()
            && are_small(&self.pools)
            && are_small(&self.reach)
            && are_small(&self.levels)
    }
}
