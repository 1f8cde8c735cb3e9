//! The activity of a set of jobs in each pool: how many jobs of the set run there, and whether a
//! job of the set is queued there.

ghost use Rattle.std.specs.Prelude.{◌≡◌, ◌+◌, ◌<◌, ◌^◌, ℕ};
ghost use Rattle.job_bodies.specs.WellFormed.{IsWellFormed};
ghost use Rattle.interleaving.specs.PoolActivity.{activity_of, activity_at, activity_with};

use crate::members::Members;
use crate::plans::pool_of;
use crate::{Phase, World};
use job_bodies::{MAX_POOLS, Plan};

/// The activity of a set of jobs, the *members*, in one pool.
#[derive(Clone, Copy)]
pub(crate) struct PoolActivity {
    /// Whether a member of the set waits in the pool's queue.
    pub(crate) queued: bool,
    /// The number of members of the set that run in the pool.
    pub(crate) at_work: usize,
}

impl PoolActivity {
    /// Adds a member to this activity, and returns the result. `phase` is the phase of the member.
    /// `is_new` is `false` if the member was added before.
    ///
    /// - A queued member sets `queued`.
    /// - A running member adds 1 to `at_work` if `is_new` is `true`.
    /// - A done member changes nothing.
    fn with(self, phase: Phase, is_new: bool) -> PoolActivity
        requires { self.at_work + 1 < 2 ^ 64 }
        ensures { result ≡ activity_with self phase is_new }
    {
        match phase {
            Phase::Queued => PoolActivity {
                queued: true,
                ..self
            },
            Phase::At(_) if is_new => PoolActivity {
                at_work: self.at_work + 1,
                ..self
            },
            Phase::At(_) | Phase::Done => self,
        }
    }
}

impl World {
    ghost use Rattle.interleaving.specs.OfPlan.{IsReachableView};

    /// Returns, for each pool, how many of the jobs in `members` run there, and whether one of them
    /// is queued there. The index of an element is the number of the pool. Counts a job only once,
    /// even if `members` has its number more than once. Ignores a number whose job is not live.
    pub(crate) fn activities(&self, plan: &Plan, members: &Members<'_>) -> [PoolActivity; MAX_POOLS]
        requires of_plan { IsReachableView plan.now self.now.view }
        requires well_formed { IsWellFormed plan.now }
        ensures { (p : ℕ)
            → p < MAX_POOLS
            → activity_at result p ≡ activity_of plan.now self.now.view members.now p }
    {
        let mut activities = [PoolActivity {
            queued: false,
            at_work: 0,
        }; MAX_POOLS];
        for (place, &number) in members.numbers().iter().enumerate() {
            if let Some(job) = self.jobs.get(number) {
                let pool = pool_of(plan, job.class);
                activities[pool] = activities[pool].with(job.phase, members.is_first(place));
            }
        }
        activities
    }
}
