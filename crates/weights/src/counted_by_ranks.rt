//! The rule that decides which gets are counted. A counted get can block a thread that other jobs
//! need. The rule uses the ranks and reaches of a certificate.

ghost use Rattle.std.specs.Prelude.{◌≡◌, ◌<◌, IsTrue, Some, length, slice_get};
ghost use Rattle.job_bodies.specs.Plan.{class_at};
ghost use Rattle.job_bodies.specs.WellFormed.{IsWellFormed};
ghost use Rattle.weights.specs.Ranks as spec;

use crate::{Counted, Ranks, submitted_class};
use job_bodies::{Action, Class, Plan};

/// Returns whether the action at `position` of the class's body is a counted get. The class is at
/// index `number`.
fn is_counted_in(plan: &Plan, ranks: &Ranks, number: usize, class: &Class, position: usize) -> bool
    requires fits { IsTrue (spec.ranks_fit plan.now ranks.now) }
    requires well_formed { IsWellFormed plan.now }
    requires class { slice_get plan.now.classes number ≡ Some class.now }
    requires position { position < length class.now.body }
    ensures { result ≡ spec.is_counted plan.now ranks.now number position }
{
    let actions = class.body.as_slice();
    match actions[position] {
        Action::Get(submit) => {
            let reached = ranks.reach_of(submitted_class(actions, submit));
            reached >= ranks.rank_of(class.pool)
        }
        Action::Work(_) | Action::Submit(_) => false,
    }
}

impl Ranks {
    /// Returns whether the action at `position` of the class's body is a counted get. A get waits
    /// for a job. If the reach of this job's class is at least the rank of the pool of `class`, the
    /// get is counted. Otherwise the get is not counted. [`Ranks`] explains ranks and reaches.
    pub fn is_counted(&self, plan: &Plan, class: usize, position: usize) -> bool
        requires fits { IsTrue (spec.ranks_fit plan.now self.now) }
        requires class { class < length plan.now.classes }
        requires position { position < length (class_at plan.now class).body }
        ensures { result ≡ spec.is_counted plan.now self.now class position }
    {
        is_counted_in(plan, self, class, &plan.classes()[class], position)
    }
}

/// A plan, and ranks that fit it (see [`Ranks::fits`]). The ranks decide which gets of the plan are
/// counted.
#[derive(Clone, Copy)]
pub struct RanksOf<'a> {
    pub plan: &'a Plan,
    pub ranks: &'a Ranks,
    ghost fit: { IsTrue (spec.ranks_fit plan.now ranks.now) },
}

impl<'a> RanksOf<'a> {
    /// Creates the pair of a plan and its ranks, which must fit the plan.
    pub fn new(plan: &'a Plan, ranks: &'a Ranks) -> RanksOf<'a>
        requires { IsTrue (spec.ranks_fit plan.now ranks.now) }
        ensures plan { result.plan.now ≡ plan.now }
        ensures ranks { result.ranks.now ≡ ranks.now }
    {
        RanksOf { plan, ranks }
    }
}

impl Counted for RanksOf<'_> {
    ghost Answers = { λ of k i. (k < length of.plan.now.classes) × (i < length (class_at of.plan.now k).body) };

    ghost is_counted = { λ of. spec.is_counted of.plan.now of.ranks.now };

    fn counted(&self, class: usize, position: usize) -> bool {
        self.ranks.is_counted(self.plan, class, position)
    }
}
