//! Waiting sets: sets of jobs that wait only for each other.

ghost use Rattle.std.specs.Prelude.{◌≡◌, ◌<◌, ◌↔◌, true, false, length, IsTrue, slice_get};
ghost use Rattle.job_bodies.specs.WellFormed.{IsWellFormed};
ghost use Rattle.pool_machine.specs.declared.parent.Parent.TheVariants as parent;
ghost use Rattle.pool_machine.specs.State.{State};
ghost use Rattle.pool_machine.specs.Reach.{IsReached};
ghost use Rattle.pool_machine.specs.Waiting.{is_none, is_some_member, IsWaitingSet, is_waiting_set};
ghost use Rattle.interleaving.specs.LiveView.{live_view};
ghost use Rattle.interleaving.specs.ViewStep.{pool_in, live_job, live_child, may_get_in};
ghost use Rattle.interleaving.specs.Waiting.{is_waiting_set_in, waits_at_in};
ghost use Rattle.interleaving.specs.Stuck.{job_waits_unless_queued, unqueued_wait, QueuesWait};
ghost use Rattle.interleaving.specs.PoolActivity.{pool_queue_waits};

use crate::activities::PoolActivity;
use crate::members::Members;
use crate::plans::body_of_class;
use crate::{Phase, World};
use job_bodies::{Action, Plan};
use pool_machine::Parent;

impl World {
    ghost use Rattle.interleaving.specs.OfPlan.{IsReachableView};

    /// Returns `true` if the jobs with these numbers are a waiting set. The jobs are the *members*
    /// of the set. A waiting set has at least one member. Each member is an unfinished job of one
    /// of these kinds:
    ///
    /// - The member runs, and is at a get that waits for a member.
    /// - The member is queued, and its pool has no idle worker and runs only members.
    ///
    /// Allocates no memory. Looks up each member in the list a few times: by binary search if the
    /// list is sorted, and otherwise by a scan.
    pub fn stuck(&self, plan: &Plan, members: &[usize]) -> bool
        requires { IsReachableView plan.now self.now.view }
        ensures in_words { (s : State)
            → IsReached plan.now s
            → live_view plan.now s ≡ self.now.view
            → IsTrue result ↔ IsWaitingSet plan.now s members.now }
        ensures value { (s : State)
            → IsReached plan.now s
            → live_view plan.now s ≡ self.now.view
            → result ≡ is_waiting_set plan.now s members.now }
        ensures in_view { result ≡ is_waiting_set_in plan.now self.now.view members.now }
    {
        if members.is_empty() {
            return false;
        }
        self.is_waiting_set(plan, &Members::new(members))
    }

    fn is_waiting_set(&self, plan: &Plan, members: &Members<'_>) -> bool
        requires of_plan { IsReachableView plan.now self.now.view }
        requires some { is_none members.now ≡ false }
        ensures value { result ≡ is_waiting_set_in plan.now self.now.view members.now }
        ensures well_formed { IsWellFormed plan.now }
    {
        self.queues_wait(plan, members) && self.unqueued_wait(plan, members)
    }

    // Returns `true` if each member that is not queued is at a get of a member.
    fn unqueued_wait(&self, plan: &Plan, members: &Members<'_>) -> bool
        ensures { result ≡ unqueued_wait plan.now self.now.view members.now }
    {
        members
            .numbers()
            .iter()
            .all(|&member| self.waits_unless_queued(plan, members, member))
    }

    fn waits_unless_queued(&self, plan: &Plan, members: &Members<'_>, number: usize) -> bool
        ensures { result
            ≡ job_waits_unless_queued plan.now self.now.view members.now number
            (live_job self.now.view.jobs number) }
    {
        let Some(job) = self.jobs.get(number) else {
            return false;
        };
        match job.phase {
            Phase::Queued => true,
            Phase::At(position) => {
                let body = body_of_class(plan.classes(), job.class);
                self.waits_at(members, number, body, position)
            }
            Phase::Done => false,
        }
    }

    // Returns `true` if the action at this position of the job's body is a get of a member.
    fn waits_at(
        &self,
        members: &Members<'_>,
        number: usize,
        body: &[Action],
        position: usize,
    ) -> bool
        requires { may_get_in self.now.view.jobs (parent.Job number) ≡ true }
        ensures { result
            ≡ waits_at_in self.now.view members.now (parent.Job number)
            (slice_get body.now position) }
    {
        match body.get(position) {
            Some(Action::Get(submit)) => self.waits_for_member(members, number, *submit),
            _ => false,
        }
    }

    fn waits_for_member(&self, members: &Members<'_>, number: usize, submit: usize) -> bool
        requires { may_get_in self.now.view.jobs (parent.Job number) ≡ true }
        ensures { result
            ≡ is_some_member members.now
            (live_child self.now.view.jobs (parent.Job number) submit) }
    {
        match self.jobs.latest(Parent::Job(number), submit) {
            Some(child) => members.contains(child),
            None => false,
        }
    }

    // Returns `true` if each pool whose queue contains a member has no idle worker and runs only
    // members. Checks each pool once, however many members its queue contains.
    fn queues_wait(&self, plan: &Plan, members: &Members<'_>) -> bool
        requires { IsReachableView plan.now self.now.view }
        ensures value { IsTrue result ↔ QueuesWait plan.now self.now.view members.now }
        ensures well_formed { IsWellFormed plan.now }
    {
        let pools = plan.pools().len();
        let activities = self.activities(plan, members);
        for pool in 0..pools {
            if !self.pool_queue_waits(pool, activities[pool]) {
                return false;
            }
        }
        true
    }

    fn pool_queue_waits(&self, pool: usize, activity: PoolActivity) -> bool
        requires { pool < length self.now.view.pools }
        ensures { result ≡ pool_queue_waits (pool_in self.now.view pool) activity }
    {
        let pool = &self.pools[pool];
        !activity.queued || pool.idle() == 0 && pool.threads() == activity.at_work as u64
    }
}
