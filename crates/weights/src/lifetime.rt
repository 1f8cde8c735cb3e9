//! The conditions of the lifetime vector of a pool. This vector bounds the number of jobs that are
//! ever submitted to the pool. [`Rule`] explains the names of the rows.

ghost use Rattle.std.specs.Prelude.{◌≡◌, ◌==◌, ◌<◌, ◌∷◌, [], if◌then◌else◌, IsTrue, Some, length, map, slice_get};
ghost use Rattle.std.specs.List.{flat_map, enumerate_from};
ghost use Rattle.job_bodies.specs.WellFormed.{IsWellFormed, has_valid_sizes};
ghost use Rattle.weights.specs.declared.row.Rule.TheVariants.{L1, L2};
ghost use Rattle.weights.specs.declared.row.Place.TheVariants as place;
ghost use Rattle.weights.specs.Row.{row, first_failing};
ghost use Rattle.weights.specs.Rows.{classes_of};
ghost use Rattle.weights.specs.Lifetime as lifetime;
ghost use Rattle.weights.specs.Vector as spec;
ghost use Rattle.weights.specs.Visits.{Visits};

use crate::{FirstFault, GetReturn, Place, Row, RowVisitor, Rule, StandingFault, Vector};
use job_bodies::{Class, Plan, Pool};

/// Returns the number of jobs that a pool accepts before it can refuse a job. This number is the
/// capacity of the queue plus the maximum of the pool, minus the number of prestarted threads.
///
/// If core threads may time out, the number is only the capacity of the queue, because Java then
/// starts threads without a job.
pub(crate) fn lifetime_limit(pool: &Pool) -> u64
    requires { IsTrue (has_valid_sizes pool.now) }
    ensures { result ≡ lifetime.lifetime_limit pool.now }
{
    if pool.core_timeout {
        pool.queue
    } else {
        pool.queue + pool.max - pool.first_workers()
    }
}

/// Passes condition [`Rule::L1`] to the visitor for each pool.
fn visit_worker_rows<V: RowVisitor>(plan: &Plan, vector: &Vector, visitor: &mut V)
    requires { IsTrue (spec.vector_fits plan.now vector.now) }
    ensures { let all = map (λ entry. row L1 (place.Worker entry.0) (spec.workers_weight vector.now entry.0) 0) (enumerate_from 0 plan.now.pools) in
        Visits V.HasSeen visitor.old visitor.new all }
{
    for pool in 0..plan.pools().len() {
        visitor.visit(Row::new(
            Rule::L1,
            Place::Worker(pool),
            vector.workers_weight(pool),
            0,
        ));
    }
}

/// Passes condition [`Rule::L2`] to the visitor for each weight in `weights`. These are the weights
/// of a job of the class: when it is queued, at each position of its body, and when it is done.
fn visit_l2_rows<V: RowVisitor>(class: usize, weights: &[u64], visitor: &mut V)
    ensures { Visits V.HasSeen visitor.old visitor.new
        (map (λ weight. row L2 (place.Class class) 1 weight) weights.now) }
{
    for weight in weights {
        visitor.visit(Row::new(Rule::L2, Place::Class(class), 1, *weight));
    }
}

/// Passes condition [`Rule::L2`] to the visitor for each weight of the class at index `number`.
/// Does nothing if the class does not belong to the pool.
fn visit_l2_rows_of<V: RowVisitor>(
    plan: &Plan,
    pool: usize,
    vector: &Vector,
    number: usize,
    class: &Class,
    visitor: &mut V,
)
    requires fits { IsTrue (spec.vector_fits plan.now vector.now) }
    requires well_formed { IsWellFormed plan.now }
    requires class { slice_get plan.now.classes number ≡ Some class.now }
    ensures { let all = map (λ weight. row L2 (place.Class number) 1 weight) (spec.class_weights vector.now number) in
        Visits V.HasSeen visitor.old visitor.new (if class.now.pool == pool then all else []) }
{
    if class.pool == pool {
        visit_l2_rows(number, vector.class_weights(number), visitor);
    }
}

/// Passes condition [`Rule::L2`] to the visitor for each weight of the pool's classes.
fn visit_all_l2_rows<V: RowVisitor>(plan: &Plan, pool: usize, vector: &Vector, visitor: &mut V)
    requires { IsTrue (spec.vector_fits plan.now vector.now) }
    ensures { let all = flat_map (λ entry. map (λ weight. row L2 (place.Class entry.0) 1 weight) (spec.class_weights vector.now entry.0)) (classes_of plan.now pool) in
        Visits V.HasSeen visitor.old visitor.new all }
{
    for (number, class) in plan.classes().iter().enumerate() {
        visit_l2_rows_of(plan, pool, vector, number, class, visitor);
    }
}

impl Vector {
    /// Passes all conditions of the pool's lifetime vector to the visitor, in this order (see
    /// [`Rule`]):
    ///
    /// 1. L1 for each pool.
    /// 2. The conditions that [`Vector::visit_rows`] passes, with L5 in place of V5.
    /// 3. If the queue of the pool is bounded, L2 for each weight of each class of the pool, and
    ///    then L3.
    pub fn visit_lifetime_rows<V: RowVisitor>(&self, plan: &Plan, pool: usize, visitor: &mut V)
        requires fits { IsTrue (spec.vector_fits plan.now self.now) }
        requires pool { pool < length plan.now.pools }
        ensures { Visits V.HasSeen visitor.old visitor.new
            (lifetime.lifetime_rows plan.now pool self.now) }
    {
        visit_worker_rows(plan, self, visitor);
        self.visit_rows(plan, GetReturn::NoWeight, visitor);
        self.visit_room_rows(plan, pool, visitor);
    }

    /// Passes the conditions L2 and L3 (see [`Rule`]) to the visitor: first L2 for each weight of
    /// the pool's classes, and then L3. Does nothing if the queue of the pool is unbounded.
    fn visit_room_rows<V: RowVisitor>(&self, plan: &Plan, pool: usize, visitor: &mut V)
        requires fits { IsTrue (spec.vector_fits plan.now self.now) }
        requires pool { pool < length plan.now.pools }
        ensures { Visits V.HasSeen visitor.old visitor.new
            (lifetime.room_rows plan.now pool self.now) }
    {
        let sizes = &plan.pools()[pool];
        if sizes.unbounded {
            return;
        }
        visit_all_l2_rows(plan, pool, self, visitor);
        visitor.visit(Row::new(
            Rule::L3,
            Place::Total,
            self.total(plan),
            lifetime_limit(sizes),
        ));
    }

    /// Returns the first failing condition of the pool's lifetime vector, in the order of
    /// [`Vector::visit_lifetime_rows`]. Returns `None` if all conditions hold. Allocates no memory.
    pub fn lifetime_fault(&self, plan: &Plan, pool: usize) -> Option<StandingFault>
        requires fits { IsTrue (spec.vector_fits plan.now self.now) }
        requires pool { pool < length plan.now.pools }
        ensures { result ≡ first_failing (lifetime.lifetime_rows plan.now pool self.now) }
    {
        let mut first = FirstFault::new();
        self.visit_lifetime_rows(plan, pool, &mut first);
        first.found
    }
}
