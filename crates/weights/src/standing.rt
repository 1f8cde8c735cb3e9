//! The conditions of the standing vector of a pool. If the queue is bounded, the conditions show
//! that the number of queued jobs never exceeds the capacity of the queue. If the queue is
//! unbounded, the only conditions are V2 to V7, which set no limit on the queued jobs. [`Rule`]
//! explains the names of the rows.

ghost use Rattle.std.specs.Prelude.{◌≡◌, ◌==◌, ◌<◌, ◌∷◌, [], if◌then◌else◌, IsTrue, Some, length, map, slice_get};
ghost use Rattle.job_bodies.specs.WellFormed.{IsWellFormed};
ghost use Rattle.weights.specs.declared.row.Rule.TheVariants.{S1};
ghost use Rattle.weights.specs.declared.row.Place.TheVariants as place;
ghost use Rattle.weights.specs.GetReturn.{DoneWeight};
ghost use Rattle.weights.specs.Row.{row, first_failing};
ghost use Rattle.weights.specs.Rows.{rows, classes_of};
ghost use Rattle.weights.specs.Standing.{capacity_rows, standing_rows};
ghost use Rattle.weights.specs.Vector as spec;
ghost use Rattle.weights.specs.Visits.{Visits};

use crate::{FirstFault, GetReturn, Place, Row, RowFault, RowVisitor, Rule, StandingFault, Vector};
use job_bodies::{Class, Plan};

/// Passes condition [`Rule::S1`] to the visitor for the class at index `number`. Does nothing if
/// the class does not belong to the pool.
fn visit_queued_row<V: RowVisitor>(
    plan: &Plan,
    pool: usize,
    vector: &Vector,
    number: usize,
    class: &Class,
    visitor: &mut V,
)
    requires fits { IsTrue (spec.vector_fits plan.now vector.now) }
    requires well_formed { IsWellFormed plan.now }
    requires class { slice_get plan.now.classes number ≡ Some class.now }
    ensures { let one = row S1 (place.Class number) 1 (spec.queued_weight vector.now number) in
        Visits V.HasSeen visitor.old visitor.new (if class.now.pool == pool then one ∷ [] else []) }
{
    if class.pool == pool {
        visitor.visit(Row::new(
            Rule::S1,
            Place::Class(number),
            1,
            vector.class_weights(number)[0],
        ));
    }
}

/// Passes condition [`Rule::S1`] to the visitor for each class of the pool.
fn visit_queued_rows<V: RowVisitor>(plan: &Plan, pool: usize, vector: &Vector, visitor: &mut V)
    requires { IsTrue (spec.vector_fits plan.now vector.now) }
    ensures { let all = map (λ entry. row S1 (place.Class entry.0) 1 (spec.queued_weight vector.now entry.0)) (classes_of plan.now pool) in
        Visits V.HasSeen visitor.old visitor.new all }
{
    for (number, class) in plan.classes().iter().enumerate() {
        visit_queued_row(plan, pool, vector, number, class, visitor);
    }
}

impl Vector {
    /// Passes all conditions of the pool's standing vector to the visitor, in this order (see
    /// [`Rule`]):
    ///
    /// 1. The conditions that [`Vector::visit_rows`] passes.
    /// 2. If the queue of the pool is bounded, S1 for each class of the pool, and then S2.
    pub fn visit_standing_rows<V: RowVisitor>(&self, plan: &Plan, pool: usize, visitor: &mut V)
        requires fits { IsTrue (spec.vector_fits plan.now self.now) }
        requires pool { pool < length plan.now.pools }
        ensures { Visits V.HasSeen visitor.old visitor.new (standing_rows plan.now pool self.now) }
    {
        self.visit_rows(plan, GetReturn::DoneWeight, visitor);
        self.visit_capacity_rows(plan, pool, visitor);
    }

    /// Passes the conditions S1 and S2 (see [`Rule`]) to the visitor: first S1 for each class of
    /// the pool, and then S2. Does nothing if the queue of the pool is unbounded.
    fn visit_capacity_rows<V: RowVisitor>(&self, plan: &Plan, pool: usize, visitor: &mut V)
        requires fits { IsTrue (spec.vector_fits plan.now self.now) }
        requires pool { pool < length plan.now.pools }
        ensures { Visits V.HasSeen visitor.old visitor.new (capacity_rows plan.now pool self.now) }
    {
        let sizes = &plan.pools()[pool];
        if sizes.unbounded {
            return;
        }
        visit_queued_rows(plan, pool, self, visitor);
        visitor.visit(Row::new(Rule::S2, Place::Total, self.total(plan), sizes.queue));
    }

    /// Returns the first failing condition among V2 to V7 (see [`Rule`]), in the order of
    /// [`Vector::visit_rows`]. Returns `None` if all these conditions hold. Allocates no memory.
    pub fn first_fault(&self, plan: &Plan) -> Option<RowFault>
        requires { IsTrue (spec.vector_fits plan.now self.now) }
        ensures { result ≡ first_failing (rows DoneWeight plan.now self.now) }
    {
        let mut first = FirstFault::new();
        self.visit_rows(plan, GetReturn::DoneWeight, &mut first);
        first.found
    }

    /// Returns the first failing condition of the pool's standing vector, in the order of
    /// [`Vector::visit_standing_rows`]. Returns `None` if all conditions hold. Allocates no memory.
    pub fn standing_fault(&self, plan: &Plan, pool: usize) -> Option<StandingFault>
        requires fits { IsTrue (spec.vector_fits plan.now self.now) }
        requires pool { pool < length plan.now.pools }
        ensures { result ≡ first_failing (standing_rows plan.now pool self.now) }
    {
        let mut first = FirstFault::new();
        self.visit_standing_rows(plan, pool, &mut first);
        first.found
    }
}
