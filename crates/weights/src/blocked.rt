//! The conditions of the blocked vector of a pool. This vector bounds how many jobs of the pool
//! wait at counted gets. [`Rule`] explains the names of the rows, and [`Counted`] explains counted
//! gets.

ghost use Rattle.std.specs.Prelude.{◌≡◌, ◌==◌, ◌&&◌, ◌<◌, ◌+◌, ◌∷◌, [], if◌then◌else◌, ℕ, IsTrue, Some, length, map, slice_get};
ghost use Rattle.std.specs.List.{flat_map};
ghost use Rattle.job_bodies.specs.Plan.{class_at};
ghost use Rattle.job_bodies.specs.WellFormed.{IsWellFormed};
ghost use Rattle.weights.specs.declared.row.Rule.TheVariants.{B1};
ghost use Rattle.weights.specs.declared.row.Place.TheVariants as place;
ghost use Rattle.weights.specs.Row.{row, first_failing};
ghost use Rattle.weights.specs.Rows.{classes_of};
ghost use Rattle.weights.specs.Vector.{vector_fits, class_weights, job_weight};
ghost use Rattle.weights.specs.Visits.{Visits};
ghost use Rattle.weights.specs.Blocked.{is_get, counted_rows, blocked_rows};

use crate::{Counted, FirstFault, GetReturn, Place, Row, RowVisitor, Rule, Vector};
use job_bodies::{Action, Class, Plan};

/// A failing [`Row`] of a blocked vector: its `left` is greater than its `right`.
pub type BlockedFault = Row;

/// Passes condition B1 (see [`Rule`]) to the visitor if `action` is a counted get. Otherwise does
/// nothing. The action is at `position` in the body of the class at index `number`.
fn visit_counted_row<C: Counted, V: RowVisitor>(
    counted: &C,
    vector: &Vector,
    number: usize,
    position: usize,
    action: Action,
    visitor: &mut V,
)
    requires answers { C.Answers counted.now number position }
    requires known { number < length vector.now.classes }
    requires position { position + 1 < length (class_weights vector.now number) }
    ensures { let one = row B1 (place.ClassAction number position) 1 (job_weight vector.now number position) in
        Visits V.HasSeen visitor.old visitor.new (if is_get action && C.is_counted counted.now number position then one ∷ [] else []) }
{
    if matches!(action, Action::Get(_)) && counted.counted(number, position) {
        visitor.visit(Row::new(
            Rule::B1,
            Place::ClassAction(number, position),
            1,
            vector.class_weights(number)[position + 1],
        ));
    }
}

/// Passes condition [`Rule::B1`] to the visitor for each counted get of the class at index
/// `number`.
fn visit_counted_rows<C: Counted, V: RowVisitor>(
    plan: &Plan,
    counted: &C,
    vector: &Vector,
    number: usize,
    class: &Class,
    visitor: &mut V,
)
    requires fits { IsTrue (vector_fits plan.now vector.now) }
    requires well_formed { IsWellFormed plan.now }
    requires class { slice_get plan.now.classes number ≡ Some class.now }
    requires answers { (i : ℕ) → i < length class.now.body → C.Answers counted.now number i }
    ensures { Visits V.HasSeen visitor.old visitor.new
        (counted_rows (C.is_counted counted.now) vector.now number class.now) }
{
    for (position, action) in class.body.iter().enumerate() {
        visit_counted_row(counted, vector, number, position, *action, visitor);
    }
}

/// Passes condition [`Rule::B1`] to the visitor for each counted get of the class at index
/// `number`. Does nothing if the class does not belong to the pool.
fn visit_counted_rows_of<C: Counted, V: RowVisitor>(
    plan: &Plan,
    pool: usize,
    counted: &C,
    vector: &Vector,
    number: usize,
    class: &Class,
    visitor: &mut V,
)
    requires fits { IsTrue (vector_fits plan.now vector.now) }
    requires well_formed { IsWellFormed plan.now }
    requires class { slice_get plan.now.classes number ≡ Some class.now }
    requires answers { (i : ℕ) → i < length class.now.body → C.Answers counted.now number i }
    ensures { let all = counted_rows (C.is_counted counted.now) vector.now number class.now in
        Visits V.HasSeen visitor.old visitor.new (if class.now.pool == pool then all else []) }
{
    if class.pool == pool {
        visit_counted_rows(plan, counted, vector, number, class, visitor);
    }
}

/// Passes condition [`Rule::B1`] to the visitor for each counted get of the pool's classes.
fn visit_all_counted_rows<C: Counted, V: RowVisitor>(
    plan: &Plan,
    pool: usize,
    counted: &C,
    vector: &Vector,
    visitor: &mut V,
)
    requires fits { IsTrue (vector_fits plan.now vector.now) }
    requires answers { (k i : ℕ)
        → i < length (class_at plan.now k).body
        → C.Answers counted.now k i }
    ensures { let all = flat_map (λ entry. counted_rows (C.is_counted counted.now) vector.now entry.0 entry.1) (classes_of plan.now pool) in
        Visits V.HasSeen visitor.old visitor.new all }
{
    for (number, class) in plan.classes().iter().enumerate() {
        visit_counted_rows_of(plan, pool, counted, vector, number, class, visitor);
    }
}

/// Passes all conditions of the pool's blocked vector to the visitor, in this order (see [`Rule`]):
///
/// 1. The conditions that [`Vector::visit_rows`] passes.
/// 2. B1 for each counted get of each class of the pool.
/// 3. B2.
pub fn visit_blocked_rows<C: Counted, V: RowVisitor>(
    plan: &Plan,
    pool: usize,
    counted: &C,
    vector: &Vector,
    visitor: &mut V,
)
    requires fits { IsTrue (vector_fits plan.now vector.now) }
    requires pool { pool < length plan.now.pools }
    requires answers { (k i : ℕ)
        → i < length (class_at plan.now k).body
        → C.Answers counted.now k i }
    ensures { Visits V.HasSeen visitor.old visitor.new
        (blocked_rows plan.now pool (C.is_counted counted.now) vector.now) }
{
    vector.visit_rows(plan, GetReturn::DoneWeight, visitor);
    visit_all_counted_rows(plan, pool, counted, vector, visitor);
    let pool = &plan.pools()[pool];
    visitor.visit(Row::new(
        Rule::B2,
        Place::Total,
        vector.total(plan),
        pool.least_threads() - 1,
    ));
}

/// Returns the first failing condition of the pool's blocked vector, in the order of
/// [`visit_blocked_rows`]. Returns `None` if all conditions hold. Allocates no memory.
pub fn blocked_fault<C: Counted>(
    plan: &Plan,
    pool: usize,
    counted: &C,
    vector: &Vector,
) -> Option<BlockedFault>
    requires fits { IsTrue (vector_fits plan.now vector.now) }
    requires pool { pool < length plan.now.pools }
    requires answers { (k i : ℕ)
        → i < length (class_at plan.now k).body
        → C.Answers counted.now k i }
    ensures { result
        ≡ first_failing (blocked_rows plan.now pool (C.is_counted counted.now) vector.now) }
{
    let mut first = FirstFault::new();
    visit_blocked_rows(plan, pool, counted, vector, &mut first);
    first.found
}
