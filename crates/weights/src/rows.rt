//! The rows V2 to V7 of a vector, for all classes and client kinds of a plan. [`Rule`] explains the
//! names of the rows. In a lifetime vector, L5 replaces V5, because a get gives its actor no weight
//! ([`GetReturn::NoWeight`]).

ghost use Rattle.std.specs.Prelude.{◌≡◌, ◌+◌, IsTrue, Some, length, slice_get};
ghost use Rattle.std.specs.List.{flat_map, enumerate_from};
ghost use Rattle.job_bodies.specs.WellFormed.{IsWellFormed};
ghost use Rattle.weights.specs.declared.row.Rule.TheVariants.{V4, V6, V7};
ghost use Rattle.weights.specs.declared.row.Place.TheVariants as place;
ghost use Rattle.weights.specs.Row.{row};
ghost use Rattle.weights.specs.Vector as spec;
ghost use Rattle.weights.specs.Rows.{class_rows, client_rows, rows};
ghost use Rattle.weights.specs.Visits.{Visits};

use crate::body::{Body, BodyOwner, visit_body_rows};
use crate::{GetReturn, Place, Row, RowVisitor, Rule, Vector};
use job_bodies::{Class, Client, Plan};

/// Returns condition V4 for the class at index `number`. V4 requires that the weight of a job at
/// its first position is at most its weight in the queue plus the weight of a worker of its pool.
fn take_row(plan: &Plan, vector: &Vector, number: usize, class: &Class) -> Row
    requires fits { IsTrue (spec.vector_fits plan.now vector.now) }
    requires well_formed { IsWellFormed plan.now }
    requires class { slice_get plan.now.classes number ≡ Some class.now }
    ensures { result
        ≡ row V4 (place.Class number) (spec.job_weight vector.now number 0)
        (spec.queued_weight vector.now number + spec.workers_weight vector.now class.now.pool) }
{
    let weights = vector.class_weights(number);
    let worker = vector.workers_weight(class.pool);
    Row::new(
        Rule::V4,
        Place::Class(number),
        weights[1],
        weights[0] + worker,
    )
}

/// Returns condition V6 for the class at index `number`. V6 requires that the weight of a job at
/// the end of its body is at least its weight when it is done plus the weight of a worker of its
/// pool.
fn end_row(plan: &Plan, vector: &Vector, number: usize, class: &Class) -> Row
    requires fits { IsTrue (spec.vector_fits plan.now vector.now) }
    requires well_formed { IsWellFormed plan.now }
    requires class { slice_get plan.now.classes number ≡ Some class.now }
    ensures { let end = length class.now.body in
        result ≡ row V6 (place.Class number) (spec.done_weight plan.now vector.now number + spec.workers_weight vector.now class.now.pool) (spec.job_weight vector.now number end) }
{
    let weights = vector.class_weights(number);
    let worker = vector.workers_weight(class.pool);
    let done = weights.len() - 1;
    Row::new(
        Rule::V6,
        Place::Class(number),
        weights[done] + worker,
        weights[done - 1],
    )
}

/// Passes the conditions for the class at index `number` to the visitor: V4, then the conditions
/// for its actions, and then V6 (see [`Rule`]).
fn visit_class_rows<V: RowVisitor>(
    get_return: GetReturn,
    plan: &Plan,
    vector: &Vector,
    number: usize,
    class: &Class,
    visitor: &mut V,
)
    requires fits { IsTrue (spec.vector_fits plan.now vector.now) }
    requires well_formed { IsWellFormed plan.now }
    requires class { slice_get plan.now.classes number ≡ Some class.now }
    ensures { Visits V.HasSeen visitor.old visitor.new
        (class_rows get_return plan.now vector.now number class.now) }
{
    let body = Body {
        actor: BodyOwner::Class(number),
        actions: &class.body,
        weights: &vector.class_weights(number)[1..],
    };
    visitor.visit(take_row(plan, vector, number, class));
    visit_body_rows(get_return, plan, vector, &body, visitor);
    visitor.visit(end_row(plan, vector, number, class));
}

/// Returns condition V7 for the client kind at index `number`. V7 requires that a client weighs at
/// least as much at its end as at its start.
fn loop_row(plan: &Plan, vector: &Vector, number: usize, client: &Client) -> Row
    requires fits { IsTrue (spec.vector_fits plan.now vector.now) }
    requires well_formed { IsWellFormed plan.now }
    requires client { slice_get plan.now.clients number ≡ Some client.now }
    ensures { let end = length client.now.body in
        result ≡ row V7 (place.Client number) (spec.client_weight vector.now number 0) (spec.client_weight vector.now number end) }
{
    let weights = vector.client_weights(number);
    Row::new(
        Rule::V7,
        Place::Client(number),
        weights[0],
        weights[weights.len() - 1],
    )
}

/// Passes the conditions for the client kind at index `number` to the visitor: those for its
/// actions, and then V7 (see [`Rule`]) if the kind repeats.
fn visit_client_rows<V: RowVisitor>(
    get_return: GetReturn,
    plan: &Plan,
    vector: &Vector,
    number: usize,
    client: &Client,
    visitor: &mut V,
)
    requires fits { IsTrue (spec.vector_fits plan.now vector.now) }
    requires well_formed { IsWellFormed plan.now }
    requires client { slice_get plan.now.clients number ≡ Some client.now }
    ensures { Visits V.HasSeen visitor.old visitor.new
        (client_rows get_return plan.now vector.now number client.now) }
{
    let body = Body {
        actor: BodyOwner::Client(number),
        actions: &client.body,
        weights: vector.client_weights(number),
    };
    visit_body_rows(get_return, plan, vector, &body, visitor);
    if client.repeat {
        visitor.visit(loop_row(plan, vector, number, client));
    }
}

fn visit_classes<V: RowVisitor>(
    get_return: GetReturn,
    plan: &Plan,
    vector: &Vector,
    visitor: &mut V,
)
    requires { IsTrue (spec.vector_fits plan.now vector.now) }
    ensures { let all = flat_map (λ entry. class_rows get_return plan.now vector.now entry.0 entry.1) (enumerate_from 0 plan.now.classes) in
        Visits V.HasSeen visitor.old visitor.new all }
{
    for (number, class) in plan.classes().iter().enumerate() {
        visit_class_rows(get_return, plan, vector, number, class, visitor);
    }
}

fn visit_clients<V: RowVisitor>(
    get_return: GetReturn,
    plan: &Plan,
    vector: &Vector,
    visitor: &mut V,
)
    requires { IsTrue (spec.vector_fits plan.now vector.now) }
    ensures { let all = flat_map (λ entry. client_rows get_return plan.now vector.now entry.0 entry.1) (enumerate_from 0 plan.now.clients) in
        Visits V.HasSeen visitor.old visitor.new all }
{
    for (number, client) in plan.clients().iter().enumerate() {
        visit_client_rows(get_return, plan, vector, number, client, visitor);
    }
}

impl Vector {
    /// Passes the conditions V2 to V7 (see [`Rule`]) to the visitor: first those for each class,
    /// and then those for each client kind. If `get_return` is `NoWeight`, L5 replaces V5.
    pub fn visit_rows<V: RowVisitor>(&self, plan: &Plan, get_return: GetReturn, visitor: &mut V)
        requires fits { IsTrue (spec.vector_fits plan.now self.now) }
        ensures { Visits V.HasSeen visitor.old visitor.new (rows get_return plan.now self.now) }
    {
        visit_classes(get_return, plan, self, visitor);
        visit_clients(get_return, plan, self, visitor);
    }
}
