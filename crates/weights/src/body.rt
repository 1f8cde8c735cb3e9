//! The rows of the actions of a body. Each row compares the weights of an actor before and after
//! one action.

ghost use Rattle.std.specs.Prelude.{◌≡◌, ◌<◌, ℕ, List, length, slice_index, slice_index_or, IsTrue};
ghost use Rattle.job_bodies.specs.declared.action.Action.TheVariants.{Work};
ghost use Rattle.job_bodies.specs.Plan.{submitted_class};
ghost use Rattle.weights.specs.Vector as spec;
ghost use Rattle.weights.specs.GetReturn.{returned_weight};
ghost use Rattle.weights.specs.Body.{place_at, IsWeighed};
ghost use Rattle.weights.specs.Rows.{action_row, body_rows};
ghost use Rattle.weights.specs.Visits.{Visits};

use crate::{GetReturn, Place, Row, RowVisitor, Rule, Vector};
use job_bodies::{Action, Plan};

/// The class or client kind that a body belongs to.
#[derive(Clone, Copy)]
pub(crate) enum BodyOwner {
    /// The class with this index.
    Class(usize),
    /// The client kind with this index.
    Client(usize),
}

impl BodyOwner {
    /// Returns the place of the action at `position` of the owner's body.
    fn place_at(self, position: usize) -> Place
        ensures { result ≡ place_at self position }
    {
        match self {
            BodyOwner::Class(class) => Place::ClassAction(class, position),
            BodyOwner::Client(client) => Place::ClientAction(client, position),
        }
    }
}

/// A body, and the weight of an actor at each position of the body.
#[derive(Clone, Copy)]
pub(crate) struct Body<'a> {
    pub(crate) actor: BodyOwner,
    pub(crate) actions: &'a [Action],
    pub(crate) weights: &'a [u64],
}

/// Returns the index of the class that is submitted at position `submit` of a body, or 0 if there
/// is no submit at this position. `actions` has the actions of the body.
pub fn submitted_class(actions: &[Action], submit: usize) -> usize
    ensures { result ≡ submitted_class actions.now submit }
{
    match actions.get(submit) {
        Some(Action::Submit(class)) => *class,
        _ => 0,
    }
}

/// Returns the weight that an actor receives when it gets a job of the class. This is the weight of
/// the done job, or 0 if `get_return` is `NoWeight`.
fn returned_weight(get_return: GetReturn, plan: &Plan, vector: &Vector, class: usize) -> u64
    requires fits { IsTrue (spec.vector_fits plan.now vector.now) }
    requires class { class < length plan.now.classes }
    ensures { result ≡ returned_weight get_return plan.now vector.now class }
{
    match get_return {
        GetReturn::DoneWeight => {
            let weights = vector.class_weights(class);
            weights[weights.len() - 1]
        }
        GetReturn::NoWeight => 0,
    }
}

/// Returns the condition for the action at `position` of the body: V2 for `work`, V3 for a submit,
/// and V5 or L5 for a get. [`Rule`] explains these conditions.
fn action_row(
    get_return: GetReturn,
    plan: &Plan,
    vector: &Vector,
    body: &Body,
    position: usize,
) -> Row
    requires fits { IsTrue (spec.vector_fits plan.now vector.now) }
    requires weighed { IsWeighed plan.now body.now.actions.now body.now.weights.now }
    requires position { position < length body.now.actions.now }
    ensures { let actions = body.now.actions.now in
        result ≡ action_row get_return plan.now vector.now (slice_index body.now.weights.now) (place_at body.now.actor) actions position (slice_index_or actions position (Work 0)) }
{
    let place = body.actor.place_at(position);
    let weight = body.weights[position];
    let next = body.weights[position + 1];
    let (rule, left, right) = match body.actions[position] {
        Action::Work(_) => (Rule::V2, next, weight),
        Action::Submit(class) => (Rule::V3, next + vector.class_weights(class)[0], weight),
        Action::Get(submit) => {
            let class = submitted_class(body.actions, submit);
            (
                get_return.rule(),
                next,
                weight + returned_weight(get_return, plan, vector, class),
            )
        }
    };
    Row::new(rule, place, left, right)
}

/// Passes one condition to the visitor for each action of the body, in order.
pub(crate) fn visit_body_rows<V: RowVisitor>(
    get_return: GetReturn,
    plan: &Plan,
    vector: &Vector,
    body: &Body,
    visitor: &mut V,
)
    requires fits { IsTrue (spec.vector_fits plan.now vector.now) }
    requires weighed { IsWeighed plan.now body.now.actions.now body.now.weights.now }
    ensures { let rows = body_rows get_return plan.now vector.now (slice_index body.now.weights.now) (place_at body.now.actor) body.now.actions.now in
        Visits V.HasSeen visitor.old visitor.new rows }
{
    for position in 0..body.actions.len() {
        visitor.visit(action_row(get_return, plan, vector, body, position));
    }
}
