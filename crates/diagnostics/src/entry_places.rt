//! The places of a plan's entries in its text.

ghost use Rattle.std.specs.Prelude.{◌≡◌, IfOk, length};
ghost use Rattle.diagnostics.specs.PlanPlaces as spec;

use crate::entry::list_of;
use job_bodies::{Action, Part, Plan};
use plan_text::{Places, TextPlace};
use std::alloc::{AllocError, Global};

/// The places of a plan's entries in the plan's text. A place is a line and a column, or `None` if
/// it was not found.
#[derive(Drop)]
pub struct PlanPlaces {
    /// The places of each pool.
    pub pools: Vec<PoolPlaces>,
    /// The places of each class.
    pub classes: Vec<BodyPlaces>,
    /// The places of each client kind.
    pub clients: Vec<BodyPlaces>,
}

/// The places of a pool's name, of its sizes and of its key `core_timeout`.
#[derive(Clone, Copy)]
pub struct PoolPlaces {
    pub name: Option<TextPlace>,
    pub core: Option<TextPlace>,
    pub max: Option<TextPlace>,
    pub queue: Option<TextPlace>,
    pub core_timeout: Option<TextPlace>,
}

/// The places of a class or client kind in the plan's text: those of its name and of each action of
/// its body.
#[derive(Drop)]
pub struct BodyPlaces {
    pub name: Option<TextPlace>,
    pub actions: Vec<Option<TextPlace>>,
}

/// Returns the places of the plan's entries in the plan's text. The result has an element for each
/// pool, class, client kind and action of the plan. The contract promises nothing about the places
/// in these elements.
///
/// # Errors
///
/// Returns [`AllocError`] if memory runs out.
pub fn plan_places(alloc: Global, text: &[u8], plan: &Plan) -> Result<PlanPlaces, AllocError>
    ensures { IfOk result (spec.FitPlan plan.now) }
{
    let places = Places::of(alloc, text)?;
    let pools = pool_places(alloc, &places, plan)?;
    let classes = class_places(alloc, &places, plan)?;
    let clients = client_places(alloc, &places, plan)?;
    Ok(PlanPlaces {
        pools,
        classes,
        clients,
    })
}

fn pool_places(
    alloc: Global,
    places: &Places<'_>,
    plan: &Plan,
) -> Result<Vec<PoolPlaces>, AllocError>
    ensures { IfOk result (λ found. length found.items ≡ length plan.now.pools) }
{
    let list = list_of(Part::Pool);
    let mut found = Vec::new(alloc);
    for index in 0..plan.pools().len() {
        found.push(PoolPlaces {
            name: places.value(list, index, "name"),
            core: places.value(list, index, "core"),
            max: places.value(list, index, "max"),
            queue: places.value(list, index, "queue"),
            core_timeout: places.value(list, index, "core_timeout"),
        })?;
    }
    Ok(found)
}

fn class_places(
    alloc: Global,
    places: &Places<'_>,
    plan: &Plan,
) -> Result<Vec<BodyPlaces>, AllocError>
    ensures { IfOk result
        (λ found. spec.action_counts found.items ≡ spec.class_lengths plan.now.classes) }
{
    let mut found = Vec::new(alloc);
    for (index, class) in plan.classes().iter().enumerate() {
        found.push(body_places(alloc, places, Part::Class, index, &class.body)?)?;
    }
    Ok(found)
}

fn client_places(
    alloc: Global,
    places: &Places<'_>,
    plan: &Plan,
) -> Result<Vec<BodyPlaces>, AllocError>
    ensures { IfOk result
        (λ found. spec.action_counts found.items ≡ spec.client_lengths plan.now.clients) }
{
    let mut found = Vec::new(alloc);
    for (index, client) in plan.clients().iter().enumerate() {
        found.push(body_places(alloc, places, Part::Client, index, &client.body)?)?;
    }
    Ok(found)
}

fn body_places(
    alloc: Global,
    places: &Places<'_>,
    part: Part,
    index: usize,
    body: &[Action],
) -> Result<BodyPlaces, AllocError>
    ensures { IfOk result (λ places. length places.actions.items ≡ length body.now) }
{
    let list = list_of(part);
    let mut actions = Vec::new(alloc);
    for action in 0..body.len() {
        actions.push(places.element(list, index, "body", action))?;
    }
    Ok(BodyPlaces {
        name: places.value(list, index, "name"),
        actions,
    })
}
