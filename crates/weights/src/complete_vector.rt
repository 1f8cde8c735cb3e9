//! The complete vector of a sketch. A sketch has only the weights that determine the total. The
//! complete vector has a weight for each position of each body.

ghost use Rattle.std.specs.Prelude.{IfOk, IfSome, IsTrue};
ghost use Rattle.weights.specs.Vector.{vector_fits};

use crate::Vector;
use crate::numbers::number_at;
use crate::sketch::Sketch;
use crate::target::Target;
use crate::weight::Weight;
use job_bodies::{Class, Client, Plan};
use std::alloc::{AllocError, Global};

/// Returns the complete vector of a sketch, with the worker weights `workers`. Returns `None` if
/// the vector has a number above `MAX_WEIGHT`, or if `workers` does not have one weight for each
/// pool.
pub(crate) fn vector_of(
    alloc: Global,
    plan: &Plan,
    target: &Target,
    workers: Vec<u64>,
    sketch: &Sketch,
) -> Result<Option<Vector>, AllocError>
    ensures { IfOk result (λ found. IfSome found (λ vector. IsTrue (vector_fits plan.now vector))) }
{
    let mut classes = Vec::with_capacity(alloc, plan.classes().len())?;
    for (number, class) in plan.classes().iter().enumerate() {
        let worker = number_at(&workers, class.pool);
        classes.push(class_row(alloc, target, sketch, number, class, worker)?)?;
    }
    let mut clients = Vec::with_capacity(alloc, plan.clients().len())?;
    for (number, client) in plan.clients().iter().enumerate() {
        let start = number_at(&sketch.starts, number);
        clients.push(client_row(alloc, target, sketch, client, start)?)?;
    }
    let vector = Vector {
        workers,
        classes,
        clients,
    };
    Ok(if vector.fits(plan) {
        Some(vector)
    } else {
        None
    })
}

/// Returns the weights of a job of class `number`: when it is queued, at each position of its body,
/// and when it is done. `worker` is the weight of a worker of the pool of this class.
fn class_row(
    alloc: Global,
    target: &Target,
    sketch: &Sketch,
    number: usize,
    class: &Class,
    worker: u64,
) -> Result<Vec<u64>, AllocError> {
    let done = number_at(&sketch.done, number);
    let end = done.saturating_add(worker);
    let mut weight = Weight::at_end(end).at_least(target.need_at_end(class));
    let mut row = Vec::new(alloc);
    row.push(done)?;
    row.push(weight.number)?;
    for action in class.body.iter().rev() {
        let need = target.need_at(class, *action);
        weight = sketch
            .before(target, &class.body, *action, weight)
            .at_least(need);
        row.push(weight.number)?;
    }
    let queued = weight.less(worker).at_least(target.need_queued(class));
    row.push(queued.number)?;
    row.reverse();
    Ok(row)
}

/// Returns the weights of a client of this kind at each position of its body, computed from the end
/// of the body to its start. `start` is the weight of the client at the start of its body. At the
/// end, a client that repeats also weighs `start`, and any other client weighs 0.
fn client_row(
    alloc: Global,
    target: &Target,
    sketch: &Sketch,
    client: &Client,
    start: u64,
) -> Result<Vec<u64>, AllocError> {
    let mut weight = Weight::at_end(if client.repeat { start } else { 0 });
    let mut row = Vec::new(alloc);
    row.push(weight.number)?;
    for action in client.body.iter().rev() {
        weight = sketch.before(target, &client.body, *action, weight);
        row.push(weight.number)?;
    }
    row.reverse();
    Ok(row)
}
