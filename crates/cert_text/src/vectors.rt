//! The vectors in certificates: a number for each pool, and a row of numbers for each class and
//! each client kind.

ghost use Rattle.std.specs.Prelude.{◌≡◌, length, map};
ghost use Rattle.support.specs.Reading.{read_each};
ghost use Rattle.support.specs.Results.{Gives};
ghost use Rattle.serde_json.specs.View.{view};
ghost use Rattle.cert_text.specs.Values as value_spec;
ghost use Rattle.cert_text.specs.Vectors as spec;

use crate::fault::CertError;
use crate::values::{check_keys, elements_of, number_of, value_at};
use job_bodies::Plan;
use serde_json::Value;
use std::alloc::Global;
use weights::Vector;

/// Returns the values as numbers if each of them is an unsigned 64-bit integer, and a fault
/// otherwise.
fn numbers_in(alloc: Global, values: &[Value]) -> Result<Vec<u64>, CertError>
    ensures { Gives (λ numbers. numbers.items) result
        (read_each (λ _. value_spec.number_of) 0 (map view values.now)) }
{
    let mut numbers = Vec::with_capacity(alloc, values.len())?;
    for value in values {
        let number = number_of(value)?;
        numbers.push(number)?;
    }
    Ok(numbers)
}

/// Returns the numbers of the value if it is a list of `count` unsigned 64-bit integers, and a
/// fault otherwise.
#[tactic(auto, unfolding(crate::specs::Vectors::numbers_of))]
pub fn numbers_of(alloc: Global, value: &Value, count: usize) -> Result<Vec<u64>, CertError>
    ensures { Gives (λ numbers. numbers.items) result (spec.numbers_of count (view value.now)) }
{
    let values = elements_of(value, count)?;
    numbers_in(alloc, values)
}

/// Returns the number of weights in the row of a class. A row has a weight for a queued job, one
/// for each position of the body from 0 to its length, and one for a done job. If the plan has no
/// class with this index, returns 3, as for an empty body.
pub fn class_points(plan: &Plan, class: usize) -> usize
    ensures { result ≡ spec.class_points plan.now class }
{
    match plan.class_at(class) {
        Some(class) => class.body.len() + 3,
        None => 3,
    }
}

/// Returns the number of weights in the row of a client kind: one for each position of the body
/// from 0 to its length. If the plan has no client kind with this index, returns 1, as for an empty
/// body.
pub fn client_points(plan: &Plan, client: usize) -> usize
    ensures { result ≡ spec.client_points plan.now client }
{
    match plan.client_at(client) {
        Some(client) => client.body.len() + 1,
        None => 1,
    }
}

fn class_rows_in(alloc: Global, plan: &Plan, values: &[Value]) -> Result<Vec<Vec<u64>>, CertError>
    ensures { Gives (λ rows. map (λ row. row.items) rows.items) result
        (read_each (λ k. spec.numbers_of (spec.class_points plan.now k)) 0 (map view values.now)) }
{
    let mut rows = Vec::with_capacity(alloc, values.len())?;
    for (class, value) in values.iter().enumerate() {
        let row = numbers_of(alloc, value, class_points(plan, class))?;
        rows.push(row)?;
    }
    Ok(rows)
}

fn client_rows_in(alloc: Global, plan: &Plan, values: &[Value]) -> Result<Vec<Vec<u64>>, CertError>
    ensures { Gives (λ rows. map (λ row. row.items) rows.items) result
        (read_each (λ c. spec.numbers_of (spec.client_points plan.now c)) 0 (map view values.now)) }
{
    let mut rows = Vec::with_capacity(alloc, values.len())?;
    for (client, value) in values.iter().enumerate() {
        let row = numbers_of(alloc, value, client_points(plan, client))?;
        rows.push(row)?;
    }
    Ok(rows)
}

/// Reads the value as a list with one row of numbers for each class, and returns the rows. Returns
/// a fault if the value is not such a list.
#[tactic(auto, unfolding(crate::specs::Vectors::class_rows))]
fn class_rows(alloc: Global, plan: &Plan, value: &Value) -> Result<Vec<Vec<u64>>, CertError>
    ensures { Gives (λ rows. map (λ row. row.items) rows.items) result
        (spec.class_rows plan.now (view value.now)) }
{
    let values = elements_of(value, plan.classes().len())?;
    class_rows_in(alloc, plan, values)
}

/// Reads the value as a list with one row of numbers for each client kind, and returns the rows.
/// Returns a fault if the value is not such a list.
#[tactic(auto, unfolding(crate::specs::Vectors::client_rows))]
fn client_rows(alloc: Global, plan: &Plan, value: &Value) -> Result<Vec<Vec<u64>>, CertError>
    ensures { Gives (λ rows. map (λ row. row.items) rows.items) result
        (spec.client_rows plan.now (view value.now)) }
{
    let values = elements_of(value, plan.clients().len())?;
    client_rows_in(alloc, plan, values)
}

/// Returns the value as a vector if it has the shape of the plan, and a fault otherwise. Does not
/// check that the numbers are at most [`MAX_WEIGHT`](job_bodies::MAX_WEIGHT).
#[tactic(auto, unfolding(crate::specs::Vectors::vector_of))]
pub fn vector_of(alloc: Global, plan: &Plan, value: &Value) -> Result<Vector, CertError>
    ensures { Gives (λ vector. vector) result (spec.vector_of plan.now (view value.now)) }
{
    check_keys(value, 3)?;
    let workers = value_at(value, "workers")?;
    let workers = numbers_of(alloc, workers, plan.pools().len())?;
    let classes = value_at(value, "classes")?;
    let classes = class_rows(alloc, plan, classes)?;
    let clients = value_at(value, "clients")?;
    let clients = client_rows(alloc, plan, clients)?;
    Ok(Vector {
        workers,
        classes,
        clients,
    })
}
