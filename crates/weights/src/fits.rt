//! The test that a vector has the shape of a plan, and that each number of the vector is at most
//! [`MAX_WEIGHT`]. A body with `n` actions has the positions 0 to `n`. Position 0 is before the
//! first action, and position `n` is after the last action.

ghost use Rattle.std.specs.Prelude.{◌≡◌, ◌+◌, ◌==◌, length, map};
ghost use Rattle.std.specs.List.{list_all, enumerate_from};
ghost use Rattle.weights.specs.Vector as spec;

use crate::Vector;
use job_bodies::{MAX_WEIGHT, Plan};

/// Returns whether each number is at most [`MAX_WEIGHT`].
pub fn are_small(numbers: &[u64]) -> bool
    ensures { result ≡ list_all spec.is_small numbers.now }
{
    numbers.iter().all(|number| *number <= MAX_WEIGHT)
}

/// Returns whether each number of each list in `rows` is at most [`MAX_WEIGHT`].
#[tactic(auto, using(crate::proofs::Loops::images_turn))]
fn are_small_rows(rows: &[Vec<u64>]) -> bool
    ensures { result ≡ list_all (list_all spec.is_small) (map (λ row. row.items) rows.now) }
{
    for row in rows {
        if !are_small(row) {
            return false;
        }
    }
    true
}

impl Vector {
    /// Returns whether the vector has the shape of the plan, and each number is at most
    /// [`MAX_WEIGHT`]. A vector has the shape of the plan if it has these numbers:
    ///
    /// - For each pool, one number for a worker.
    /// - For each class, one number for a queued job, one for a job at each position of the body,
    ///   and one for a done job.
    /// - For each client kind, one number for a client at each position of the body.
    pub fn fits(&self, plan: &Plan) -> bool
        ensures { result ≡ spec.vector_fits plan.now self.now }
    {
        self.has_shape(plan) && self.has_small_numbers()
    }

    /// Returns whether the vector has the shape of the plan, which means that it has these numbers:
    ///
    /// - For each pool, one number for a worker.
    /// - For each class, one number for a queued job, one for a job at each position of the body,
    ///   and one for a done job.
    /// - For each client kind, one number for a client at each position of the body.
    fn has_shape(&self, plan: &Plan) -> bool
        ensures { result ≡ spec.has_shape plan.now self.now }
    {
        self.workers.len() == plan.pools().len()
            && self.classes.len() == plan.classes().len()
            && self.clients.len() == plan.clients().len()
            && self.has_class_shapes(plan)
            && self.has_client_shapes(plan)
    }

    /// Returns whether the vector has the right number of weights for each class: one for a queued
    /// job, one for each position of the body, and one for a done job.
    fn has_class_shapes(&self, plan: &Plan) -> bool
        requires { length self.now.classes ≡ length plan.now.classes }
        ensures { result
            ≡ list_all
            (λ entry. length (spec.class_weights self.now entry.0) == length entry.1.body + 3)
            (enumerate_from 0 plan.now.classes) }
    {
        for (number, class) in plan.classes().iter().enumerate() {
            if self.class_weights(number).len() != class.body.as_slice().len() + 3 {
                return false;
            }
        }
        true
    }

    /// Returns whether the vector has the right number of weights for each client kind: one for
    /// each position of the body.
    fn has_client_shapes(&self, plan: &Plan) -> bool
        requires { length self.now.clients ≡ length plan.now.clients }
        ensures { result
            ≡ list_all
            (λ entry. length (spec.client_weights self.now entry.0) == length entry.1.body + 1)
            (enumerate_from 0 plan.now.clients) }
    {
        for (number, client) in plan.clients().iter().enumerate() {
            if self.client_weights(number).len() != client.body.as_slice().len() + 1 {
                return false;
            }
        }
        true
    }

    /// Returns whether each number of the vector is at most [`MAX_WEIGHT`].
    pub fn has_small_numbers(&self) -> bool
        ensures { result ≡ spec.has_small_numbers self.now }
    {
        are_small(&self.workers) && are_small_rows(&self.classes) && are_small_rows(&self.clients)
    }
}
