//! Vectors of weights. A vector gives a weight to each worker, to each job at each stage (queued,
//! at a position of its body, or done), and to each client at each position of its body.

ghost use Rattle.std.specs.Prelude.{◌≡◌, ◌<◌, length, map};
ghost use Rattle.weights.specs.Vector as spec;

use std::marker::Model;

/// The weights of the workers, the jobs and the clients of a plan, in plan order. If the conditions
/// of the vector hold, its total (see [`Vector::total`]) is an upper bound for a number of jobs,
/// such as the number of jobs in the queue of a pool.
///
/// A certificate has a blocked vector for each pool, and can also have a vector that bounds the
/// pool's queue. A certificate requires that each weight is at most
/// [`MAX_WEIGHT`](job_bodies::MAX_WEIGHT).
#[derive(Debug, Drop)]
pub struct Vector {
    /// The weight of one worker of each pool. A pool has as many workers as its maximum. A worker
    /// has this weight while it runs no job, whether its thread has started or not.
    pub workers: Vec<u64>,
    /// The weights of a job of each class: when it is queued, at each position of its body from 0
    /// to the length of the body, and when it is done.
    pub classes: Vec<Vec<u64>>,
    /// The weights of a client of each kind: at each position of its body from 0 to the length of
    /// the body.
    pub clients: Vec<Vec<u64>>,
}

impl Model for Vector {
    ghost Value = { spec.Vector };

    ghost view = { λ v. record { workers = v.workers.items; classes = map (λ row. row.items) v.classes.items; clients = map (λ row. row.items) v.clients.items } };
}

impl Vector {
    /// Returns the weight of one worker of the pool.
    pub fn workers_weight(&self, pool: usize) -> u64
        requires { pool < length self.now.workers }
        ensures { result ≡ spec.workers_weight self.now pool }
    {
        self.workers[pool]
    }

    /// Returns the weights of a job of the class: when it is queued, at each position of its body,
    /// and when it is done.
    pub fn class_weights(&self, class: usize) -> &[u64]
        requires { class < length self.now.classes }
        ensures { result.now ≡ spec.class_weights self.now class }
    {
        &self.classes[class]
    }

    /// Returns the weights of a client of this kind at each position of its body.
    pub fn client_weights(&self, client: usize) -> &[u64]
        requires { client < length self.now.clients }
        ensures { result.now ≡ spec.client_weights self.now client }
    {
        &self.clients[client]
    }
}
