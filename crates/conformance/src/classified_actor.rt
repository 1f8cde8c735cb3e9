//! The result of classifying an actor.

use crate::FamilyMatch;
use recordings::{RecordedActor, RecordedStep};

/// A classified actor: its path, and the classes or kinds that it can belong to.
#[derive(Drop)]
pub struct ClassifiedActor {
    pub actor: RecordedActor,
    /// The class in the `submit` line of a job, or the kind in the `begin` line of a round.
    pub label: String,
    /// The pool in the `submit` line of a job. It is empty for a round.
    pub pool: String,
    /// The submits and gets of the actor, in order.
    pub path: Vec<RecordedStep>,
    /// The classes that the job can belong to, or the kinds that the round can belong to. If
    /// [`is_decided`](FamilyMatch::is_decided) is false in the result of a job that the path
    /// submits, it is false here too.
    pub family: FamilyMatch,
}
