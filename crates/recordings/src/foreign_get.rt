//! Foreign gets: an actor gets a job that another actor submitted. The other actor has not got the
//! job yet.

use crate::RecordedActor;

/// A get of a job that another actor submitted. The other actor has not got the job yet. No action
/// of a plan corresponds to such a get.
#[derive(Clone, Copy)]
pub struct ForeignGet {
    /// The line number of the get, from 1.
    pub line: usize,
    pub actor: RecordedActor,
    pub job: usize,
}
