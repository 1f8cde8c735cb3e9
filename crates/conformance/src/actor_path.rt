//! The path of an actor.

use crate::PathState;
use recordings::RecordedStep;

/// The path of an actor, and whether the actor has ended.
#[derive(Drop)]
pub(crate) struct ActorPath {
    pub(crate) path: Vec<RecordedStep>,
    pub(crate) path_state: PathState,
}
