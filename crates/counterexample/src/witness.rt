//! A witness that a plan is not safe.

use crate::Ending;
use interleaving::Event;

/// A list of events that are possible in sequence from a plan's initial state, and the ending. The
/// ending is the violation to which the events lead.
#[derive(Drop)]
pub struct Witness {
    pub events: Vec<Event>,
    pub ending: Ending,
}
