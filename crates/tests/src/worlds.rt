//! The outcomes of the events of a world, and the results of its look-ups.

mod facts;
mod follow;
mod sets;

use crate::files::Suite;
use crate::worlds::follow::{counted, followed};
use interleaving::World;
use plan_text::read_plan;
use std::alloc::{AllocError, Global};

/// The suite for worlds. A world is a state of a plan's machine. An input is the text of a plan, a
/// line `%%`, and lines for a world of the plan. Clients, jobs and pools are identified by their
/// numbers. A line is an event or a look-up:
///
/// - `client 0`, `job 0`, `take 0` and `retire 0` are events.
/// - `start` prints the results of all look-ups.
/// - `stuck 0 1` tests whether these jobs wait only for each other.
/// - `see client 0` and `see job 0` print a client or a job.
///
/// The answer has a line for each of these lines: the outcome of the event or the result of the
/// look-up. What follows in the line depends on the kind of the input:
///
/// - `facts`: each changed result of a look-up.
/// - `sets`: each set of jobs that wait only for each other. Only the first six jobs can be
///   members.
/// - `outcomes`: nothing.
///
/// If the kind is `counts`, the answer is only one line: the number of events that were possible,
/// and the counts of the world after the last event. If the text of the plan has a fault, the
/// answer to an input of any kind is this fault.
pub struct Worlds;

impl Suite for Worlds {
    fn answer(&self, alloc: Global, kind: &str, input: &[u8]) -> Result<String, AllocError> {
        let input = String::from_utf8_lossy(alloc, input)?;
        let (text, lines) = input.split_once("\n%%\n").unwrap_or((&input, ""));
        match read_plan(alloc, text.as_bytes()) {
            Ok(plan) => {
                let mut world = World::start(alloc, &plan)?;
                if kind == "counts" {
                    counted(alloc, &plan, &mut world, lines)
                } else {
                    followed(alloc, kind, &plan, &mut world, lines)
                }
            }
            Err(fault) => fault.to_string(alloc),
        }
    }
}
