//! The labels of actors, looked up in the text of the recording.

ghost use Rattle.std.specs.Prelude.{IfOk, string_bytes};
ghost use Rattle.conformance.specs.Lines.{lines_of};
ghost use Rattle.conformance.specs.LineQuery.{IsLabelOf, IsPoolOf};

use crate::line_query::{LineQuery, first_line, label_in, pool_in};
use recordings::RecordedActor;
use std::alloc::{AllocError, Global};

/// The label of an actor: the names in the line that submits the job or begins the round.
#[derive(Drop)]
pub struct ActorLabel {
    /// The class in the `submit` line of a job, or the client kind in the `begin` line of a round.
    pub name: String,
    /// The pool in the `submit` line of a job. It is empty for a round.
    pub pool: String,
}

/// Returns the label of an actor. Both names of the label are empty if no line submits or begins
/// the actor.
///
/// # Errors
///
/// Returns `AllocError` if memory runs out.
pub(crate) fn label_of(
    alloc: Global,
    recording: &[u8],
    actor: RecordedActor,
) -> Result<ActorLabel, AllocError>
    ensures { IfOk result
        (λ label. IsLabelOf (lines_of recording.now) actor (string_bytes label.name) (string_bytes label.pool)) }
{
    match first_line(recording, LineQuery::label_of(actor)) {
        Some((_, line)) => {
            let name = String::from_str(alloc, label_in(&line))?;
            let pool = String::from_str(alloc, pool_in(&line))?;
            Ok(ActorLabel { name, pool })
        }
        None => Ok(ActorLabel {
            name: String::new(alloc),
            pool: String::new(alloc),
        }),
    }
}

/// Returns the pool in the first line that meets the condition. Returns an empty name if there is
/// no such line, or if this line has no pool.
///
/// # Errors
///
/// Returns `AllocError` if memory runs out.
pub(crate) fn pool_of_first(
    alloc: Global,
    recording: &[u8],
    line_query: LineQuery,
) -> Result<String, AllocError>
    ensures { IfOk result (λ pool. IsPoolOf (lines_of recording.now) line_query (string_bytes pool)) }
{
    match first_line(recording, line_query) {
        Some((_, line)) => String::from_str(alloc, pool_in(&line)),
        None => Ok(String::new(alloc)),
    }
}
