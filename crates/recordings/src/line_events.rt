//! The invalidating events that lines report, and the lines that discard one: a get that timed out
//! or was interrupted does not count if the actor's next line gets the same job again.

ghost use Rattle.std.specs.Prelude.{◌≡◌};
ghost use Rattle.recordings.specs.RecordingLine.{line_view};
ghost use Rattle.recordings.specs.LineParts.{is_same_actor, is_of};
ghost use Rattle.recordings.specs.Invalidations as spec;
ghost use Rattle.recordings.specs.InvalidationList as stored;

use crate::invalidation::InvalidatingEvent;
use crate::{Line, RecordedActor};

/// Returns the invalidating event that the line reports, or `None` if it reports none. If the event
/// is a get that timed out or was interrupted, a later line can discard the event.
pub(crate) fn event_of(line: &Line<'_>) -> Option<InvalidatingEvent>
    ensures { result ≡ spec.event_of (line_view line.now) }
{
    match *line {
        Line::Refused { actor, job } => Some(InvalidatingEvent::Refused { actor, job }),
        Line::TimedOut { actor, job } => Some(InvalidatingEvent::TimedOut { actor, job }),
        Line::Interrupted { actor, job } => Some(InvalidatingEvent::Interrupted { actor, job }),
        Line::Cancels { actor, job } => Some(InvalidatingEvent::Cancelled { actor, job }),
        Line::InvokesAny { actor, .. } => Some(InvalidatingEvent::AnyInvoked { actor }),
        Line::Removed { job } => Some(InvalidatingEvent::Removed { job }),
        Line::JobThrew { job } => Some(InvalidatingEvent::Threw { job }),
        Line::Unseen { jobs, .. } => Some(InvalidatingEvent::Unseen { jobs }),
        _ => None,
    }
}

/// Returns the actor of the event if the event is a get that timed out or was interrupted. The next
/// line of this actor can discard the event. Returns `None` for any other event.
pub(crate) fn getter_of(event: InvalidatingEvent) -> Option<RecordedActor>
    ensures { result ≡ stored.getter_of event }
{
    match event {
        InvalidatingEvent::TimedOut { actor, .. } | InvalidatingEvent::Interrupted { actor, .. } =>
            Some(actor),
        _ => None,
    }
}

/// Returns true if both events are of the same type, which means that lines with the same keyword
/// report them.
pub(crate) fn is_same_type(one: InvalidatingEvent, other: InvalidatingEvent) -> bool
    ensures { result ≡ spec.is_same_type one other }
{
    one.word() == other.word()
}

/// Returns true if the line discards the event. This is the case if the event is a get that timed
/// out or was interrupted, and the line reports another get of the same job by the same actor, with
/// any outcome.
pub(crate) fn excuses(event: InvalidatingEvent, line: &Line<'_>) -> bool
    ensures { result ≡ stored.excuses (line_view line.now) event }
{
    match event {
        InvalidatingEvent::TimedOut { actor, job }
        | InvalidatingEvent::Interrupted { actor, job } => { repeats_get(actor, job, line) }
        _ => false,
    }
}

/// Returns true if the event is a get that timed out or was interrupted, and the line belongs to
/// the actor of this get. After such a line, no later line can discard the event.
pub(crate) fn ends_pending(event: InvalidatingEvent, line: &Line<'_>) -> bool
    ensures { result ≡ stored.ends_pending (line_view line.now) event }
{
    match event {
        InvalidatingEvent::TimedOut { actor, .. } | InvalidatingEvent::Interrupted { actor, .. } =>
            { is_line_of(actor, line) }
        _ => false,
    }
}

fn repeats_get(actor: RecordedActor, job: usize, line: &Line<'_>) -> bool
    ensures { result ≡ spec.repeats_get actor job (line_view line.now) }
{
    match *line {
        Line::Got {
            actor: who,
            job: one,
        }
        | Line::TimedOut {
            actor: who,
            job: one,
        }
        | Line::Interrupted {
            actor: who,
            job: one,
        } => is_same_actor(who, actor) && one == job,
        _ => false,
    }
}

/// Returns true if the line reports an action of the actor or the end of the actor.
fn is_line_of(actor: RecordedActor, line: &Line<'_>) -> bool
    ensures { result ≡ is_of actor (line_view line.now) }
{
    match *line {
        Line::RoundEnds { round } => is_same_actor(RecordedActor::Round(round), actor),
        Line::JobEnds { job } | Line::JobThrew { job } => {
            is_same_actor(RecordedActor::Job(job), actor)
        }
        Line::Submits { actor: who, .. }
        | Line::Refused { actor: who, .. }
        | Line::Got { actor: who, .. }
        | Line::TimedOut { actor: who, .. }
        | Line::Interrupted { actor: who, .. }
        | Line::Cancels { actor: who, .. }
        | Line::InvokesAny { actor: who, .. } => is_same_actor(who, actor),
        _ => false,
    }
}

pub(crate) fn is_same_actor(one: RecordedActor, other: RecordedActor) -> bool
    ensures { result ≡ is_same_actor one other }
{
    match (one, other) {
        (RecordedActor::Job(n), RecordedActor::Job(m))
        | (RecordedActor::Round(n), RecordedActor::Round(m)) => n == m,
        _ => false,
    }
}
