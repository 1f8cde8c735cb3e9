//! The list of the events that invalidate a SAFE answer, collected line by line.

ghost use Rattle.std.specs.Prelude.{◌≡◌, ◌+◌, [], ℕ, None, OnOk, IfOk};
ghost use Rattle.std.specs.List.{list_any};
ghost use Rattle.std.specs.BTreeMap.{values};
ghost use Rattle.recordings.specs.RecordingLine.{line_view};
ghost use Rattle.recordings.specs.LineParts as parts;
ghost use Rattle.recordings.specs.Invalidations as spec;
ghost use Rattle.recordings.specs.InvalidationList as stored;

use crate::invalidation::{InvalidatingEvent, Invalidation};
use crate::line_events::{ends_pending, event_of, excuses, getter_of, is_same_type};
use crate::line_parts::actor_of;
use crate::pending_lines::PendingLines;
use crate::{Line, RecordedActor};
use std::alloc::{AllocError, Global};
use std::collections::BTreeMap;

/// A list of invalidating events in the lines read so far. The list has each event that may turn
/// out to be the first of its type in the recording.
///
/// A get that timed out or was interrupted is a *pending* event until the next line of its actor.
/// If that line reports another get of the same job, with any outcome, the list discards the
/// pending event. Once the list has an event that is not pending, it adds no further events of this
/// event's type.
///
/// Processing a line takes one look-up of its actor. If the actor has a pending event, a second
/// look-up finds this event.
#[derive(Drop)]
pub(crate) struct InvalidationList {
    // The events, by the numbers of their lines.
    events: BTreeMap<usize, Invalidation>,
    // The lines of the pending events.
    pending: PendingLines,
    // At most one event of each type. For each event in this list, `events` has an event of the
    // same type that is not pending.
    certain: Vec<InvalidatingEvent>,
}

impl InvalidationList {
    /// Creates an empty list.
    pub(crate) fn new(alloc: Global) -> InvalidationList
        ensures kept { stored.kept_in result ≡ [] }
        ensures valid { (number : ℕ) → stored.IsBefore number result }
    {
        InvalidationList {
            events: BTreeMap::new(alloc),
            pending: PendingLines::new(alloc),
            certain: Vec::new(alloc),
        }
    }

    /// Processes line `number`.
    ///
    /// # Errors
    ///
    /// Returns `AllocError` if memory runs out.
    pub(crate) fn take(&mut self, number: usize, line: &Line<'_>) -> Result<(), AllocError>
        ensures kept { stored.IsBefore number self.old
            → OnOk result
            (stored.IsWithEntry (stored.entry_of number (line_view line.now))
            (stored.entries_after_line (line_view line.now) (stored.kept_in self.old))
            (stored.kept_in self.new)) }
        ensures valid { stored.IsBefore number self.old
            → OnOk result (stored.IsBefore (number + 1) self.new) }
    {
        self.settle_line(line)?;
        match event_of(line) {
            Some(event) => self.push(Invalidation {
                line: number,
                event,
            }),
            None => Ok(()),
        }
    }

    /// Returns the first event of each type, in the order of the lines. A get that timed out or was
    /// interrupted counts, unless a later line has discarded it.
    ///
    /// # Errors
    ///
    /// Returns `AllocError` if memory runs out.
    pub(crate) fn firsts(&self, alloc: Global) -> Result<Vec<Invalidation>, AllocError>
        ensures { IfOk result
            (λ firsts. firsts.items ≡ spec.first_of_each (stored.invalidations_in (stored.kept_in self.now))) }
    {
        firsts_of(alloc, &self.events)
    }

    // Settles the pending event of the line's actor, if there is one. The line either discards the
    // event or makes it certain: no later line can then discard it.
    fn settle_line(&mut self, line: &Line<'_>) -> Result<(), AllocError>
        ensures { (number : ℕ)
            → stored.IsBefore number self.old
            → OnOk result (stored.IsSettledBy number (line_view line.now) self.old self.new) }
    {
        match actor_of(line) {
            Some(actor) => self.settle(actor, line),
            None => Ok(()),
        }
    }

    fn settle(&mut self, actor: RecordedActor, line: &Line<'_>) -> Result<(), AllocError>
        ensures { (number : ℕ)
            → parts.actor_of (line_view line.now) ≡ Some actor
            → stored.IsBefore number self.old
            → OnOk result (stored.IsSettledBy number (line_view line.now) self.old self.new) }
    {
        match self.pending.remove(actor) {
            Some(number) => { settle_event(&mut self.events, &mut self.certain, number, line) }
            None => Ok(()),
        }
    }

    // Appends the event, unless the list has an event of the same type that is not pending.
    fn push(&mut self, one: Invalidation) -> Result<(), AllocError>
        ensures { stored.IsBefore one.line self.old
            → stored.IsNotPending self.old.pending one.event
            → OnOk result (stored.IsPushed one self.old self.new) }
    {
        if has_type(&self.certain, one.event) {
            return Ok(());
        }
        note_event(&mut self.pending, &mut self.certain, one.event, one.line)?;
        self.events.insert(one.line, one)?;
        Ok(())
    }
}

// Stores the event of line `line` as pending if a later line can discard it. Otherwise stores it as
// certain.
fn note_event(
    pending: &mut PendingLines,
    certain: &mut Vec<InvalidatingEvent>,
    event: InvalidatingEvent,
    line: usize,
) -> Result<(), AllocError>
    ensures { OnOk result
        (stored.IsNoted event line pending.old certain.old.items pending.new certain.new.items) }
{
    match getter_of(event) {
        Some(actor) => pending.insert(actor, line),
        None => push_type(certain, event),
    }
}

// Settles the pending event of line `number`. If `line` discards the event, removes it from
// `events`. If `line` is any other line of the event's actor, the event becomes certain.
fn settle_event(
    events: &mut BTreeMap<usize, Invalidation>,
    certain: &mut Vec<InvalidatingEvent>,
    number: usize,
    line: &Line<'_>,
) -> Result<(), AllocError>
    ensures { OnOk result
        (stored.SettlesEvent (line_view line.now) number events.old certain.old.items events.new certain.new.items) }
{
    match events.get(&number).copied() {
        Some(one) => {
            if excuses(one.event, line) {
                events.remove(&number);
                Ok(())
            } else if ends_pending(one.event, line) {
                push_type(certain, one.event)
            } else {
                Ok(())
            }
        }
        None => Ok(()),
    }
}

/// Appends the event to `certain`, unless `certain` has an event of the same type. No later line
/// can discard an event in `certain`.
fn push_type(
    certain: &mut Vec<InvalidatingEvent>,
    event: InvalidatingEvent,
) -> Result<(), AllocError>
    ensures { OnOk result (stored.AddsType event certain.old.items certain.new.items) }
{
    if !has_type(certain, event) {
        certain.push(event)?;
    }
    Ok(())
}

fn has_type(certain: &[InvalidatingEvent], event: InvalidatingEvent) -> bool
    ensures { result ≡ list_any (stored.is_of_type event) certain.now }
{
    certain.iter().any(|one| is_same_type(*one, event))
}

fn firsts_of(
    alloc: Global,
    events: &BTreeMap<usize, Invalidation>,
) -> Result<Vec<Invalidation>, AllocError>
    ensures { IfOk result (λ firsts. firsts.items ≡ spec.first_of_each (values events.now)) }
{
    let mut firsts = Vec::new(alloc);
    for one in events.values() {
        push_new_type(&mut firsts, *one)?;
    }
    Ok(firsts)
}

/// Appends `invalidation`, unless the list already has one whose event is of the same type.
fn push_new_type(
    invalidations: &mut Vec<Invalidation>,
    invalidation: Invalidation,
) -> Result<(), AllocError>
    ensures { OnOk result (invalidations.new.items ≡ stored.with_new_type invalidation invalidations.old.items) }
{
    if !has_event_of_type(invalidations, invalidation.event) {
        invalidations.push(invalidation)?;
    }
    Ok(())
}

fn has_event_of_type(invalidations: &[Invalidation], event: InvalidatingEvent) -> bool
    ensures { result ≡ list_any (spec.has_type event) invalidations.now }
{
    invalidations
        .iter()
        .any(|one| is_same_type(one.event, event))
}
