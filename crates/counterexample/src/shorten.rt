//! The reduction of a script to a shorter script with the same violation.

use crate::replays::Replay;
use crate::scripts::Script;
use crate::walks::Violation;
use job_bodies::Plan;
use pool_machine::Event;
use std::alloc::{AllocError, Global};

/// The fixed part of the limit on replayed events. To shorten a script of `n` events, at most
/// [`WHOLE_REPLAYS`] times `n`, plus `MAX_REPLAYED`, events are replayed.
const MAX_REPLAYED: u64 = 6_000_000;
/// The part of the limit on replayed events that grows with the script: this number for each of its
/// events (see [`MAX_REPLAYED`]).
const WHOLE_REPLAYS: u64 = 24;
/// The maximum number of rounds, each of which tries every kind of removal.
const MAX_ROUNDS: usize = 8;
/// The maximum number of part sizes that are tried. The search first tries to remove large parts of
/// a script, then parts of half this size, and so on. The maximum is large enough for every script.
const MAX_HALVES: usize = 40;

/// The state of the shortening of a script: the script so far, and the number of events that may
/// still be replayed.
#[derive(Drop)]
struct Shortener<'a> {
    alloc: Global,
    plan: &'a Plan,
    violation: Violation,
    script: Script,
    left: u64,
}

/// A set of events of a script. The shortening tries to remove all events of a set at once.
#[derive(Clone, Copy)]
enum Removal {
    /// The events in which a thread ends.
    Retirements,
    /// The events of jobs.
    JobSteps,
    /// The events in which a thread takes a job from a queue.
    Takes,
    /// The events of the clients whose numbers are at least `from` and less than `to`.
    Clients { from: usize, to: usize },
    /// The events whose indexes are at least `from` and less than `to`.
    Places { from: usize, to: usize },
    /// The events equal to `event` whose indexes are at least `from`.
    Equal { from: usize, event: Event },
}

impl Removal {
    /// Returns `true` if the set has this event, whose index in the script is `place`.
    fn removes(self, place: usize, event: Event) -> bool {
        match self {
            Removal::Retirements => matches!(event, Event::Retire(_)),
            Removal::JobSteps => matches!(event, Event::Job(_)),
            Removal::Takes => matches!(event, Event::Take(_)),
            Removal::Clients { from, to } => is_client_between(event, from, to),
            Removal::Places { from, to } => from <= place && place < to,
            Removal::Equal {
                from,
                event: removed,
            } => from <= place && event == removed,
        }
    }
}

/// Returns `true` if this is an event of a client whose number is at least `from` and less than
/// `to`.
fn is_client_between(event: Event, from: usize, to: usize) -> bool {
    match event {
        Event::Client(client) => from <= client && client < to,
        _ => false,
    }
}

/// Shortens a script, which is a list of events that ends in `violation`. The result ends in the
/// same violation or in a refused submit, and is not longer than the given script.
pub(crate) fn shorten_script(
    alloc: Global,
    plan: &Plan,
    script: Script,
    violation: Violation,
) -> Result<Script, AllocError> {
    let whole = (script.steps.len() as u64).saturating_mul(WHOLE_REPLAYS);
    let mut shortener = Shortener {
        alloc,
        plan,
        violation,
        script,
        left: MAX_REPLAYED.saturating_add(whole),
    };
    for _ in 0..MAX_ROUNDS {
        let before = shortener.script.steps.len();
        shortener.without_kinds()?;
        shortener.without_clients()?;
        shortener.without_chunks()?;
        shortener.with_actors_still()?;
        if shortener.script.steps.len() == before {
            break;
        }
    }
    Ok(shortener.script)
}

impl Shortener<'_> {
    /// Tries to remove all events of a kind, for each of these kinds in order:
    ///
    /// - events in which a thread ends, if there are any,
    /// - events of jobs, and
    /// - events in which a thread takes a job from a queue.
    fn without_kinds(&mut self) -> Result<(), AllocError> {
        if self.has_retirement() {
            self.try_without(Removal::Retirements)?;
        }
        self.try_without(Removal::JobSteps)?;
        self.try_without(Removal::Takes)
    }

    fn has_retirement(&self) -> bool {
        self.script
            .steps
            .iter()
            .any(|act| matches!(act.event, Event::Retire(_)))
    }

    /// Tries to remove groups of clients with consecutive numbers, large groups before small ones.
    fn without_clients(&mut self) -> Result<(), AllocError> {
        let mut size = self.script.kinds.len();
        for _ in 0..MAX_HALVES {
            let chunks = parts(self.script.kinds.len(), size);
            for chunk in (0..chunks).rev() {
                let from = chunk.saturating_mul(size);
                let to = from.saturating_add(size);
                self.try_without(Removal::Clients { from, to })?;
            }
            if size <= 1 {
                break;
            }
            size /= 2;
        }
        Ok(())
    }

    /// Tries to remove runs of consecutive events, long runs before short ones.
    fn without_chunks(&mut self) -> Result<(), AllocError> {
        let mut size = self.script.steps.len() / 2;
        for _ in 0..MAX_HALVES {
            let chunks = parts(self.script.steps.len(), size);
            for chunk in (0..chunks).rev() {
                let from = chunk.saturating_mul(size);
                let to = from.saturating_add(size);
                self.try_without(Removal::Places { from, to })?;
            }
            if size <= 1 {
                break;
            }
            size /= 2;
        }
        Ok(())
    }

    /// Tries, for each event, to remove this event and all equal later events. Two events are equal
    /// in three cases:
    ///
    /// - Both are steps of the same actor.
    /// - In both, a thread of the same pool takes a job.
    /// - In both, a thread of the same pool ends.
    fn with_actors_still(&mut self) -> Result<(), AllocError> {
        for from in (0..self.script.steps.len()).rev() {
            if let Some(act) = self.script.steps.get(from).copied() {
                let event = act.event;
                self.try_without(Removal::Equal { from, event })?;
            }
        }
        Ok(())
    }

    /// Replays the script without the events that `removal` removes. Skips events that are no
    /// longer possible. Does nothing if the script has more events than may still be replayed.
    ///
    /// The performed events become the new script if two conditions hold:
    ///
    /// - There are fewer events than before.
    /// - The events still end in the violation or in a refused submit.
    fn try_without(&mut self, removal: Removal) -> Result<(), AllocError> {
        let events = self.script.steps.len() as u64;
        if self.left < events {
            return Ok(());
        }
        self.left = self.left.saturating_sub(events);
        let kept = self.kept_without(removal)?;
        if kept.contains(&false) {
            self.try_replay(&kept)?;
        }
        Ok(())
    }

    /// Returns, for each event of the script, whether `removal` keeps it.
    fn kept_without(&self, removal: Removal) -> Result<Vec<bool>, AllocError> {
        let mut kept = Vec::with_capacity(self.alloc, self.script.steps.len())?;
        for (place, act) in self.script.steps.iter().enumerate() {
            kept.push(!removal.removes(place, act.event))?;
        }
        Ok(kept)
    }

    /// Replays the events of the script whose elements in `kept` are `true`. The performed events
    /// become the new script under the conditions of [`try_without`](Shortener::try_without).
    fn try_replay(&mut self, kept: &[bool]) -> Result<(), AllocError> {
        let replay = Replay::of(self.alloc, self.plan, &self.script, kept)?;
        if replay.has_violation(self.alloc, self.violation)?
            && replay.script.steps.len() < self.script.steps.len()
        {
            self.script = replay.script;
        }
        Ok(())
    }
}

/// Returns an upper bound on the number of parts if a list of `length` elements is divided into
/// parts of `size` elements. The last part may be shorter.
fn parts(length: usize, size: usize) -> usize {
    length.checked_div(size).unwrap_or(0).saturating_add(1)
}
