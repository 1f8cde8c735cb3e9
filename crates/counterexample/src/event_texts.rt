//! The event lines of a witness.

ghost use Rattle.std.specs.Prelude.{◌≡◌, ◌++◌, ◌∷◌, [], flat_map, decimal};
ghost use Rattle.support.specs.Pushed.{Pushes};
ghost use Rattle.interleaving.specs.LineText.{event_text, lines_text};
ghost use Rattle.counterexample.specs.EventLines as spec;

use crate::{Ending, Witness};
use interleaving::Event;
use job_bodies::Plan;
use std::alloc::AllocError;
use support::push_number;

/// Appends each event of the witness on a line of its own, in the format that the command `replay`
/// reads. If the witness ends with jobs that wait only for each other, then appends a line with
/// their numbers, such as `stuck 0 2`.
///
/// # Errors
///
/// Returns [`AllocError`] if memory runs out.
pub fn push_event_lines(text: &mut String, plan: &Plan, witness: &Witness) -> Result<(), AllocError>
    ensures { Pushes result text.old text.new
        (lines_text plan.now (spec.witness_lines witness.now)) }
{
    push_lines(text, plan, &witness.events, stuck_members(&witness.ending))
}

/// Returns the numbers of the jobs that wait only for each other after the last event. The list is
/// empty if the last event is a refused submit.
pub(crate) fn stuck_members(ending: &Ending) -> &[usize]
    ensures { result.now ≡ spec.stuck_members ending.now }
{
    match ending {
        Ending::Refused(_) => &[],
        Ending::StuckForever(members, _) => members,
        Ending::StuckNow(members) => members,
    }
}

fn push_lines(
    text: &mut String,
    plan: &Plan,
    mut events: &[Event],
    members: &[usize],
) -> Result<(), AllocError>
    ensures { Pushes result text.old text.new
        (lines_text plan.now (spec.lines_of events.now members.now)) }
{
    while let Some((event, rest)) = events.split_first() {
        push_event(text, plan, *event)?;
        events = rest;
    }
    push_question(text, plan, members)
}

fn push_event(text: &mut String, plan: &Plan, event: Event) -> Result<(), AllocError>
    ensures { Pushes result text.old text.new (event_text plan.now event ++ 10 ∷ []) }
{
    push_event_text(text, plan, event)?;
    text.push('\n')
}

fn push_event_text(text: &mut String, plan: &Plan, event: Event) -> Result<(), AllocError>
    ensures { Pushes result text.old text.new (event_text plan.now event) }
{
    match event {
        Event::Client(client) => push_numbered(text, "client ", client as u64),
        Event::Job(job) => push_numbered(text, "job ", job as u64),
        Event::Take(pool) => push_named(text, "take ", plan.pool_name(pool)),
        Event::Retire(pool) => push_named(text, "retire ", plan.pool_name(pool)),
    }
}

fn push_numbered(text: &mut String, words: &str, number: u64) -> Result<(), AllocError>
    ensures { Pushes result text.old text.new (words.now ++ decimal number) }
{
    text.push_str(words)?;
    push_number(text, number)
}

fn push_named(text: &mut String, words: &str, name: &str) -> Result<(), AllocError>
    ensures { Pushes result text.old text.new (words.now ++ name.now) }
{
    text.push_str(words)?;
    text.push_str(name)
}

/// Appends a line with the numbers of the jobs in `members`, such as `stuck 0 2`. Appends nothing
/// if `members` is empty.
fn push_question(text: &mut String, _plan: &Plan, members: &[usize]) -> Result<(), AllocError>
    ensures { Pushes result text.old text.new (lines_text _plan.now (spec.question members.now)) }
{
    if members.is_empty() {
        return Ok(());
    }
    text.push_str("stuck")?;
    push_numbers(text, members)?;
    text.push('\n')
}

/// Appends each number, with a space before it.
fn push_numbers(text: &mut String, mut numbers: &[usize]) -> Result<(), AllocError>
    ensures { Pushes result text.old text.new (flat_map (λ n. 32 ∷ decimal n) numbers.now) }
{
    while let Some((number, rest)) = numbers.split_first() {
        push_numbered(text, " ", *number as u64)?;
        numbers = rest;
    }
    Ok(())
}
