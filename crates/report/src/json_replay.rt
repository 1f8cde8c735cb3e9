//! The event lines of a witness as a JSON list. The command `replay` reads lines of this form. A
//! witness is a counterexample: a list of events whose last event is a refused submit, or after
//! which jobs wait only for each other.

ghost use Rattle.std.specs.Prelude.{◌≡◌, ◌++◌, ◌∷◌, map, flat_map, codes, decimal, IfOk, OnOk};
ghost use Rattle.serde_json.specs.Data.{string};
ghost use Rattle.serde_json.specs.View.{view};
ghost use Rattle.support.specs.Pushed.{Pushes};
ghost use Rattle.interleaving.specs.EventLine.{Perform};
ghost use Rattle.interleaving.specs.LineText.{event_text};
ghost use Rattle.counterexample.specs.EventLines as lines;
ghost use Rattle.report.specs.JsonWitness as spec;

use crate::json_ending::members_of;
use crate::json_values::{array_value, push_value};
use crate::story_steps::push_named;
use counterexample::Witness;
use interleaving::Event;
use job_bodies::Plan;
use serde_json::Value;
use std::alloc::{AllocError, Global};
use support::push_number;

/// Converts the events of a counterexample to a JSON list of lines, which the command `replay`
/// reads. The list has one line for each event. If jobs wait only for each other after the events,
/// the list also has a `stuck` line with the numbers of these jobs.
pub(crate) fn replay_value(
    alloc: Global,
    plan: &Plan,
    witness: &Witness,
) -> Result<Value, AllocError>
    ensures { IfOk result (λ value. view value ≡ spec.replay_data plan.now witness.now) }
{
    let mut values = Vec::new(alloc);
    push_events(&mut values, alloc, plan, &witness.events)?;
    push_question(&mut values, alloc, plan, members_of(&witness.ending))?;
    Ok(array_value(values))
}

fn push_events(
    values: &mut Vec<Value>,
    alloc: Global,
    plan: &Plan,
    mut events: &[Event],
) -> Result<(), AllocError>
    ensures { OnOk result (map view values.new.items
        ≡ map view values.old.items ++ map (λ event. spec.replay_line plan.now (Perform event)) events.entry.now) }
{
    while let Some((event, rest)) = events.split_first() {
        push_value(values, event_value(alloc, plan, *event))?;
        events = rest;
    }
    Ok(())
}

fn event_value(alloc: Global, plan: &Plan, event: Event) -> Result<Value, AllocError>
    ensures { IfOk result (λ value. view value ≡ spec.replay_line plan.now (Perform event)) }
{
    let mut text = String::new(alloc);
    push_event(&mut text, plan, event)?;
    Ok(Value::String(text))
}

fn push_event(text: &mut String, plan: &Plan, event: Event) -> Result<(), AllocError>
    ensures { Pushes result text.old text.new (event_text plan.now event) }
{
    match event {
        Event::Client(client) => push_numbered(text, "client ", client),
        Event::Job(job) => push_numbered(text, "job ", job),
        Event::Take(pool) => push_named(text, "take ", plan.pool_name(pool)),
        Event::Retire(pool) => push_named(text, "retire ", plan.pool_name(pool)),
    }
}

fn push_numbered(text: &mut String, words: &str, number: usize) -> Result<(), AllocError>
    ensures { Pushes result text.old text.new (words.now ++ decimal number) }
{
    text.push_str(words)?;
    push_number(text, number as u64)
}

/// Appends a `stuck` line with the numbers of the jobs in `members`, which wait only for each
/// other. Appends nothing if `members` is empty.
fn push_question(
    values: &mut Vec<Value>,
    alloc: Global,
    _plan: &Plan,
    members: &[usize],
) -> Result<(), AllocError>
    ensures { OnOk result (map view values.new.items
        ≡ map view values.old.items ++ map (spec.replay_line _plan.now) (lines.question members.now)) }
{
    if members.is_empty() {
        return Ok(());
    }
    push_value(values, stuck_value(alloc, members))
}

fn stuck_value(alloc: Global, members: &[usize]) -> Result<Value, AllocError>
    ensures { IfOk result (λ value.
        view value ≡ string (codes "stuck" ++ flat_map (λ n. 32 ∷ decimal n) members.now)) }
{
    let mut text = String::new(alloc);
    text.push_str("stuck")?;
    push_numbers(&mut text, members)?;
    Ok(Value::String(text))
}

/// Appends each number, with a space before it.
fn push_numbers(text: &mut String, mut numbers: &[usize]) -> Result<(), AllocError>
    ensures { Pushes result text.old text.new (flat_map (λ n. 32 ∷ decimal n) numbers.entry.now) }
{
    while let Some((number, rest)) = numbers.split_first() {
        push_numbered(text, " ", *number)?;
        numbers = rest;
    }
    Ok(())
}
