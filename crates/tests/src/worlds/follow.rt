//! The lines of an input for a world, and the answers to them.

ghost use Rattle.interleaving.specs.OfPlan.{IsReachableView};

use crate::worlds::facts::{counts, facts, push_changed, push_fact, push_job, push_number};
use crate::worlds::sets::push_stuck_sets;
use interleaving::{Event, Outcome, World};
use job_bodies::Plan;
use std::alloc::{AllocError, Global};

/// Performs the lines of an input in order, and returns the answers. The answer to each line is one
/// line.
pub fn followed(
    alloc: Global,
    kind: &str,
    plan: &Plan,
    world: &mut World,
    lines: &str,
) -> Result<String, AllocError>
    requires { IsReachableView plan.now world.old.view }
{
    let mut answer = String::new(alloc);
    let mut known = facts(alloc, plan, world)?;
    for (number, line) in lines.lines().enumerate() {
        let mut said = said_to(alloc, plan, world, line)?;
        push_view(&mut said, alloc, kind, plan, world, &mut known)?;
        let end = if number == 0 { "" } else { "\n" };
        write!(answer, "{end}{said}")?;
    }
    Ok(answer)
}

/// Returns the number of lines that are possible events, and the counts of the world after the last
/// line.
pub fn counted(
    alloc: Global,
    plan: &Plan,
    world: &mut World,
    lines: &str,
) -> Result<String, AllocError>
    requires { IsReachableView plan.now world.old.view }
{
    let mut events = 0_u64;
    for line in lines.lines() {
        if happens(plan, world, line)? {
            events = events.saturating_add(1);
        }
    }
    let mut said = format!(in alloc; "events {events}")?;
    for fact in counts(alloc, world)? {
        push_fact(&mut said, &fact)?;
    }
    Ok(said)
}

// Performs the event of the line if it is possible, and returns whether it is.
fn happens(plan: &Plan, world: &mut World, line: &str) -> Result<bool, AllocError>
    requires { IsReachableView plan.now world.old.view }
    ensures { IsReachableView plan.now world.new.view }
{
    match event(line) {
        Some(event) => Ok(world.step(plan, event)?.is_some()),
        None => Ok(false),
    }
}

// Performs the event of the line, and returns its outcome. If the line is a look-up, returns its
// result.
fn said_to(alloc: Global, plan: &Plan, world: &mut World, line: &str) -> Result<String, AllocError>
    requires { IsReachableView plan.now world.old.view }
    ensures { IsReachableView plan.now world.new.view }
{
    if let Some(event) = event(line) {
        let outcome = world.step(plan, event)?;
        return outcome_text(alloc, outcome);
    }
    looked_up(alloc, plan, world, line)
}

// Appends the results of the look-ups that this kind of input shows after each line.
fn push_view(
    said: &mut String,
    alloc: Global,
    kind: &str,
    plan: &Plan,
    world: &World,
    known: &mut Vec<String>,
) -> Result<(), AllocError>
    requires { IsReachableView plan.now world.now.view }
{
    if kind == "facts" {
        let now = facts(alloc, plan, world)?;
        push_changed(said, known, &now)?;
        *known = now;
    } else if kind == "sets" {
        push_stuck_sets(said, alloc, plan, world)?;
    }
    Ok(())
}

fn event(line: &str) -> Option<Event> {
    let (word, number) = line.split_once(' ')?;
    let number = number.parse::<usize>().ok()?;
    match word {
        "client" => Some(Event::Client(number)),
        "job" => Some(Event::Job(number)),
        "take" => Some(Event::Take(number)),
        "retire" => Some(Event::Retire(number)),
        _ => None,
    }
}

fn outcome_text(alloc: Global, outcome: Option<Outcome>) -> Result<String, AllocError> {
    let Some(outcome) = outcome else {
        return String::from_str(alloc, "not possible");
    };
    match outcome {
        Outcome::Started(job) => format!(in alloc; "started job {job}"),
        Outcome::Queued(job) => format!(in alloc; "queued job {job}"),
        Outcome::Refused(pool) => format!(in alloc; "refused by {pool}"),
        Outcome::Rejected(pool, job) => format!(in alloc; "rejected by {pool} as job {job}"),
        Outcome::Worked(units) => format!(in alloc; "worked {units}"),
        Outcome::Got(job) => format!(in alloc; "got job {job}"),
        Outcome::Looped => String::from_str(alloc, "looped"),
        Outcome::Finished(job) => format!(in alloc; "finished job {job}"),
        Outcome::Took(job) => format!(in alloc; "took job {job}"),
        Outcome::Retired => String::from_str(alloc, "retired"),
    }
}

// Returns the result of the look-up in this line, which is not an event.
fn looked_up(alloc: Global, plan: &Plan, world: &World, line: &str) -> Result<String, AllocError>
    requires { IsReachableView plan.now world.now.view }
{
    let mut said = String::new(alloc);
    if let Some(members) = line.strip_prefix("stuck") {
        let mut numbers = Vec::new(alloc);
        for member in members.split_whitespace() {
            numbers.push(member.parse::<usize>().unwrap_or(usize::MAX))?;
        }
        let is_stuck = world.stuck(plan, &numbers);
        said.push_str(if is_stuck { "yes" } else { "no" })?;
    } else if line == "start" {
        push_changed(&mut said, &[], &facts(alloc, plan, world)?)?;
    } else {
        let (word, number) = line.rsplit_once(' ').unwrap_or((line, ""));
        match (word, number.parse::<usize>()) {
            ("see client", Ok(number)) => push_number(&mut said, world.client(number))?,
            ("see job", Ok(number)) => push_job(&mut said, world.job(number))?,
            _ => said.push_str("no such line")?,
        }
    }
    Ok(said)
}
