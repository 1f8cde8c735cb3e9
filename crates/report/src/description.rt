//! The description of a witness as text. A witness is a counterexample: a list of events whose last
//! event is a refused submit, or after which jobs wait only for each other.

ghost use Rattle.std.specs.Prelude.{◌≡◌, ◌++◌, ◌∷◌, [], IfOk, string_bytes};
ghost use Rattle.support.specs.Pushed.{Pushes};
ghost use Rattle.report.specs.Description as spec;

use crate::active_clients::active_client_count;
use crate::json_ending::members_of;
use crate::story::push_story;
use crate::story_steps::push_named;
use counterexample::{Ending, Reason, Witness};
use job_bodies::Plan;
use std::alloc::{AllocError, Global};

/// Returns the description of a witness. A witness is a counterexample: a list of events whose last
/// event is a refused submit, or after which jobs wait only for each other.
///
/// The first line has the form `refused by db, after 7 events of 2 clients`. The next lines show
/// the events and the pools. If jobs wait only for each other, the lines after these show what each
/// of the jobs waits for, and a last line says why their wait is permanent or what may end it. Long
/// lists of events or of jobs are shortened.
///
/// # Errors
///
/// Returns [`AllocError`] if memory runs out.
pub fn describe(alloc: Global, plan: &Plan, witness: &Witness) -> Result<String, AllocError>
    ensures { IfOk result (λ text. spec.IsDescription plan.now witness.now (string_bytes text)) }
{
    let clients = active_client_count(alloc, &witness.events)?;
    let mut text = String::new(alloc);
    push_head(&mut text, plan, witness, clients)?;
    push_story(
        &mut text,
        alloc,
        plan,
        &witness.events,
        members_of(&witness.ending),
    )?;
    push_why(&mut text, plan, &witness.ending)?;
    Ok(text)
}

/// Appends the first line: how the counterexample ends, the number of its events, and the number of
/// clients that act in them.
fn push_head(
    text: &mut String,
    plan: &Plan,
    witness: &Witness,
    clients: usize,
) -> Result<(), AllocError>
    ensures { Pushes result text.old text.new (spec.head plan.now witness.now clients) }
{
    push_ending(text, plan, &witness.ending)?;
    let events = witness.events.len();
    write!(text, ", after {events} events")?;
    push_clients(text, clients)?;
    text.push('\n')
}

fn push_clients(text: &mut String, clients: usize) -> Result<(), AllocError>
    ensures { Pushes result text.old text.new (spec.of_clients clients) }
{
    if clients == 1 {
        text.push_str(" of 1 client")
    } else {
        write!(text, " of {clients} clients")
    }
}

fn push_ending(text: &mut String, plan: &Plan, ending: &Ending) -> Result<(), AllocError>
    ensures { Pushes result text.old text.new (spec.ending_text plan.now ending.now) }
{
    match ending {
        Ending::Refused(pool) => push_named(text, "refused by ", plan.pool_name(*pool)),
        Ending::StuckForever(members, _) => push_stuck(text, "stuck forever: ", members),
        Ending::StuckNow(members) => push_stuck(text, "stuck now: ", members),
    }
}

fn push_stuck(text: &mut String, how: &str, members: &[usize]) -> Result<(), AllocError>
    ensures { Pushes result text.old text.new (how.now ++ spec.jobs_wait members.now) }
{
    let jobs = members.len();
    write!(text, "{how}{jobs} jobs wait only for each other")
}

/// Appends the last line, for jobs that wait only for each other. The line says why their wait is
/// permanent, or what may end it. Appends nothing if the counterexample ends with a refused submit.
fn push_why(text: &mut String, plan: &Plan, ending: &Ending) -> Result<(), AllocError>
    ensures { Pushes result text.old text.new (spec.why_text plan.now ending.now) }
{
    match ending {
        Ending::Refused(_) => Ok(()),
        Ending::StuckForever(_, reason) => text.push_str(forever_line(*reason)),
        Ending::StuckNow(_) => push_until(text, has_timeouts(plan)),
    }
}

/// Returns the last line for jobs whose wait is permanent.
fn forever_line(reason: Reason) -> &'static str
    ensures { result.now ≡ spec.forever_line reason }
{
    match reason {
        Reason::PoolsAreFull => {
            "forever: each pool with one of them in its queue has all its threads\n"
        }
        Reason::PoolsStayAtCore => {
            "forever: no pool with one of them in its queue ever starts another thread\n"
        }
    }
}

fn push_until(text: &mut String, timeouts: bool) -> Result<(), AllocError>
    ensures { Pushes result text.old text.new (spec.until_line timeouts) }
{
    let started = started_words(timeouts);
    writeln!(
        text,
        "until a pool with one of them in its queue starts {started}"
    )
}

/// Returns whether core threads of some pool may time out.
fn has_timeouts(plan: &Plan) -> bool
    ensures { result ≡ spec.has_timeouts plan.now }
{
    plan.pools().iter().any(|pool| pool.core_timeout)
}

/// Returns the words for a new thread that may end the wait of jobs that wait only for each other.
/// The words are `another thread` if `timeouts` says that core threads of some pool may time out,
/// and otherwise `a thread above core`.
fn started_words(timeouts: bool) -> &'static str
    ensures { result.now ≡ spec.started_words timeouts }
{
    if timeouts {
        "another thread"
    } else {
        "a thread above core"
    }
}
