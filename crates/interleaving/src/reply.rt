//! The replies to event lines.

ghost use Rattle.std.specs.Prelude.{◌++◌, codes, decimal};
ghost use Rattle.support.specs.Pushed.{Pushes};
ghost use Rattle.interleaving.specs.Reply.{numbered, outcome_text, reply_text, summary};

use job_bodies::Plan;
use pool_machine::Outcome;
use std::alloc::AllocError;
use support::{Counter, push_number};

/// The reply to an event line.
#[derive(Clone, Copy)]
pub enum Reply {
    /// The event was performed, with this outcome.
    Performed(Outcome),
    /// The event was not possible.
    NotPossible,
    /// The answer to a `stuck` question: whether the jobs wait only for each other.
    Stuck(bool),
}

/// Appends the output line that replies to an input line, such as `7: queued job 2`, `7: not
/// possible` or `7: stuck yes`. The output line begins with `number`, the number of the input line,
/// counted from 1. `plan` gives the names of the pools.
///
/// # Errors
///
/// Returns [`AllocError`] if memory runs out.
pub fn push_reply(
    text: &mut String,
    plan: &Plan,
    number: &Counter,
    reply: Reply,
) -> Result<(), AllocError>
    ensures { Pushes result text.old text.new (numbered number.now (reply_text plan.now reply)) }
{
    number.push_to(text)?;
    push_reply_text(text, plan, reply)?;
    text.push('\n')
}

/// Appends the part of an output line that follows the line number: a colon, a space and the reply.
/// Does not append the newline.
fn push_reply_text(text: &mut String, plan: &Plan, reply: Reply) -> Result<(), AllocError>
    ensures { Pushes result text.old text.new (codes ": " ++ reply_text plan.now reply) }
{
    match reply {
        Reply::Performed(outcome) => push_outcome(text, plan, outcome),
        Reply::NotPossible => text.push_str(": not possible"),
        Reply::Stuck(true) => text.push_str(": stuck yes"),
        Reply::Stuck(false) => text.push_str(": stuck no"),
    }
}

fn push_outcome(text: &mut String, plan: &Plan, outcome: Outcome) -> Result<(), AllocError>
    ensures { Pushes result text.old text.new (codes ": " ++ outcome_text plan.now outcome) }
{
    match outcome {
        Outcome::Started(job) => push_counted(text, ": started job ", job as u64),
        Outcome::Queued(job) => push_counted(text, ": queued job ", job as u64),
        Outcome::Refused(pool) => push_named(text, ": refused by ", plan.pool_name(pool)),
        Outcome::Rejected(pool, job) => {
            let pool = plan.pool_name(pool);
            write!(text, ": rejected by {pool} as job {job}")
        }
        Outcome::Worked(units) => push_counted(text, ": worked ", u64::from(units)),
        Outcome::Got(job) => push_counted(text, ": got job ", job as u64),
        Outcome::Looped => text.push_str(": looped"),
        Outcome::Finished(job) => push_counted(text, ": finished job ", job as u64),
        Outcome::Took(job) => push_counted(text, ": took job ", job as u64),
        Outcome::Retired => text.push_str(": retired"),
    }
}

/// Appends words followed by a number.
fn push_counted(text: &mut String, words: &str, number: u64) -> Result<(), AllocError>
    ensures { Pushes result text.old text.new (words.now ++ decimal number) }
{
    text.push_str(words)?;
    push_number(text, number)
}

/// Appends words followed by a name.
fn push_named(text: &mut String, words: &str, name: &str) -> Result<(), AllocError>
    ensures { Pushes result text.old text.new (words.now ++ name.now) }
{
    text.push_str(words)?;
    text.push_str(name)
}

/// Appends the last line of a replay, such as `refusals 0, unfinished 2`. It has the number of
/// refused submits and the number of unfinished jobs. If `rejected` is `Some`, the line also has
/// this number of rejected submits, such as `refusals 0, rejected 3, unfinished 2`. A pool without
/// room for a job rejects the submit if the plan allows this, and otherwise refuses the submit.
///
/// # Errors
///
/// Returns [`AllocError`] if memory runs out.
pub fn push_summary(
    text: &mut String,
    refusals: u64,
    rejected: Option<u64>,
    unfinished: u64,
) -> Result<(), AllocError>
    ensures { Pushes result text.old text.new (summary refusals rejected unfinished) }
{
    match rejected {
        Some(rejected) => writeln!(
            text,
            "refusals {refusals}, rejected {rejected}, unfinished {unfinished}"
        ),
        None => writeln!(text, "refusals {refusals}, unfinished {unfinished}"),
    }
}
