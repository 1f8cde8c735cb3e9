//! The `replay` command: performs events on a plan and reports the outcome of each.

ghost use Rattle.std.specs.Prelude.{◌≡◌, IfOk, ◌<◌, ◌^◌, [], length, OnOk};
ghost use Rattle.sizing_cli.specs.Report.{replay as replay_spec, replay_of_lines};
ghost use Rattle.pool_machine.specs.Reach.{start};
ghost use Rattle.interleaving.specs.LiveView.{live_view};
ghost use Rattle.interleaving.specs.EventLine.{all_from, line_seen};
ghost use Rattle.interleaving.specs.OfPlan.{IsReachableView};
ghost use Rattle.sizing_cli.specs.PartialTranscript.{IsWithEnding, IsTranscribed, RepliesToLine};
ghost use Rattle.sizing_cli.specs.declared.status.Status.TheVariants as statuses;
ghost use Rattle.sizing_cli.specs.Transcript as spec;

use crate::answer::{Answer, bad_event, input_too_long};
use interleaving::{EventLine, EventLines, Outcome, Reply, World, push_summary};
use job_bodies::{MAX_EVENT_BYTES, Plan};
use locked_runner::may_reject;
use std::alloc::{AllocError, Global};
use support::Counter;

/// Replays event lines on a plan, in one pass, and returns the answer. If the lines together are
/// too long, or if a line is malformed, the answer is only this fault.
#[tactic(auto, using(crate::proofs::LinesInOrder::lines_in_order))]
pub fn replay(alloc: Global, plan: &Plan, lines: &[u8]) -> Result<Answer, AllocError>
    ensures { IfOk result (λ answer. answer ≡ replay_spec plan.now lines.now) }
{
    if lines.len() > MAX_EVENT_BYTES {
        return input_too_long(alloc);
    }
    replay_lines(alloc, plan, EventLines::new(plan, lines))
}

/// Replays the event lines from the plan's start state, and returns the answer with the replies.
/// The replay stops at the first impossible event, and the reply to this event is the last reply.
/// The lines after this event are still parsed.
///
/// If a line is malformed, the answer reports only the first malformed line, without any replies.
/// So the answer is known only after all lines are read.
fn replay_lines(alloc: Global, plan: &Plan, lines: EventLines<'_>) -> Result<Answer, AllocError>
    requires { length lines < 2 ^ 64 }
    ensures { IfOk result (λ answer. answer ≡ replay_of_lines plan.now (all_from 0 lines.entry)) }
{
    let mut world = World::start(alloc, plan)?;
    replay_in(alloc, plan, lines, &mut world)
}

/// Replays the event lines in `world`, which is in the plan's start state.
fn replay_in(
    alloc: Global,
    plan: &Plan,
    lines: EventLines<'_>,
    world: &mut World,
) -> Result<Answer, AllocError>
    requires few { length lines < 2 ^ 64 }
    requires started { world.old.view ≡ live_view plan.now (start plan.now) }
    ensures { IfOk result (λ answer. answer ≡ replay_of_lines plan.now (all_from 0 lines.entry)) }
{
    let mut answer = Answer::empty(alloc);
    let mut rejected = 0;
    match push_replies(alloc, plan, lines, world, &mut rejected, &mut answer)? {
        None => finish(answer, plan, world, rejected),
        Some(bad) => bad_event(alloc, bad),
    }
}

/// Appends the replies to the event lines, up to and including the first impossible event. Adds to
/// `rejected` the number of jobs that pools rejected. Returns the number of the first malformed
/// line, counted from 1, or `None` if no line is malformed.
fn push_replies(
    alloc: Global,
    plan: &Plan,
    mut lines: EventLines<'_>,
    world: &mut World,
    rejected: &mut u64,
    answer: &mut Answer,
) -> Result<Option<u64>, AllocError>
    requires few { length lines < 2 ^ 64 }
    requires started { world.old.view ≡ live_view plan.now (start plan.now) }
    requires none { rejected.old ≡ 0 }
    requires empty { answer.old ≡ record { text = []; status = statuses.Done } }
    ensures { IfOk result
        (IsTranscribed plan.now lines.entry world.new.view rejected.new answer.new) }
{
    let mut number = Counter::new(alloc);
    let mut is_over = false;
    while let Some(line) = lines.next() {
        number.count()?;
        let Ok(line) = line else {
            return Ok(Some(number.get()));
        };
        if !is_over {
            let reply = reply_to(alloc, world, plan, line)?;
            answer.push_reply(plan, &number, reply)?;
            count_rejection(rejected, reply)?;
            is_over = is_last(reply);
        }
    }
    Ok(None)
}

/// Returns the reply to an event line. If the line is a `stuck` line, finds out whether the jobs of
/// the line are stuck. If the line has an event, performs this event.
fn reply_to(
    alloc: Global,
    world: &mut World,
    plan: &Plan,
    line: EventLine<'_>,
) -> Result<Reply, AllocError>
    requires { IsReachableView plan.now world.old.view }
    ensures { IfOk result
        (λ reply. RepliesToLine plan.now world.old.view world.new.view (line_seen line.entry) reply) }
{
    match line {
        EventLine::Perform(event) => match world.step(plan, event)? {
            Some(outcome) => Ok(Reply::Performed(outcome)),
            None => Ok(Reply::NotPossible),
        },
        EventLine::Stuck(members) => {
            // `World::stuck` searches the list by bisection, so its numbers must be in ascending
            // order.
            let mut members = members.to_vec(alloc)?;
            members.sort_unstable();
            Ok(Reply::Stuck(world.stuck(plan, &members)))
        }
    }
}

fn is_last(reply: Reply) -> bool
    ensures { result ≡ spec.is_last reply }
{
    matches!(reply, Reply::NotPossible)
}

/// Adds 1 to `rejected`, the number of rejected jobs, if the reply reports a rejected job.
fn count_rejection(rejected: &mut u64, reply: Reply) -> Result<(), AllocError>
    ensures { OnOk result (rejected.new ≡ spec.count_rejection reply rejected.old) }
{
    if is_rejection(reply) {
        *rejected = rejected.checked_add(1).ok_or(AllocError)?;
    }
    Ok(())
}

fn is_rejection(reply: Reply) -> bool
    ensures { result ≡ spec.is_rejection reply }
{
    matches!(reply, Reply::Performed(Outcome::Rejected(_, _)))
}

/// Appends the last line, and returns the answer. The last line has the numbers of refused submits
/// and of unfinished jobs. If a pool of the plan may reject jobs, the last line also has the number
/// of rejected jobs.
fn finish(
    mut answer: Answer,
    plan: &Plan,
    world: &World,
    rejected: u64,
) -> Result<Answer, AllocError>
    ensures { IfOk result (λ whole. IsWithEnding plan.now world.now.view rejected answer whole) }
{
    let shown = if may_reject(plan) {
        Some(rejected)
    } else {
        None
    };
    push_summary(
        &mut answer.text,
        world.refusals(),
        shown,
        world.unfinished(),
    )?;
    Ok(answer)
}
