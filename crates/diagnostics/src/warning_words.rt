//! The messages of lints.

ghost use Rattle.std.specs.Prelude.{IfOk, string_bytes};
ghost use Rattle.diagnostics.specs.WarningWords as spec;

use crate::circle_words::words_of_circle;
use crate::lint::Lint;
use crate::lint_conditions::grows_if_full;
use crate::open_futures::is_get_around;
use crate::strings::string_at;
use job_bodies::{Action, Part, Plan, Pool};
use plan_text::TextPlace;
use std::alloc::{AllocError, Global};

/// Returns the lint's message: what was found in the plan, and what this means for the program's
/// answer, such as SAFE. `place` is the lint's place in the plan's text. If the plan does not have
/// the entry that the lint names, the message can be empty or lack a name.
pub(crate) fn words_of(
    alloc: Global,
    text: &[u8],
    place: TextPlace,
    plan: &Plan,
    lint: Lint,
) -> Result<String, AllocError>
    ensures { IfOk result (λ words. spec.AreWordsFor plan.now lint (string_bytes words)) }
{
    match lint {
        Lint::SafeAtCore => words_of_core(alloc, plan),
        Lint::SubmitsItself(class) => words_of_circle(alloc, plan, class),
        Lint::NeverGot(part, number, action) => {
            words_of_submit(alloc, text, place, plan, part, number, action)
        }
        Lint::NothingToAsk => String::from_str(
            alloc,
            "the plan has no pools and no clients, so there is nothing to decide",
        ),
        Lint::NoClients => String::from_str(
            alloc,
            "the plan has no clients, so nothing is submitted and any sizes are safe; add a [[client]] for each kind of thread that submits from outside the pools",
        ),
        Lint::NothingSubmitted => {
            String::from_str(alloc, "no client submits anything, so any sizes are safe")
        }
        Lint::PoolWaitsForItself(pool) => words_of_last_thread(alloc, plan, pool),
        Lint::PoolWithoutJobs(pool) => words_of_idle_pool(alloc, plan, pool),
        Lint::UselessMax(pool) => words_of_max(alloc, plan, pool),
        Lint::UselessMayReject(pool, most) => words_of_key(alloc, plan, pool, most),
        Lint::NeverRejects(pool) => words_of_unbounded(alloc, plan, pool),
        Lint::QueueFarAbove(pool, most) => words_of_queue(alloc, plan, pool, most),
        Lint::ClassWithoutJobs(class) => words_of_class(alloc, plan, class),
        Lint::RunInCaller(class) => words_of_handler(alloc, plan, class),
        Lint::GoesOnce(client) => words_of_rounds(alloc, plan, client),
        Lint::Crowd(client) => words_of_crowd(alloc, plan, client),
        Lint::WorkLikeASize(_, _, _, units) => format!(in alloc;
            "work {units} looks like a number of threads or jobs, but it is a duration and has no effect on the answer"
        ),
        Lint::OpenFuture(part, number, action) => {
            words_of_future(alloc, text, place, plan, part, number, action)
        }
        Lint::QueueMayGrow(part, number, action) => {
            words_of_growth(alloc, plan, part, number, action)
        }
        Lint::StaleCertificate => String::from_str(alloc, "the certificate is stale"),
    }
}

fn words_of_core(alloc: Global, plan: &Plan) -> Result<String, AllocError> {
    let count = plan
        .pools()
        .iter()
        .filter(|pool| grows_if_full(pool))
        .count();
    let noun = if count == 1 { "pool" } else { "pools" };
    let mut words = format!(in alloc; "with max = core in {noun} ")?;
    push_maxes(&mut words, plan, count)?;
    Ok(words)
}

/// Appends the name and the maximum of each pool that starts threads above its core size when its
/// queue is full, and only then (see [`grows_if_full`]). [`at_core`](crate::at_core) lowers the
/// maximums of these pools to their core sizes. `count` is the number of these pools. Then appends
/// that the plan is SAFE.
fn push_maxes(words: &mut String, plan: &Plan, count: usize) -> Result<(), AllocError> {
    let mut number = 0usize;
    for pool in plan.pools() {
        if grows_if_full(pool) {
            number = number.saturating_add(1);
            push_max(words, number, count, pool)?;
        }
    }
    words.push_str(", this plan is SAFE")
}

fn push_max(
    words: &mut String,
    number: usize,
    count: usize,
    pool: &Pool,
) -> Result<(), AllocError> {
    let name = pool.name.as_str();
    let max = pool.max;
    if number > 1 {
        words.push_str(if number == count { " and " } else { ", " })?;
    }
    write!(words, "{name} (now {max})")
}

fn words_of_submit(
    alloc: Global,
    text: &[u8],
    place: TextPlace,
    plan: &Plan,
    part: Part,
    number: usize,
    action: usize,
) -> Result<String, AllocError> {
    let (kind, name, body) = entry_of(plan, part, number);
    let submit = submit_text(alloc, text, place, plan, body, action)?;
    format!(in alloc;
        "{kind} {name}, action {action} \"{submit}\": no get waits for this job, so no certificate bounds the number of these jobs"
    )
}

/// Returns the word `client` or `class`, and the name and the body of the client kind or class with
/// this number. If there is no such client kind or class, the name and the body are empty.
fn entry_of(plan: &Plan, part: Part, number: usize) -> (&'static str, &str, &[Action]) {
    match part {
        Part::Client => match plan.client_at(number) {
            Some(client) => ("client", client.name.as_str(), client.body.as_slice()),
            None => ("client", "", &[]),
        },
        _ => match plan.class_at(number) {
            Some(class) => ("class", class.name.as_str(), class.body.as_slice()),
            None => ("class", "", &[]),
        },
    }
}

fn words_of_future(
    alloc: Global,
    text: &[u8],
    place: TextPlace,
    plan: &Plan,
    part: Part,
    number: usize,
    action: usize,
) -> Result<String, AllocError> {
    let (kind, name, body) = entry_of(plan, part, number);
    let submit = submit_text(alloc, text, place, plan, body, action)?;
    let open = open_class(plan, body, action);
    format!(in alloc;
        "{kind} {name}, action {action} \"{submit}\": if the exception leaves this body, the future of {open} is never got"
    )
}

fn words_of_growth(
    alloc: Global,
    plan: &Plan,
    part: Part,
    number: usize,
    action: usize,
) -> Result<String, AllocError> {
    let (kind, name, body) = entry_of(plan, part, number);
    let class = submitted_name(plan, body, action);
    let pool = pool_submitted_to(plan, body, action);
    format!(in alloc;
        "{kind} {name}: submits {class} again and again and never gets it, and the queue of pool {pool} is unbounded: it may grow until memory is used up"
    )
}

/// Finds a job with a submit before this position of the body and a get after this position.
/// Returns the name of the job's class. If there are several such jobs, takes the job with the
/// first get. Returns an empty name if there is no such job.
fn open_class<'a>(plan: &'a Plan, body: &[Action], position: usize) -> &'a str {
    for (number, action) in body.iter().enumerate() {
        if let Action::Get(submit) = *action {
            if is_get_around(position, number, *action) {
                return submitted_name(plan, body, submit);
            }
        }
    }
    ""
}

/// Returns the text of a submit. This text is the string at this place of the plan's text. If there
/// is no such string, the result is `submit` and the name of the submitted class. `action` is the
/// index of the submit in the body.
fn submit_text(
    alloc: Global,
    text: &[u8],
    place: TextPlace,
    plan: &Plan,
    body: &[Action],
    action: usize,
) -> Result<String, AllocError> {
    if let Some(written) = string_at(text, place) {
        return String::from_str(alloc, written);
    }
    let class = submitted_name(plan, body, action);
    format!(in alloc; "submit {class}")
}

/// Returns the name of the class that the action submits. Returns an empty name if the action is
/// not a submit.
fn submitted_name<'a>(plan: &'a Plan, body: &[Action], action: usize) -> &'a str {
    match body.get(action) {
        Some(Action::Submit(class)) => plan.class_name(*class),
        _ => "",
    }
}

/// Returns the name of the pool to which the action submits a job. Returns an empty name if the
/// action is not a submit.
fn pool_submitted_to<'a>(plan: &'a Plan, body: &[Action], action: usize) -> &'a str {
    match body.get(action) {
        Some(Action::Submit(class)) => pool_of_class(plan, *class),
        _ => "",
    }
}

/// Returns the name of the pool that runs the jobs of this class. Returns an empty name if there is
/// no such class.
fn pool_of_class(plan: &Plan, class: usize) -> &str {
    match plan.class_at(class) {
        Some(class) => plan.pool_name(class.pool),
        None => "",
    }
}

fn words_of_last_thread(alloc: Global, plan: &Plan, number: usize) -> Result<String, AllocError> {
    let name = plan.pool_name(number);
    format!(in alloc;
        "pool {name}: its last thread may wait for a job of this pool, since core threads may time out: do not allow it, or give the inner jobs a pool of their own"
    )
}

fn words_of_idle_pool(alloc: Global, plan: &Plan, number: usize) -> Result<String, AllocError> {
    let name = plan.pool_name(number);
    format!(in alloc; "no job is ever submitted to pool {name}, so its sizes do not matter")
}

fn words_of_max(alloc: Global, plan: &Plan, number: usize) -> Result<String, AllocError> {
    let Some(pool) = plan.pool_at(number) else {
        return Ok(String::new(alloc));
    };
    let name = pool.name.as_str();
    let core = pool.core;
    let max = pool.max;
    format!(in alloc;
        "pool {name}: max {max} has no effect, and max = {core} does the same: a thread above core {core} starts only if a submit finds the queue full, and none does"
    )
}

fn words_of_queue(
    alloc: Global,
    plan: &Plan,
    number: usize,
    most: u64,
) -> Result<String, AllocError> {
    let Some(pool) = plan.pool_at(number) else {
        return Ok(String::new(alloc));
    };
    let name = pool.name.as_str();
    let queue = pool.queue;
    format!(in alloc;
        "pool {name}: queue {queue} is far more than needed: at most {most} jobs wait at once"
    )
}

fn words_of_key(
    alloc: Global,
    plan: &Plan,
    number: usize,
    most: u64,
) -> Result<String, AllocError> {
    let name = plan.pool_name(number);
    let jobs = if most == 1 { "job waits" } else { "jobs wait" };
    format!(in alloc;
        "pool {name}: may_reject has no effect: at most {most} {jobs} in its queue at once"
    )
}

fn words_of_unbounded(alloc: Global, plan: &Plan, number: usize) -> Result<String, AllocError> {
    let name = plan.pool_name(number);
    format!(in alloc; "pool {name}: may_reject has no effect: its queue is unbounded")
}

fn words_of_handler(alloc: Global, plan: &Plan, number: usize) -> Result<String, AllocError> {
    let name = plan.class_name(number);
    let pool = pool_of_class(plan, number);
    format!(in alloc;
        "class {name}: if the handler of pool {pool} runs it in the caller (CallerRunsPolicy), write its body in place"
    )
}

fn words_of_class(alloc: Global, plan: &Plan, number: usize) -> Result<String, AllocError> {
    let name = plan.class_name(number);
    format!(in alloc;
        "class {name} is never submitted, neither by a client nor by a job that a client causes"
    )
}

fn words_of_rounds(alloc: Global, plan: &Plan, number: usize) -> Result<String, AllocError> {
    let Some(client) = plan.client_at(number) else {
        return Ok(String::new(alloc));
    };
    let name = client.name.as_str();
    let count = client.count;
    let rounds = if count == 1 { "round" } else { "rounds" };
    format!(in alloc;
        "client {name} runs its body once, so the answer covers {count} {rounds} in all; write repeat = true if it runs again and again"
    )
}

fn words_of_crowd(alloc: Global, plan: &Plan, number: usize) -> Result<String, AllocError> {
    let Some(client) = plan.client_at(number) else {
        return Ok(String::new(alloc));
    };
    let name = client.name.as_str();
    let count = client.count;
    format!(in alloc;
        "client {name}: count {count}, but it submits to pools with one core thread whose queues hold fewer jobs"
    )
}
