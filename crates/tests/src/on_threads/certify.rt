//! Inputs of the command `certify`. The exit status or the fault of the command follows its output.

use crate::on_threads::ended::Ended;
use crate::on_threads::failing;
use sizing_cli::{Command, Status, Task};
use std::alloc::{AllocError, Global};
use std::sync::Wait;
use std::thread::Threads;

// The maximum length of a short input, in bytes.
const SHORT: usize = 250;

const ONE_WORKER: Command = Command::OnThreads(Task::Certify { workers: 1 });

/// Returns the output of `certify` for a plan's text.
pub fn certified<R: Threads + Wait + Sync>(
    rt: &R,
    alloc: Global,
    plan: &[u8],
) -> Result<String, AllocError> {
    let ended = Ended::of_input(rt, alloc, ONE_WORKER, plan)?;
    let mut answer = ended.to_text(alloc)?;
    push_differences(rt, alloc, plan, &ended, &mut answer)?;
    Ok(answer)
}

/// Runs `certify` for a plan's text. If the output is a bundle, returns the first line of the
/// output of `check` for this bundle, with a note if the bundle has another plan. Otherwise returns
/// the output of `certify`.
pub fn certified_and_checked<R: Threads + Wait + Sync>(
    rt: &R,
    alloc: Global,
    plan: &[u8],
) -> Result<String, AllocError> {
    let ended = Ended::of_input(rt, alloc, ONE_WORKER, plan)?;
    let mut answer = checked(alloc, plan, &ended)?;
    push_differences(rt, alloc, plan, &ended, &mut answer)?;
    Ok(answer)
}

// Returns the output of `certify` or, if that is a bundle, the first line of the output of `check`
// for the bundle.
fn checked(alloc: Global, plan: &[u8], ended: &Ended) -> Result<String, AllocError> {
    if ended.outcome != Ok(Status::Done) {
        return ended.to_text(alloc);
    }
    let mut answer = Ended::of_bundle(alloc, &ended.written)?.first_line(alloc)?;
    if !is_bundle_of(plan, &ended.written) {
        answer.push_str(", but of another plan")?;
    }
    Ok(answer)
}

// Returns whether the bundle begins with the plan's text, a newline if the text does not end with
// one, and the separator line.
fn is_bundle_of(plan: &[u8], bundle: &[u8]) -> bool {
    let Some(mut rest) = bundle.strip_prefix(plan) else {
        return false;
    };
    if !plan.is_empty() && !plan.ends_with(b"\n") {
        let Some(behind) = rest.strip_prefix(b"\n") else {
            return false;
        };
        rest = behind;
    }
    rest.starts_with(b"%%\n")
}

// Appends a note to the answer if the result with 64 workers differs from that of one worker. If
// the plan is short, does the same for two workers with single bytes and with calls that fail.
fn push_differences<R: Threads + Wait + Sync>(
    rt: &R,
    alloc: Global,
    plan: &[u8],
    ended: &Ended,
    answer: &mut String,
) -> Result<(), AllocError> {
    let many = Command::OnThreads(Task::Certify { workers: 64 });
    if Ended::of_input(rt, alloc, many, plan)? != *ended {
        answer.push_str(", but not with 64 workers")?;
    }
    if plan.len() > SHORT {
        return Ok(());
    }
    let two = Command::OnThreads(Task::Certify { workers: 2 });
    failing::push_differences(rt, alloc, two, plan, ended, answer)
}
