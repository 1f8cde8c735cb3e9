//! Inputs of the command `refute`. The exit status or the fault of the command follows its output.

use crate::on_threads::ended::Ended;
use crate::on_threads::fit::output_of;
use sizing_cli::{Command, RefuteFormat, ReviewCommand, Status, Task};
use std::alloc::{AllocError, Global};
use std::sync::Wait;
use std::thread::Threads;

const STORY: Command = Command::OnThreads(Task::Refute {
    states: 100_000,
    refute_format: RefuteFormat::Story,
});

const BRIEF: Command = Command::OnThreads(Task::Refute {
    states: 1,
    refute_format: RefuteFormat::Story,
});

const BUNDLE: Command = Command::OnThreads(Task::Refute {
    states: 100_000,
    refute_format: RefuteFormat::Bundle,
});

/// Returns the output of `refute` for a plan's text.
pub fn refuted<R: Threads + Wait + Sync>(
    rt: &R,
    alloc: Global,
    plan: &[u8],
) -> Result<String, AllocError> {
    output_of(rt, alloc, STORY, plan)
}

/// Returns the first line of the output of `refute` for a plan's text.
pub fn refuted_head<R: Threads + Wait + Sync>(
    rt: &R,
    alloc: Global,
    plan: &[u8],
) -> Result<String, AllocError> {
    Ended::of_input(rt, alloc, STORY, plan)?.first_line(alloc)
}

/// Returns the first line of the output of `refute` for a plan's text, where `refute` may search
/// only one state.
pub fn refuted_briefly<R: Threads + Wait + Sync>(
    rt: &R,
    alloc: Global,
    plan: &[u8],
) -> Result<String, AllocError> {
    Ended::of_input(rt, alloc, BRIEF, plan)?.first_line(alloc)
}

/// Returns the output of `refute` for a plan's text, as a bundle.
pub fn refuted_bundle<R: Threads + Wait + Sync>(
    rt: &R,
    alloc: Global,
    plan: &[u8],
) -> Result<String, AllocError> {
    output_of(rt, alloc, BUNDLE, plan)
}

/// Returns the output of `replay` for the bundle that `refute` writes for a plan's text. If
/// `refute` writes no bundle, returns the output of `refute`.
pub fn refuted_and_replayed<R: Threads + Wait + Sync>(
    rt: &R,
    alloc: Global,
    plan: &[u8],
) -> Result<String, AllocError> {
    let ended = Ended::of_input(rt, alloc, BUNDLE, plan)?;
    if ended.outcome != Ok(Status::Done) {
        return ended.to_text(alloc);
    }
    Ended::of_input(
        rt,
        alloc,
        Command::Sequential(ReviewCommand::Replay),
        &ended.written,
    )?
    .to_text(alloc)
}
