//! Inputs of the command `fit`. The exit status or the fault of the command follows its output.

ghost use Rattle.command_line.specs.Command.{IsInRange};

use crate::on_threads::ended::Ended;
use crate::on_threads::failing::run_with_failures;
use sizing_cli::{Command, SizesForm, Status, Task};
use std::alloc::{AllocError, Global};
use std::sync::Wait;
use std::thread::Threads;

// The maximum length of a short input, in bytes.
const SHORT: usize = 250;

const SIZES: Command = Command::OnThreads(Task::Fit {
    sizes_form: SizesForm::Sizes,
});

const BUNDLE: Command = Command::OnThreads(Task::Fit {
    sizes_form: SizesForm::Bundle,
});

/// Returns the output of `fit` for a plan's text, as sizes.
pub fn fitted<R: Threads + Wait + Sync>(
    rt: &R,
    alloc: Global,
    plan: &[u8],
) -> Result<String, AllocError> {
    output_of(rt, alloc, SIZES, plan)
}

/// Returns the output of `fit` for a plan's text, as a bundle.
pub fn fitted_bundle<R: Threads + Wait + Sync>(
    rt: &R,
    alloc: Global,
    plan: &[u8],
) -> Result<String, AllocError> {
    output_of(rt, alloc, BUNDLE, plan)
}

/// Runs `fit` for a plan's text. If `fit` writes a bundle, runs `check` for this bundle, and runs
/// `fit` again for the plan in the bundle. Returns the first line of the output of `check`,
/// followed by the output of the second `fit`. If the first `fit` writes no bundle, returns its
/// output.
pub fn fitted_and_checked<R: Threads + Wait + Sync>(
    rt: &R,
    alloc: Global,
    plan: &[u8],
) -> Result<String, AllocError> {
    let ended = Ended::of_input(rt, alloc, BUNDLE, plan)?;
    if ended.outcome != Ok(Status::Done) {
        return ended.to_text(alloc);
    }
    let mut answer = Ended::of_bundle(alloc, &ended.written)?.first_line(alloc)?;
    write!(answer, "\n{}", fitted_again(rt, alloc, &ended.written)?)?;
    Ok(answer)
}

// Returns the output of `fit` for the plan in a bundle.
fn fitted_again<R: Threads + Wait + Sync>(
    rt: &R,
    alloc: Global,
    bundle: &[u8],
) -> Result<String, AllocError> {
    let bundle = String::from_utf8_lossy(alloc, bundle)?;
    match bundle.as_str().split_once("%%\n") {
        Some((fit, _)) => Ended::of_input(rt, alloc, SIZES, fit.as_bytes())?.to_text(alloc),
        None => String::from_str(alloc, "no line `%%`"),
    }
}

// Returns the output of the command. If the plan is short, appends a note if the result differs
// with single bytes, or is unexpected with a source or a sink that fails.
pub(crate) fn output_of<R: Threads + Wait + Sync>(
    rt: &R,
    alloc: Global,
    command: Command,
    plan: &[u8],
) -> Result<String, AllocError>
    requires { IsInRange command }
{
    if plan.len() <= SHORT {
        return run_with_failures(rt, alloc, command, plan);
    }
    Ended::of_input(rt, alloc, command, plan)?.to_text(alloc)
}
