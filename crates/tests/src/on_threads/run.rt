//! Inputs of the command `run`. The exit status or the fault of the command follows its output.

ghost use Rattle.std.specs.Prelude.{◌≤◌};

use crate::on_threads::ended::Ended;
use crate::on_threads::failing::run_with_failures;
use sizing_cli::{Command, Task};
use std::alloc::{AllocError, Global};
use std::sync::Wait;
use std::thread::Threads;

// The maximum number of rounds of a short run.
const SHORT: u64 = 3;

/// Returns the output of `run` for a bundle and this number of rounds.
pub fn ran<R: Threads + Wait + Sync>(
    rt: &R,
    alloc: Global,
    rounds: u64,
    bundle: &[u8],
) -> Result<String, AllocError>
    requires some { 1 ≤ rounds }
    requires most { rounds ≤ 1000000 }
{
    let command = Command::OnThreads(Task::Run { rounds });
    if rounds <= SHORT {
        return run_with_failures(rt, alloc, command, bundle);
    }
    Ended::of_input(rt, alloc, command, bundle)?.to_text(alloc)
}

/// Returns the output of `run` for this input. The first line of the input is the number of rounds,
/// from 1 to 1,000,000, and the rest is a bundle. If the first line is not such a number, returns a
/// note.
pub fn ran_for<R: Threads + Wait + Sync>(
    rt: &R,
    alloc: Global,
    input: &[u8],
) -> Result<String, AllocError> {
    let input = String::from_utf8_lossy(alloc, input)?;
    let Some((rounds, bundle)) = input.as_str().split_once("\n") else {
        return String::from_str(alloc, "no line with the number of rounds");
    };
    match rounds.parse::<u64>() {
        Ok(rounds) if 1 <= rounds && rounds <= 1_000_000 => {
            ran(rt, alloc, rounds, bundle.as_bytes())
        }
        _ => String::from_str(alloc, "no such number of rounds"),
    }
}
