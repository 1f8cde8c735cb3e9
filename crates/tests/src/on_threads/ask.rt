//! Inputs of the command `ask`. The exit status or the fault of the command follows its output.

ghost use Rattle.command_line.specs.Command.{IsInRange};

use crate::on_threads::ended::Ended;
use crate::on_threads::fit::output_of;
use sizing_cli::{AskInput, AskOptions, Command, Form, Task};
use std::alloc::{AllocError, Global};
use std::sync::Wait;
use std::thread::Threads;

/// Returns the command `ask` with these options. `given` says whether the input is a plan alone or
/// a plan with a certificate.
fn question(given: AskInput, strict: bool, form: Form) -> Command
    ensures { IsInRange result }
{
    Command::OnThreads(Task::Ask {
        given,
        options: AskOptions { strict, form },
    })
}

/// Returns the answer to an input of a kind that begins with `ask`.
pub fn asked<R: Threads + Wait + Sync>(
    rt: &R,
    alloc: Global,
    kind: &str,
    input: &[u8],
) -> Result<String, AllocError> {
    let plan = AskInput::PlanAlone;
    let both = AskInput::WithCertificate;
    match kind {
        "ask" => output_of(rt, alloc, question(plan, false, Form::Words), input),
        "ask strict" => output_of(rt, alloc, question(plan, true, Form::Words), input),
        "ask head" => {
            let command = question(plan, false, Form::Words);
            Ended::of_input(rt, alloc, command, input)?.first_line(alloc)
        }
        "ask with" => output_of(rt, alloc, question(both, false, Form::Words), input),
        "ask with strict" => output_of(rt, alloc, question(both, true, Form::Words), input),
        "ask json" => output_of(rt, alloc, question(plan, false, Form::Json), input),
        "ask json strict" => output_of(rt, alloc, question(plan, true, Form::Json), input),
        "ask json with" => output_of(rt, alloc, question(both, false, Form::Json), input),
        "ask html" => {
            let command = question(plan, false, Form::Html);
            Ended::of_input(rt, alloc, command, input)?.object_in_page(alloc)
        }
        "ask dot" => output_of(rt, alloc, question(plan, false, Form::Dot), input),
        "ask github" => output_of(rt, alloc, question(plan, false, Form::Github), input),
        "ask github with" => output_of(rt, alloc, question(both, false, Form::Github), input),
        "ask sarif" => output_of(rt, alloc, question(plan, false, Form::Sarif), input),
        "ask sarif with" => output_of(rt, alloc, question(both, false, Form::Sarif), input),
        _ => String::from_str(alloc, "no such kind of input"),
    }
}
