//! The `refute` command: searches for a witness against a plan. A witness is a list of events after
//! which a submit is refused or jobs wait only for each other. The command writes the witness as
//! text for a person, or as a bundle of the plan and the events.

ghost use Rattle.std.specs.Prelude.{◌≡◌, ◌++◌, ◌∷◌, IfOk, IfErr, IfSome, IfNone, IsTrue, codes};
ghost use Rattle.sizing_cli.specs.Certify.{IsUncertified};
ghost use Rattle.sizing_cli.specs.Refute as spec;
ghost use Rattle.sizing_cli.specs.ServeFault.{is_of_search};

use crate::answer::{Answer, Output, input_too_long, plan_fault};
use crate::bundle::whole_lines;
use crate::certificate::{WORKERS, certificate_of};
use crate::input::plan_in;
use crate::witness::{WitnessSearch, witness_of};
use crate::{ServeFault, Status};
use command_line::RefuteFormat;
use counterexample::{Witness, push_event_lines};
use job_bodies::{MAX_EVENT_BYTES, MAX_INPUT_BYTES, Plan};
use report::describe;
use std::alloc::{AllocError, Global};
use std::sync::Wait;
use std::thread::Threads;

/// Searches for a certificate and then for a witness, and returns the answer. A witness is a list
/// of events that shows that the plan is not safe. The input is a plan's text.
///
/// - If a certificate is found, the plan is safe.
/// - If a witness is found, the answer describes the witness, or is a bundle of the plan and the
///   witness's events.
/// - Otherwise the plan is undecided. The answer then has the number of states that were searched,
///   which is at most `states`.
///
/// # Errors
///
/// - Fails with fault 20 if memory runs out or a thread cannot be started.
/// - Fails with fault 42 or 43 if the search for a certificate ends with that fault.
pub fn refute<R: Threads + Wait + Sync>(
    rt: &R,
    alloc: Global,
    states: usize,
    refute_format: RefuteFormat,
    input: Vec<u8>,
) -> Result<Output, ServeFault>
    ensures answer { IfOk result (spec.IsRefuteAnswer states refute_format input.items) }
    ensures fault { IfErr result (λ fault. IsTrue (is_of_search fault.number)) }
{
    if input.len() > MAX_INPUT_BYTES {
        return Ok(Output::of(input_too_long(alloc)?));
    }
    let text = whole_lines(input)?;
    match plan_in(alloc, &text)? {
        Ok(plan) => refute_plan(rt, alloc, states, refute_format, &plan, text),
        Err(fault) => Ok(Output::of(plan_fault(alloc, fault)?)),
    }
}

/// Returns the answer for this plan, which was read from `text`.
fn refute_plan<R: Threads + Wait + Sync>(
    rt: &R,
    alloc: Global,
    states: usize,
    refute_format: RefuteFormat,
    plan: &Plan,
    text: Vec<u8>,
) -> Result<Output, ServeFault>
    ensures answer { IfOk result (spec.AnswersPlan states refute_format text.items plan.now) }
    ensures fault { IfErr result (λ fault. IsTrue (is_of_search fault.number)) }
{
    match certificate_of(rt, alloc, WORKERS, plan)? {
        Some(_cert) => Ok(Output::of(safe(alloc, refute_format)?)),
        None => Ok(without_certificate(alloc, states, refute_format, plan, text)?),
    }
}

/// Searches for a witness, and returns the answer. Before this call, no certificate was found for
/// the plan.
fn without_certificate(
    alloc: Global,
    states: usize,
    refute_format: RefuteFormat,
    plan: &Plan,
    text: Vec<u8>,
) -> Result<Output, AllocError>
    requires { IsUncertified plan.now }
    ensures { IfOk result (spec.AnswersPlan states refute_format text.items plan.now) }
{
    let search = witness_of(alloc, plan, states)?;
    Ok(answer_of(alloc, refute_format, plan, search, text)?)
}

/// Returns the answer for the result of a search for a witness, a list of events that shows that
/// the plan is not safe. The answer has the witness or, if none was found, the number of states
/// that were searched.
fn answer_of(
    alloc: Global,
    refute_format: RefuteFormat,
    plan: &Plan,
    search: WitnessSearch,
    text: Vec<u8>,
) -> Result<Output, AllocError>
    ensures some { IfSome search.witness
        (λ witness. IfOk result (spec.ShowsWitness refute_format text.items plan.now witness)) }
    ensures none { IfNone search.witness
        (IfOk result (λ answer. answer ≡ spec.not_decided refute_format search.states)) }
{
    let WitnessSearch { witness, states } = search;
    match witness {
        Some(witness) => show(alloc, refute_format, plan, &witness, text),
        None => Ok(Output::of(not_decided(alloc, refute_format, states)?)),
    }
}

fn show(
    alloc: Global,
    refute_format: RefuteFormat,
    plan: &Plan,
    witness: &Witness,
    text: Vec<u8>,
) -> Result<Output, AllocError>
    ensures { IfOk result (spec.ShowsWitness refute_format text.items plan.now witness.now) }
{
    match refute_format {
        RefuteFormat::Story => Ok(Output::of(story(alloc, plan, witness)?)),
        RefuteFormat::Bundle => bundle(alloc, plan, witness, text),
    }
}

fn story(alloc: Global, plan: &Plan, witness: &Witness) -> Result<Answer, AllocError>
    ensures { IfOk result (spec.ReportsWitness plan.now witness.now) }
{
    let text = describe(alloc, plan, witness)?;
    Ok(Answer {
        text,
        status: Status::Refused,
    })
}

/// Returns a bundle: the plan's text, a line `%%`, and the event lines of `witness`. If the event
/// lines together are too long, returns an answer that says only this.
fn bundle(
    alloc: Global,
    plan: &Plan,
    witness: &Witness,
    mut text: Vec<u8>,
) -> Result<Output, AllocError>
    ensures { IfOk result (spec.ShowsWitness RefuteFormat.Bundle text.items plan.now witness.now) }
{
    let mut events = String::new(alloc);
    push_event_lines(&mut events, plan, witness)?;
    if events.len() > MAX_EVENT_BYTES {
        return Ok(Output::of(events_too_long(alloc)?));
    }
    text.extend_from_slice(b"%%\n")?;
    text.extend_from_slice(events.as_bytes())?;
    Ok(Output {
        bytes: text,
        status: Status::Done,
    })
}

/// Returns the answer for a plan that a certificate accepts. The answer says that the plan is safe.
/// The status depends on `refute_format` (see [`without_bundle`]).
fn safe(alloc: Global, refute_format: RefuteFormat) -> Result<Answer, AllocError>
    ensures { IfOk result (λ answer. answer ≡ spec.safe_answer refute_format) }
{
    line(
        alloc,
        "safe: a certificate was found\n",
        without_bundle(refute_format, Status::Done),
    )
}

/// Returns the answer that says that neither a certificate nor a witness was found, and how many
/// states were searched. The status depends on `refute_format` (see [`without_bundle`]).
fn not_decided(
    alloc: Global,
    refute_format: RefuteFormat,
    states: usize,
) -> Result<Answer, AllocError>
    ensures { IfOk result (λ answer. answer ≡ spec.not_decided refute_format states) }
{
    let text_after_count = were_searched(states);
    let text = format!(in alloc; "not decided: {states}{text_after_count}\n")?;
    Ok(Answer {
        text,
        status: without_bundle(refute_format, Status::Undecided),
    })
}

fn were_searched(states: usize) -> &'static str
    ensures { result.now ≡ spec.were_searched states }
{
    if states == 1 {
        " state was searched"
    } else {
        " states were searched"
    }
}

fn events_too_long(alloc: Global) -> Result<Answer, AllocError>
    ensures { IfOk result (λ answer. answer ≡ spec.events_too_long) }
{
    Answer::no(alloc, "no bundle: too many events\n")
}

/// Returns the status of an answer that has no witness. If the user requested a bundle of the plan
/// and events, this is [`Status::Refused`]. Otherwise it is `status`.
fn without_bundle(refute_format: RefuteFormat, status: Status) -> Status
    ensures { result ≡ spec.without_bundle refute_format status }
{
    match refute_format {
        RefuteFormat::Story => status,
        RefuteFormat::Bundle => Status::Refused,
    }
}

fn line(alloc: Global, words: &str, status: Status) -> Result<Answer, AllocError>
    ensures { IfOk result (λ answer. answer ≡ record { text = words.now; status = status }) }
{
    let mut text = String::new(alloc);
    text.push_str(words)?;
    Ok(Answer { text, status })
}
