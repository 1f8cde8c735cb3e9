//! The `run` command: runs a plan with its certificate and reports the counts of the run.

ghost use Rattle.std.specs.Prelude.{◌≡◌, IfOk, IfErr, IsTrue, Ok};
ghost use Rattle.sizing_cli.specs.Report as spec;
ghost use Rattle.sizing_cli.specs.ServeFault.{is_of_run};

use crate::answer::{Answer, cert_fault, too_large};
use crate::input::{cert_in, read_input};
use crate::noop_gate::NoopGate;
use crate::{ServeFault, Status};
use cert_check::Certified;
use cert_text::Cert;
use job_bodies::Plan;
use locked_runner::run;
use std::alloc::{AllocError, Global};
use std::sync::Wait;
use std::thread::Threads;
use support::ReadError;
use support::number::RUN_TOO_LARGE;

/// Runs a plan if its certificate accepts the plan, and returns the answer. The input is the plan's
/// text, a line `%%`, and the certificate. Each repeating client performs its body `rounds` times.
/// The answer is one of these:
///
/// - the numbers of jobs and of units of work, if the run completes;
/// - a no, if the certificate does not accept the plan;
/// - a fault, if the input has a fault or the run would be too large.
///
/// # Errors
///
/// - Fails with fault 20 if memory runs out or a thread cannot be started.
/// - Fails with fault 41, 42 or 43 if the run ends with that fault.
pub fn run_report<R: Threads + Wait + Sync>(
    rt: &R,
    alloc: Global,
    rounds: u64,
    input: &[u8],
) -> Result<Answer, ServeFault>
    ensures answer { IfOk result (λ answer. answer ≡ spec.run_report rounds input.now) }
    ensures fault { IfErr result (λ fault. IsTrue (is_of_run fault.number)) }
{
    match read_input(alloc, input) {
        Ok(read) => run_plan(rt, alloc, rounds, read.plan, read.second),
        Err(ReadError::Memory) => Err(ServeFault::from(AllocError)),
        Err(ReadError::Fault(answer)) => Ok(answer),
    }
}

fn run_plan<R: Threads + Wait + Sync>(
    rt: &R,
    alloc: Global,
    rounds: u64,
    plan: Plan,
    cert: &[u8],
) -> Result<Answer, ServeFault>
    ensures answer { IfOk result (λ answer. answer ≡ spec.run rounds plan cert.now) }
    ensures fault { IfErr result (λ fault. IsTrue (is_of_run fault.number)) }
{
    match cert_in(alloc, cert, &plan)? {
        Ok(cert) => run_with(rt, alloc, rounds, plan, cert),
        Err(fault) => Ok(cert_fault(alloc, fault)?),
    }
}

fn run_with<R: Threads + Wait + Sync>(
    rt: &R,
    alloc: Global,
    rounds: u64,
    plan: Plan,
    cert: Cert,
) -> Result<Answer, ServeFault>
    ensures answer { IfOk result (λ answer. answer ≡ spec.run_of_cert plan rounds (Ok cert)) }
    ensures fault { IfErr result (λ fault. IsTrue (is_of_run fault.number)) }
{
    match Certified::check(plan, cert).ok() {
        Some(certified) => run_certified(rt, alloc, rounds, &certified),
        None => Ok(Answer::no(alloc, "no\n")?),
    }
}

#[tactic(auto, using(crate::proofs::Runs::too_large_if_reported, crate::proofs::Runs::of_run_else))]
fn run_certified<R: Threads + Wait + Sync>(
    rt: &R,
    alloc: Global,
    rounds: u64,
    certified: &Certified,
) -> Result<Answer, ServeFault>
    ensures answer { IfOk result
        (λ answer. answer ≡ spec.run_of_accepted certified.now.plan certified.now.cert rounds) }
    ensures fault { IfErr result (λ fault. IsTrue (is_of_run fault.number)) }
{
    match run(rt, alloc, certified, rounds, &NoopGate) {
        Ok(report) => Ok(run_through(alloc, report.jobs, report.units)?),
        Err(fault) if fault.number == RUN_TOO_LARGE => Ok(too_large(alloc, certified.plan())?),
        Err(fault) => Err(ServeFault {
            number: fault.number,
        }),
    }
}

/// Returns the answer to a completed run. It is a line with the number of jobs and the number of
/// units of work.
fn run_through(alloc: Global, jobs: u64, units: u64) -> Result<Answer, AllocError>
    ensures { IfOk result (λ answer. answer ≡ spec.run_through jobs units) }
{
    Ok(Answer {
        text: format!(in alloc; "jobs {jobs}, units {units}, refused 0\n")?,
        status: Status::Done,
    })
}
