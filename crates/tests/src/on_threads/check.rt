//! Inputs of the kind `check`: bundles that are checked on threads.

use cert_check::{CheckFault, PoolGate, Verdict, check, check_on, push_verdict};
use job_bodies::{Plan, PlanFault};
use plan_text::read_plan;
use std::alloc::{AllocError, Global};
use std::thread::Threads;

/// A gate that never stops a check. A check calls the gate before each pool.
#[derive(Clone, Copy)]
struct OpenGate;

impl PoolGate for OpenGate {
    fn begin(&self, _pool: usize) -> bool {
        true
    }
}

/// Checks a bundle without threads, and then on threads. Returns the result without threads. If a
/// result on threads differs, it follows in the answer. If the bundle has no line `%%`, returns a
/// note.
pub fn checked<R: Threads + Sync>(
    rt: &R,
    alloc: Global,
    bundle: &[u8],
) -> Result<String, AllocError> {
    let bundle = String::from_utf8_lossy(alloc, bundle)?;
    match bundle.as_str().split_once("%%\n") {
        Some((plan, cert)) => check_texts(rt, alloc, plan.as_bytes(), cert.as_bytes()),
        None => String::from_str(alloc, "no line `%%`"),
    }
}

// Returns the result for the text of a plan and the text of a certificate.
fn check_texts<R: Threads + Sync>(
    rt: &R,
    alloc: Global,
    plan: &[u8],
    cert: &[u8],
) -> Result<String, AllocError> {
    let read = read_plan(alloc, plan);
    let mut answer = result_text(alloc, &read, check(alloc, plan, cert))?;
    let texts = Texts { plan, cert, read };
    let otherwise = texts.differences(rt, alloc, answer.as_str())?;
    answer.push_str(otherwise.as_str())?;
    Ok(answer)
}

// The text of a plan with its parse result, and the text of a certificate.
#[derive(Drop)]
struct Texts<'a> {
    plan: &'a [u8],
    cert: &'a [u8],
    read: Result<Plan, PlanFault>,
}

impl Texts<'_> {
    // Returns a line for each number of workers with which the result differs from `alone`, the
    // result without threads.
    fn differences<R: Threads + Sync>(
        &self,
        rt: &R,
        alloc: Global,
        alone: &str,
    ) -> Result<String, AllocError> {
        let mut otherwise = String::new(alloc);
        for workers in [1, 2, 3, 64] {
            let found = check_on(rt, alloc, workers, self.plan, self.cert, &OpenGate);
            let text = result_text(alloc, &self.read, found)?;
            if text.as_str() != alone {
                write!(otherwise, "\nwith {workers} workers {text}")?;
            }
        }
        Ok(otherwise)
    }
}

// Formats the verdict or the fault of a check.
fn result_text(
    alloc: Global,
    plan: &Result<Plan, PlanFault>,
    found: Result<Verdict, CheckFault>,
) -> Result<String, AllocError> {
    match found {
        Ok(verdict) => verdict_text(alloc, plan, &verdict),
        Err(CheckFault::Plan(fault)) => fault.to_string(alloc),
        Err(CheckFault::Cert(fault)) => fault.to_string(alloc),
        Err(fault) => format!(in alloc; "{fault:?}"),
    }
}

fn verdict_text(
    alloc: Global,
    plan: &Result<Plan, PlanFault>,
    verdict: &Verdict,
) -> Result<String, AllocError> {
    let mut text = String::new(alloc);
    match plan {
        Ok(plan) => push_verdict(&mut text, plan, verdict)?,
        Err(fault) => write!(text, "{fault}")?,
    }
    String::from_str(alloc, text.as_str().trim_end())
}
