//! Tests of the sizes that fit a plan to a certificate. The expected sizes are computed by hand.

use cert_check::{Cert, read_cert};
use job_bodies::Plan;
use plan_text::read_plan;
use size_search::{FitError, SizesFound, fitted, search_sizes, smallest, widened};
use std::alloc::{AllocError, Global};
use std::process::Abort;
use std::test::*;

// A certificate for clients that have at most one job each, whose weight is 1 until its get.
const STANDING: &str = r#"{"version":1,"pools":[
{"standing":{"workers":[0],"classes":[[1,1,1,1]],"clients":[[1,0,1]]},
"blocked":{"workers":[0],"classes":[[0,0,0,0]],"clients":[[0,0,0]]}}],
"ranks":{"pools":[0],"reach":[0],"levels":[0]}}"#;

// A certificate like `STANDING` in which all weights are 0.
const WEIGHTLESS: &str = r#"{"version":1,"pools":[
{"standing":{"workers":[0],"classes":[[0,0,0,0]],"clients":[[0,0,0]]},
"blocked":{"workers":[0],"classes":[[0,0,0,0]],"clients":[[0,0,0]]}}],
"ranks":{"pools":[0],"reach":[0],"levels":[0]}}"#;

// A certificate for a plan in which a job waits for a job of its own pool.
const NESTED: &str = r#"{"version":1,"pools":[
{"standing":{"workers":[0],"classes":[[1,1,0,1,1],[1,1,1,1]],"clients":[[1,0,1]]},
"blocked":{"workers":[0],"classes":[[1,1,1,1,1],[0,0,0,0]],"clients":[[1,0,1]]}}],
"ranks":{"pools":[0],"reach":[0,0],"levels":[1,0]}}"#;

// The core, maximum and queue of the pool, and the number of clients.
type Sizes = [u64; 4];

// A line of a pool whose core threads may time out.
const TIMEOUT: &str = "core_timeout = true\n";

// Returns the text of a plan in which each client submits a job and gets it. `lines` has further
// lines for the pool.
fn one_pool(alloc: Global, sizes: Sizes, lines: &str) -> Result<String, AllocError> {
    let [core, max, queue, count] = sizes;
    let mut text = String::new(alloc);
    write!(
        text,
        "[[pool]]\nname = 'p'\ncore = {core}\nmax = {max}\nqueue = {queue}\n{lines}"
    )?;
    text.push_str("[[class]]\nname = 'a'\npool = 'p'\nbody = ['work 1']\n")?;
    write!(
        text,
        "[[client]]\nname = 'c'\ncount = {count}\nrepeat = true\n"
    )?;
    text.push_str("body = ['submit a as x', 'get x']\n")?;
    Ok(text)
}

// Returns the text of a plan like that of `one_pool` in which each job of a client waits for another
// job of its pool.
fn nested(alloc: Global, sizes: Sizes, lines: &str) -> Result<String, AllocError> {
    let [core, max, queue, count] = sizes;
    let mut text = String::new(alloc);
    write!(
        text,
        "[[pool]]\nname = 'p'\ncore = {core}\nmax = {max}\nqueue = {queue}\n{lines}"
    )?;
    text.push_str(
        "[[class]]\nname = 'outer'\npool = 'p'\nbody = ['submit inner as x', 'get x']\n",
    )?;
    text.push_str("[[class]]\nname = 'inner'\npool = 'p'\nbody = ['work 1']\n")?;
    write!(
        text,
        "[[client]]\nname = 'c'\ncount = {count}\nrepeat = true\n"
    )?;
    text.push_str("body = ['submit outer as x', 'get x']\n")?;
    Ok(text)
}

pub(crate) fn plan_of(rt: &impl Abort, alloc: Global, text: Result<String, AllocError>) -> Plan {
    let text = text.expect(rt, "there is memory");
    read_plan(alloc, text.as_bytes()).expect(rt, "the plan is read")
}

fn cert_of(rt: &impl Abort, alloc: Global, text: &str, plan: &Plan) -> Cert {
    read_cert(alloc, text.as_bytes(), plan).expect(rt, "the certificate is read")
}

// Returns the core, maximum and queue of the first pool, or zeros if the plan has no pool.
fn sizes_of(plan: &Plan) -> [u64; 3] {
    match plan.pool_at(0) {
        Some(pool) => [pool.core, pool.max, pool.queue],
        None => [0, 0, 0],
    }
}

// The result for a plan: the sizes of its pool, or the reason why no sizes fit.
#[derive(Clone, Copy, Debug, PartialEq, Eq)]
enum Answer {
    Sizes([u64; 3]),
    FitError(FitError),
    Condition,
}

fn answer_of(unfit: FitError) -> Answer {
    match unfit {
        FitError::Condition(_) => Answer::Condition,
        other => Answer::FitError(other),
    }
}

fn fit(alloc: Global, plan: Plan, cert: &Cert) -> Result<Answer, AllocError> {
    Ok(match fitted(alloc, plan, cert)? {
        Ok(fit) => Answer::Sizes(sizes_of(&fit)),
        Err((_plan, unfit)) => answer_of(unfit),
    })
}

fn widen(alloc: Global, plan: &Plan, cert: &Cert) -> Result<Answer, AllocError> {
    Ok(match widened(alloc, plan, cert)? {
        Ok(wide) => Answer::Sizes(sizes_of(&wide)),
        Err(unfit) => answer_of(unfit),
    })
}

// Returns the least sizes that the certificate accepts, whatever the sizes of the plan.
fn fit_smallest(alloc: Global, plan: &Plan, cert: &Cert) -> Result<Answer, AllocError> {
    let small = smallest(alloc, plan)?;
    fit(alloc, small, cert)
}

// Returns the sizes of the widened plan, of the fitted plan, of the fitted plan from the smallest
// sizes, and of a copy of the plan.
fn answers(alloc: Global, plan: Plan, cert: &Cert) -> Result<[Answer; 4], AllocError> {
    let copy = Answer::Sizes(sizes_of(&plan.try_clone(alloc)?));
    let wide = widen(alloc, &plan, cert)?;
    let least = fit_smallest(alloc, &plan, cert)?;
    Ok([wide, fit(alloc, plan, cert)?, least, copy])
}

const CORE: Answer = Answer::FitError(FitError::Core(0));

// The sizes of a plan, of the widened plan and of the fitted plan, and the least sizes that the
// certificate accepts.
type Case = (Sizes, Answer, Answer, Answer);

const OF_ONE_POOL: &[Case] = &[
    (
        [1, 1, 1, 2],
        Answer::Sizes([1, 1, 1]),
        Answer::Sizes([1, 1, 2]),
        Answer::Sizes([1, 1, 2]),
    ),
    (
        [1, 1, 9, 2],
        Answer::Sizes([1, 1, 9]),
        Answer::Sizes([1, 1, 9]),
        Answer::Sizes([1, 1, 2]),
    ),
    (
        [3, 4, 5, 7],
        Answer::Sizes([3, 4, 5]),
        Answer::Sizes([3, 4, 7]),
        Answer::Sizes([1, 4, 7]),
    ),
];

const OF_NESTED: &[Case] = &[
    ([1, 1, 5, 1], Answer::Sizes([1, 2, 5]), CORE, CORE),
    (
        [1, 8, 5, 1],
        Answer::Sizes([1, 8, 5]),
        Answer::Sizes([2, 8, 5]),
        Answer::Sizes([2, 8, 1]),
    ),
    ([1, 3, 1, 4], Answer::Sizes([1, 5, 1]), CORE, CORE),
    ([1, 1, 1, 1_000_000], CORE, CORE, CORE),
];

// Asserts that the plan with this text and the certificate have the answers of the case, and that a
// copy of the plan has the plan's sizes.
fn assert_answers(
    rt: &impl Abort,
    alloc: Global,
    text: Result<String, AllocError>,
    cert: &str,
    case: Case,
) {
    let ([core, max, queue, _], wide, fit, least) = case;
    let plan = plan_of(rt, alloc, text);
    let cert = cert_of(rt, alloc, cert, &plan);
    let all = answers(alloc, plan, &cert).expect(rt, "there is memory");
    assert_eq!(rt; all, [wide, fit, least, Answer::Sizes([core, max, queue])]);
}

#[test]
fn plans_are_fitted_to_certificates(rt: HostRuntime) {
    let alloc = rt.alloc();
    for case in OF_ONE_POOL.iter().copied() {
        assert_answers(&rt, alloc, one_pool(alloc, case.0, ""), STANDING, case);
    }
    for case in OF_NESTED.iter().copied() {
        assert_answers(&rt, alloc, nested(alloc, case.0, ""), NESTED, case);
    }
}

const LAST_THREAD: Answer = Answer::FitError(FitError::CoreTimeout(0));

// The core and the maximum stay unchanged if core threads may time out.
const OF_ONE_POOL_WITH_TIMEOUTS: &[Case] = &[
    (
        [1, 1, 1, 2],
        Answer::Sizes([1, 1, 1]),
        Answer::Sizes([1, 1, 2]),
        Answer::Sizes([1, 1, 2]),
    ),
    (
        [3, 4, 9, 7],
        Answer::Sizes([3, 4, 9]),
        Answer::Sizes([3, 4, 9]),
        Answer::Sizes([3, 4, 7]),
    ),
];

// No core is enough for a job that waits for a job of its own pool if one thread may be left.
const OF_NESTED_WITH_TIMEOUTS: &[Case] = &[
    (
        [1, 1, 5, 1],
        Answer::Sizes([1, 1, 5]),
        LAST_THREAD,
        LAST_THREAD,
    ),
    (
        [8, 9, 5, 1],
        Answer::Sizes([8, 9, 5]),
        LAST_THREAD,
        LAST_THREAD,
    ),
    (
        [1, 1, 1, 1_000_000],
        Answer::Sizes([1, 1, 1]),
        LAST_THREAD,
        LAST_THREAD,
    ),
];

#[test]
fn cores_that_may_time_out_stay_unchanged(rt: HostRuntime) {
    let alloc = rt.alloc();
    for case in OF_ONE_POOL_WITH_TIMEOUTS.iter().copied() {
        assert_answers(&rt, alloc, one_pool(alloc, case.0, TIMEOUT), STANDING, case);
    }
    for case in OF_NESTED_WITH_TIMEOUTS.iter().copied() {
        assert_answers(&rt, alloc, nested(alloc, case.0, TIMEOUT), NESTED, case);
    }
}

const SHAPE: Answer = Answer::FitError(FitError::Shape);

#[test]
fn a_certificate_of_another_plan_fits_no_sizes(rt: HostRuntime) {
    let alloc = rt.alloc();
    let plan = plan_of(&rt, alloc, one_pool(alloc, [1, 1, 1, 2], ""));
    let other = plan_of(&rt, alloc, nested(alloc, [1, 1, 1, 2], ""));
    let of_other = cert_of(&rt, alloc, NESTED, &other);
    assert_eq!(rt; widen(alloc, &plan, &of_other).ok(), Some(SHAPE));
    let of_plan = cert_of(&rt, alloc, WEIGHTLESS, &plan);
    let all = answers(alloc, other, &of_plan).expect(&rt, "there is memory");
    assert_eq!(rt; all, [SHAPE, SHAPE, SHAPE, Answer::Sizes([1, 1, 1])]);
}

#[test]
fn a_certificate_whose_conditions_fail_fits_no_sizes(rt: HostRuntime) {
    let alloc = rt.alloc();
    let plan = plan_of(&rt, alloc, one_pool(alloc, [1, 1, 1, 2], ""));
    let weightless = cert_of(&rt, alloc, WEIGHTLESS, &plan);
    assert_eq!(rt; fit(alloc, plan, &weightless).ok(), Some(Answer::Condition));
}

// Returns the plan and the certificate that the search for sizes finds, starting from the
// certificate `first` if there is one.
fn found(
    alloc: Global,
    plan: &Plan,
    first: Option<Cert>,
) -> Result<Option<(Plan, Cert)>, AllocError> {
    Ok(match search_sizes(alloc, plan, first)? {
        SizesFound::Found { plan, cert } => Some((plan, cert)),
        SizesFound::NotFound(_) => None,
    })
}

#[test]
fn a_certificate_that_accepts_the_plan_changes_nothing(rt: HostRuntime) {
    let alloc = rt.alloc();
    // The certificate accepts the plan, so its queue of 9 is unchanged, although 2 would be enough.
    let plan = plan_of(&rt, alloc, one_pool(alloc, [1, 1, 9, 2], ""));
    let first = cert_of(&rt, alloc, STANDING, &plan);
    let (same, cert) = found(alloc, &plan, Some(first))
        .expect(&rt, "there is memory")
        .expect(&rt, "it is accepted");
    assert_eq!(rt; sizes_of(&same), [1, 1, 9]);
    // The certificate does not fit another plan, so the search finds another certificate.
    let other = plan_of(&rt, alloc, nested(alloc, [1, 1, 5, 1], ""));
    let (fit, cert) = found(alloc, &other, Some(cert))
        .expect(&rt, "there is memory")
        .expect(&rt, "another one is found");
    assert_eq!(rt; sizes_of(&fit), [2, 2, 5]);
    // That certificate accepts the sizes that the search found, so they are unchanged.
    let (same, _cert) = found(alloc, &fit, Some(cert))
        .expect(&rt, "there is memory")
        .expect(&rt, "it is accepted");
    assert_eq!(rt; sizes_of(&same), [2, 2, 5]);
}
