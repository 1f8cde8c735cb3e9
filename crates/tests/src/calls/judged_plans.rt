//! Tests of each call that checks a certificate, with small plans.

use crate::calls::judged_texts::{
    FAN_OUT, FAN_OUT_CERT, FORGETTING, FORGETTING_CERT, LIFETIME_CERT, ONCE, ONCE_AND_ONE_MORE,
    ONCE_WITH_TIMEOUTS, ONE_POOL, ONE_POOL_CERT, THAT_MAY_REJECT, THAT_REJECTS_NOTHING,
    THERE_AND_BACK, THERE_AND_BACK_CERT, UNBOUNDED, WITH_A_HIGH_RANK, WITH_A_LARGER_WEIGHT,
    WITH_A_MILLION_CLIENTS, WITH_A_QUEUE_OF_1, WITH_A_SHORT_ROW, WITH_CORE_ABOVE_MAX,
    WITH_THE_MOST_WEIGHT, WITH_TIMEOUTS, WITHOUT_BOUND,
};
use cert_check::{
    BoundTotal, Certified, CheckFault, PoolLine, accepts, accepts_standing, check, verdict,
};
use cert_text::{Cert, CertFault, read_cert};
use job_bodies::{Part, Plan, PlanFault};
use plan_text::read_plan;
use std::alloc::{AllocError, Global};
use std::test::*;
use support::number::{BAD_NUMBER, NOT_JSON, WEIGHT_TOO_LARGE, WRONG_SHAPE};
use weights::{Bound, Counted, Place, Ranks, RanksOf, Row, Rule, blocked_fault};

fn read(alloc: Global, plan: &str, cert: &str) -> Result<(Plan, Cert), Fail> {
    let plan = read_plan(alloc, plan.as_bytes())?;
    let cert = read_cert(alloc, cert.as_bytes(), &plan)?;
    Ok((plan, cert))
}

/// The results for a plan and a certificate. Each part of the certificate has a field with its
/// first failing condition. `total` is the total of the vector in the first pool's bound.
#[derive(Clone, Copy, Debug, PartialEq, Eq)]
struct Findings {
    total: u64,
    ranks: Option<Row>,
    weights: Option<Row>,
    bound: Option<Row>,
    blocked: Option<Row>,
}

const NONE_FAILS: Findings = Findings {
    total: 2,
    ranks: None,
    weights: None,
    bound: None,
    blocked: None,
};

fn first_findings(plan: &Plan, cert: &Cert) -> Option<Findings> {
    let pool = cert.pools.first()?;
    let of_queue = pool.bound.as_ref()?;
    let vector = of_queue.vector();
    let fits = cert.ranks.fits(plan) && vector.fits(plan) && pool.blocked.fits(plan);
    if plan.pools().is_empty() || !fits {
        return None;
    }
    let counted = RanksOf::new(plan, &cert.ranks);
    let bound = match of_queue {
        Bound::Standing(_) => vector.standing_fault(plan, 0),
        Bound::Lifetime(_) => vector.lifetime_fault(plan, 0),
    };
    Some(Findings {
        total: vector.total(plan),
        ranks: cert.ranks.fault(plan),
        weights: vector.first_fault(plan),
        bound,
        blocked: blocked_fault(plan, 0, &counted, &pool.blocked),
    })
}

const AT_THE_END: Row = Row {
    rule: Rule::V7,
    place: Place::Client(0),
    left: 1,
    right: 0,
};

const TOO_HEAVY: Row = Row {
    rule: Rule::V6,
    place: Place::Class(0),
    left: 2,
    right: 1,
};

/// Cases: a plan, a certificate for it, and the first failing conditions.
const FINDINGS: &[(&str, &str, Findings)] = &[
    (ONE_POOL, ONE_POOL_CERT, NONE_FAILS),
    (
        WITH_A_MILLION_CLIENTS,
        WITH_THE_MOST_WEIGHT,
        Findings {
            total: 1_000_000_000_000_000,
            bound: Some(Row {
                rule: Rule::S2,
                place: Place::Total,
                left: 1_000_000_000_000_000,
                right: 2,
            }),
            ..NONE_FAILS
        },
    ),
    (
        FORGETTING,
        FORGETTING_CERT,
        Findings {
            total: 1,
            weights: Some(AT_THE_END),
            bound: Some(AT_THE_END),
            ..NONE_FAILS
        },
    ),
    (
        ONE_POOL,
        WITH_A_HIGH_RANK,
        Findings {
            ranks: Some(Row {
                rule: Rule::K1,
                place: Place::Class(0),
                left: 1,
                right: 0,
            }),
            weights: Some(TOO_HEAVY),
            bound: Some(TOO_HEAVY),
            ..NONE_FAILS
        },
    ),
    (
        ONCE_AND_ONE_MORE,
        LIFETIME_CERT,
        Findings {
            total: 4,
            bound: Some(Row {
                rule: Rule::L3,
                place: Place::Total,
                left: 4,
                right: 3,
            }),
            ..NONE_FAILS
        },
    ),
    (
        FAN_OUT,
        FAN_OUT_CERT,
        Findings {
            total: 3,
            bound: Some(Row {
                rule: Rule::S2,
                place: Place::Total,
                left: 3,
                right: 2,
            }),
            ..NONE_FAILS
        },
    ),
    (
        THERE_AND_BACK,
        THERE_AND_BACK_CERT,
        Findings {
            total: 1,
            blocked: Some(Row {
                rule: Rule::B1,
                place: Place::ClassAction(0, 1),
                left: 1,
                right: 0,
            }),
            ..NONE_FAILS
        },
    ),
];

#[test]
fn the_first_condition_that_fails(rt: HostRuntime) -> Result<(), Fail> {
    for (plan, cert, wanted) in FINDINGS.iter().copied() {
        let (plan, cert) = read(rt.alloc(), plan, cert)?;
        assert_eq!(rt; first_findings(&plan, &cert), Some(wanted));
    }
    Ok(())
}

/// Returns whether the action at this position of the class's body is a counted get. A counted get
/// may block a thread that other jobs need. Returns `None` if the class or the position does not
/// exist, or if the ranks do not have the shape of the plan.
fn is_counted(plan: &Plan, ranks: &Ranks, class: usize, position: usize) -> Option<bool> {
    let found = plan.class_at(class)?;
    if position >= found.body.len() || !ranks.fits(plan) {
        return None;
    }
    Some(RanksOf::new(plan, ranks).counted(class, position))
}

/// Tests a plan in which jobs of class `a` wait for jobs of class `b`, and these wait for jobs of
/// class `d`. The ranks determine which of these gets are counted.
#[test]
fn gets_that_are_counted(rt: HostRuntime) -> Result<(), Fail> {
    let (plan, cert) = read(rt.alloc(), THERE_AND_BACK, THERE_AND_BACK_CERT)?;
    assert_eq!(rt; are_counted(&plan, &cert.ranks), [Some(true), Some(true)]);
    let above = higher(rt.alloc())?;
    assert_eq!(rt; are_counted(&plan, &above), [Some(false), Some(true)]);
    Ok(())
}

fn are_counted(plan: &Plan, ranks: &Ranks) -> [Option<bool>; 2] {
    [is_counted(plan, ranks, 0, 1), is_counted(plan, ranks, 1, 1)]
}

fn higher(alloc: Global) -> Result<Ranks, AllocError> {
    let pools = vec![in alloc; 2, 1]?;
    let reach = vec![in alloc; 2, 1, 2]?;
    let levels = vec![in alloc; 2, 1, 0]?;
    Ok(Ranks {
        pools,
        reach,
        levels,
    })
}

/// A case: a plan, a certificate, the result of `accepts_standing`, and the result of `accepts`.
type Judged = (&'static str, &'static str, bool, bool);

const JUDGED: &[Judged] = &[
    (ONE_POOL, ONE_POOL_CERT, true, true),
    (WITH_A_QUEUE_OF_1, ONE_POOL_CERT, false, false),
    (ONCE, LIFETIME_CERT, false, true),
    (ONCE_AND_ONE_MORE, LIFETIME_CERT, false, false),
    (FAN_OUT, FAN_OUT_CERT, false, false),
    (THERE_AND_BACK, THERE_AND_BACK_CERT, true, false),
    (THAT_MAY_REJECT, WITHOUT_BOUND, false, true),
    (THAT_MAY_REJECT, ONE_POOL_CERT, false, false),
    (THAT_REJECTS_NOTHING, ONE_POOL_CERT, false, true),
    (UNBOUNDED, WITHOUT_BOUND, false, true),
    (UNBOUNDED, ONE_POOL_CERT, true, true),
];

#[test]
fn what_is_accepted(rt: HostRuntime) -> Result<(), Fail> {
    for (plan, cert, stands, is_accepted) in JUDGED.iter().copied() {
        let (plan, cert) = read(rt.alloc(), plan, cert)?;
        assert!(rt; cert.fits(&plan));
        assert_eq!(rt; accepts_standing(&plan, &cert), stands);
        assert_eq!(rt; accepts(&plan, &cert), is_accepted);
    }
    Ok(())
}

/// Tests that `Certified::check` returns the plan and the certificate unchanged, whether or not it
/// accepts them.
#[test]
fn what_is_certified(rt: HostRuntime) -> Result<(), Fail> {
    for (plan, cert, _, is_accepted) in JUDGED.iter().copied() {
        let (plan, cert) = read(rt.alloc(), plan, cert)?;
        let handed_in = debug_text(rt.alloc(), &plan, &cert)?;
        let (certified, handed_back) = certified(rt.alloc(), plan, cert)?;
        assert_eq!(rt; certified, is_accepted);
        assert_eq!(rt; handed_back, handed_in);
    }
    Ok(())
}

// Returns whether the certificate accepts the plan, and the text of the plan and the certificate.
fn certified(alloc: Global, plan: Plan, cert: Cert) -> Result<(bool, String), AllocError> {
    match Certified::check(plan, cert) {
        Ok(both) => Ok((true, debug_text(alloc, both.plan(), both.cert())?)),
        Err((plan, cert)) => Ok((false, debug_text(alloc, &plan, &cert)?)),
    }
}

fn debug_text(alloc: Global, plan: &Plan, cert: &Cert) -> Result<String, AllocError> {
    format!(in alloc; "{plan:?} {cert:?}")
}

fn standing(total: u64, limit: u64) -> BoundTotal {
    BoundTotal {
        lifetime: false,
        total,
        limit: Some(limit),
    }
}

/// Tests that the verdict has the totals and the limits of each pool, in plan order.
#[test]
fn verdicts(rt: HostRuntime) -> Result<(), Fail> {
    let (plan, cert) = read(rt.alloc(), THERE_AND_BACK, THERE_AND_BACK_CERT)?;
    assert!(rt; cert.fits(&plan));
    let verdict = verdict(rt.alloc(), &plan, &cert)?;
    assert!(rt; !verdict.yes);
    let front = PoolLine {
        bound: Some(standing(1, 2)),
        blocked: 0,
        limit: 0,
    };
    let back = PoolLine {
        blocked: 1,
        limit: 1,
        ..front
    };
    let lines = [front, back];
    assert!(rt; verdict.pools.as_slice() == lines.as_slice());
    Ok(())
}

/// Tests the result of `check` for the texts of a plan and a certificate. It is a verdict, the
/// fault of the plan's text, or the fault of the certificate's text.
#[test]
fn what_is_checked(rt: HostRuntime) -> Result<(), Fail> {
    let line = PoolLine {
        bound: Some(standing(2, 2)),
        blocked: 0,
        limit: 0,
    };
    let lifetime_line = PoolLine {
        bound: Some(BoundTotal {
            lifetime: true,
            total: 3,
            limit: Some(3),
        }),
        blocked: 0,
        limit: 1,
    };
    let lifetime_line_with_timeouts = PoolLine {
        bound: Some(BoundTotal {
            lifetime: true,
            total: 3,
            limit: Some(1),
        }),
        ..line
    };
    let with_a_queue_of_1 = PoolLine {
        bound: Some(standing(2, 1)),
        ..line
    };
    let line_without_bound = PoolLine {
        bound: None,
        ..line
    };
    let unbounded_line = PoolLine {
        bound: Some(BoundTotal {
            lifetime: false,
            total: 2,
            limit: None,
        }),
        ..line
    };
    let bad_plan = PlanFault::at_entry(Part::Pool, 0, BAD_NUMBER);
    let (half, _) = ONE_POOL_CERT.split_once("\"blocked\"").ok_or("a half")?;
    for (plan, cert, wanted) in [
        (ONE_POOL, ONE_POOL_CERT, Ok((true, line))),
        (
            WITH_A_QUEUE_OF_1,
            ONE_POOL_CERT,
            Ok((false, with_a_queue_of_1)),
        ),
        (ONCE, LIFETIME_CERT, Ok((true, lifetime_line))),
        (
            ONCE_WITH_TIMEOUTS,
            LIFETIME_CERT,
            Ok((false, lifetime_line_with_timeouts)),
        ),
        (
            THAT_MAY_REJECT,
            WITHOUT_BOUND,
            Ok((true, line_without_bound)),
        ),
        (UNBOUNDED, WITHOUT_BOUND, Ok((true, line_without_bound))),
        (UNBOUNDED, ONE_POOL_CERT, Ok((true, unbounded_line))),
        (WITH_TIMEOUTS, WITHOUT_BOUND, Ok((true, line_without_bound))),
        (WITH_TIMEOUTS, ONE_POOL_CERT, Ok((true, unbounded_line))),
        (ONE_POOL, WITHOUT_BOUND, Err(cert_fault(WRONG_SHAPE))),
        (WITH_CORE_ABOVE_MAX, half, Err(CheckFault::Plan(bad_plan))),
        (ONE_POOL, half, Err(cert_fault(NOT_JSON))),
        (ONE_POOL, WITH_A_SHORT_ROW, Err(cert_fault(WRONG_SHAPE))),
        (
            ONE_POOL,
            WITH_A_LARGER_WEIGHT,
            Err(cert_fault(WEIGHT_TOO_LARGE)),
        ),
    ] {
        let answer = match check(rt.alloc(), plan.as_bytes(), cert.as_bytes()) {
            Ok(verdict) => {
                assert_eq!(rt; verdict.pools.len(), 1);
                Ok((verdict.yes, *verdict.pools.first().ok_or("a line")?))
            }
            Err(fault) => Err(fault),
        };
        assert_eq!(rt; answer, wanted);
    }
    Ok(())
}

fn cert_fault(number: u8) -> CheckFault {
    CheckFault::Cert(CertFault { number })
}
