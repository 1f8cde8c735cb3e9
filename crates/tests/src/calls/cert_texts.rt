//! Tests that the text of a certificate is read and written back, and that a bad text results in
//! the right fault.

use cert_text::{CertFault, read_cert, write_cert};
use job_bodies::{Action, Class, Client, Plan, Pool};
use std::alloc::Global;
use std::test::*;

const STANDING: &str =
    "{\"pools\":[{\"blocked\":{\"classes\":[[0,0,0,0]],\"clients\":[[0,0,0]],\"workers\":[0]},\"standing\":{\"classes\":[[1,1,1,1]],\"clients\":[[1,0,1]],\"workers\":[0]}}],\"ranks\":{\"levels\":[0],\"pools\":[0],\"reach\":[0]},\"version\":1}";

const LIFETIME: &str =
    "{\"pools\":[{\"blocked\":{\"classes\":[[0,0,0,0]],\"clients\":[[0,0,0]],\"workers\":[0]},\"lifetime\":{\"classes\":[[1,1,1,1]],\"clients\":[[1,0,0]],\"workers\":[0]}}],\"ranks\":{\"levels\":[0],\"pools\":[0],\"reach\":[0]},\"version\":2}";

const WITHOUT_A_BOUND: &str =
    "{\"pools\":[{\"blocked\":{\"classes\":[[0,0,0,0]],\"clients\":[[0,0,0]],\"workers\":[0]}}],\"ranks\":{\"levels\":[0],\"pools\":[0],\"reach\":[0]},\"version\":2}";

/// Returns a plan with one pool, one class and one client kind.
fn plan(alloc: Global, may_reject: bool) -> Result<Plan, Fail> {
    let pool = Pool {
        name: String::from_str(alloc, "p")?,
        core: 1,
        max: 1,
        queue: 2,
        prestart: false,
        may_reject,
        unbounded: false,
        core_timeout: false,
    };
    let class = Class {
        name: String::from_str(alloc, "a")?,
        pool: 0,
        body: vec![in alloc; Action::Work(1)]?,
    };
    let client = Client {
        name: String::from_str(alloc, "c")?,
        count: 2,
        repeat: true,
        body: vec![in alloc; Action::Submit(0), Action::Get(0)]?,
    };
    let pools = vec![in alloc; pool]?;
    let classes = vec![in alloc; class]?;
    let clients = vec![in alloc; client]?;
    Ok(
        Plan::build(alloc, pools, classes, clients)
            .ok()
            .ok_or("a plan")?,
    )
}

fn is_written_back(alloc: Global, text: &str, may_reject: bool) -> Result<bool, Fail> {
    let plan = plan(alloc, may_reject)?;
    let cert = read_cert(alloc, text.as_bytes(), &plan)
        .ok()
        .ok_or("a certificate")?;
    let written = write_cert(alloc, &cert)?;
    Ok(written.as_slice() == text.as_bytes())
}

#[test]
fn texts_are_written_back(rt: HostRuntime) -> Result<(), Fail> {
    for may_reject in [false, true] {
        assert!(rt; is_written_back(rt.alloc(), STANDING, may_reject)?);
        assert!(rt; is_written_back(rt.alloc(), LIFETIME, may_reject)?);
    }
    assert!(rt; is_written_back(rt.alloc(), WITHOUT_A_BOUND, true)?);
    Ok(())
}

#[test]
fn faults(rt: HostRuntime) -> Result<(), Fail> {
    let plan = plan(rt.alloc(), false)?;
    let fault = read_cert(rt.alloc(), b"{\"version\":1}", &plan)
        .err()
        .ok_or("a fault")?;
    assert_eq!(rt; fault, CertFault { number: 31 });
    let without = read_cert(rt.alloc(), WITHOUT_A_BOUND.as_bytes(), &plan)
        .err()
        .ok_or("a fault of a pool that must not reject jobs")?;
    assert_eq!(rt; without, fault);
    let line = format!(in rt.alloc(); "{fault}")?;
    assert_eq!(rt; line.as_str(), "fault 31 WrongShape");
    Ok(())
}
