//! Tests that a run calls its gate for each actor. The calls must have the units of this actor's
//! own work.

use crate::threads::gates::Shares;
use crate::threads::plans::totals;
use std::test::Fail;

// Two clients that repeat, and a third client. All jobs have the same class, so a job's work does
// not depend on its submitter.
const DIFFERENT_WORK: &str = "
    pool = [{ name = 'p', core = 2, max = 2, queue = 4 }]
    class = [{ name = 'a', pool = 'p', body = ['work 3', 'work 4'] }]
    client = [
        { name = 'c', count = 2, repeat = true, body = ['work 1', 'submit a as x', 'get x'] },
        { name = 'd', count = 1, body = ['work 2', 'submit a as x', 'get x', 'work 5'] },
    ]
";

#[test]
fn each_actor_does_its_own_work(rt: HostRuntime) -> Result<(), Fail> {
    let alloc = rt.alloc();
    // Two clients with three rounds each and one client with one round submit 7 jobs.
    let gate = Shares::new(alloc, 3, 7)?;
    let run = totals(&rt, alloc, DIFFERENT_WORK, 3, &gate);
    assert_eq!(rt; run, Ok((7, 62)));
    let clients = gate.of_clients(alloc)?;
    assert_eq!(rt; clients.as_slice(), &[(3, 3), (3, 3), (2, 7)][..]);
    for job in gate.of_jobs(alloc)? {
        assert_eq!(rt; job, (2, 7));
    }
    Ok(())
}
