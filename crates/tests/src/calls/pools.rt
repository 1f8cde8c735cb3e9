//! Tests of a pool without a plan.

ghost use Rattle.std.specs.Prelude.{◌≡◌, [], false};

use job_bodies::Pool;
use pool_machine::{Offer, PoolState};
use std::alloc::Global;
use std::test::Fail;

// Returns a pool with these sizes, whose queue may be unbounded. Its name is empty, since no test
// uses it.
fn described(alloc: Global, core: u64, max: u64, queue: u64, unbounded: bool) -> Pool
    ensures { result
        ≡ record { name = []; core = core; max = max; queue = queue; prestart = false; may_reject = false; unbounded = unbounded; core_timeout = false } }
{
    Pool {
        name: String::new(alloc),
        core,
        max,
        queue,
        prestart: false,
        may_reject: false,
        unbounded,
        core_timeout: false,
    }
}

// Returns a pool with these sizes, whose core threads may time out.
fn with_timeouts(alloc: Global, core: u64, max: u64, queue: u64) -> Pool
    ensures { result
        ≡ record { name = []; core = core; max = max; queue = queue; prestart = false; may_reject = false; unbounded = false; core_timeout = true } }
{
    let mut pool = described(alloc, core, max, queue, false);
    pool.core_timeout = true;
    pool
}

#[test]
fn below_core_a_thread_starts_though_a_worker_is_idle(rt: HostRuntime) -> Result<(), Fail> {
    let mut pool = PoolState::new(rt.alloc(), &described(rt.alloc(), 2, 2, 2, false));
    assert_eq!(rt; pool.offer(0)?, Offer::Started);
    assert_eq!(rt; pool.busy(), 1);
    pool.finish();
    assert_eq!(rt; (pool.threads(), pool.idle(), pool.busy()), (1, 1, 0));

    assert_eq!(rt; pool.offer(1)?, Offer::Started);
    assert_eq!(rt; (pool.threads(), pool.idle(), pool.queued()), (2, 1, 0));
    assert_eq!(rt; pool.offer(2)?, Offer::Queued);
    assert_eq!(rt; pool.head(), Some(2));
    assert_eq!(rt; pool.take(), Some(2));
    assert_eq!(rt; (pool.busy(), pool.queued()), (2, 0));
    Ok(())
}

#[test]
fn the_queue_fills_before_the_threads_reach_the_maximum(rt: HostRuntime) -> Result<(), Fail> {
    let mut pool = PoolState::new(rt.alloc(), &described(rt.alloc(), 1, 2, 1, false));
    assert_eq!(rt; (pool.core(), pool.max(), pool.capacity()), (1, 2, 1));
    assert_eq!(rt; pool.take(), None);
    let answers = [
        Offer::Started,
        Offer::Queued,
        Offer::Started,
        Offer::Refused,
    ];
    for (job, answer) in answers.iter().enumerate() {
        assert_eq!(rt; pool.offer(job)?, *answer, "to job {job}");
    }

    assert!(rt; pool.busy() == 2);
    pool.finish();
    assert!(rt; pool.retire());
    assert!(rt; pool.busy() == 1);
    pool.finish();
    assert!(rt; !pool.retire(), "the threads are core");
    assert_eq!(rt; pool.take(), Some(1));
    Ok(())
}

#[test]
fn an_unbounded_queue_has_room_for_each_job(rt: HostRuntime) -> Result<(), Fail> {
    let mut pool = PoolState::new(rt.alloc(), &described(rt.alloc(), 1, 2, 1, true));
    assert!(rt; pool.is_unbounded());
    let answers = [Offer::Started, Offer::Queued, Offer::Queued, Offer::Queued];
    for (job, answer) in answers.iter().enumerate() {
        assert_eq!(rt; pool.offer(job)?, *answer, "to job {job}");
    }
    assert_eq!(rt; (pool.threads(), pool.queued()), (1, 3));

    assert!(rt; pool.busy() == 1);
    pool.finish();
    assert!(rt; !pool.retire(), "the threads are core");
    assert_eq!(rt; pool.take(), Some(1));
    assert_eq!(rt; pool.take(), None);
    Ok(())
}

#[test]
fn the_last_thread_times_out_if_no_job_is_queued(rt: HostRuntime) -> Result<(), Fail> {
    let sizes = with_timeouts(rt.alloc(), 2, 2, 1);
    assert_eq!(rt; sizes.least_threads(), 1);
    let mut pool = PoolState::new(rt.alloc(), &sizes);
    assert!(rt; pool.has_core_timeout());
    assert_eq!(rt; pool.offer(0)?, Offer::Started);
    assert_eq!(rt; pool.offer(1)?, Offer::Started);
    assert_eq!(rt; pool.offer(2)?, Offer::Queued);
    assert!(rt; !pool.retire(), "no thread is idle");

    assert!(rt; pool.busy() == 2);
    pool.finish();
    assert!(rt; pool.retire(), "another thread is left");
    assert!(rt; pool.busy() == 1);
    pool.finish();
    assert!(rt; !pool.retire(), "a job is queued");
    assert_eq!(rt; (pool.threads(), pool.idle(), pool.queued()), (1, 1, 1));

    assert_eq!(rt; pool.take(), Some(2));
    assert!(rt; pool.busy() == 1);
    pool.finish();
    assert!(rt; pool.retire(), "no job is queued");
    assert_eq!(rt; (pool.threads(), pool.idle()), (0, 0));
    assert_eq!(rt; pool.offer(3)?, Offer::Started);
    Ok(())
}
