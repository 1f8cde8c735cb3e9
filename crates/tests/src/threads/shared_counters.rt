//! A test of two threads that share a counter under one lock.

use crate::threads::counter::{Change, Tally};
use held_machines::{Held, Locked};
use std::alloc::AllocError;
use std::sync::Wait;
use std::test::Fail;
use std::thread;

// Applies the change `times` times. Waits while the change is not possible.
fn change<R: Wait>(
    rt: &R,
    counter: &Locked<Tally>,
    change: Change,
    times: u64,
) -> Result<(), AllocError> {
    for _ in 0..times {
        let mut held = counter.lock(rt);
        for _ in rt.forever() {
            if held.act(change)?.is_some() {
                break;
            }
            held = counter.wait(rt, held);
        }
        drop(held);
        counter.notify_all();
    }
    Ok(())
}

#[test]
fn a_thread_that_waits_is_woken_by_what_the_other_one_did(rt: HostRuntime) -> Result<(), Fail> {
    let counter = Locked::new(Held::new(rt.alloc(), Tally { most: 1 })?);
    let (downs, ups) = thread::join(
        &rt,
        || change(&rt, &counter, Change::Down, 1000),
        || change(&rt, &counter, Change::Up, 1000),
    );
    downs?;
    ups?;

    let held = counter.into_inner();
    assert_eq!(rt; *held.state(), 0);
    for (number, event) in held.history().iter().enumerate() {
        let wanted = if number % 2 == 0 {
            Change::Up
        } else {
            Change::Down
        };
        assert_eq!(rt; *event, wanted, "at {number}");
    }
    assert_eq!(rt; held.history().len(), 2000);
    Ok(())
}
