//! Tests of each call of a held counter. A held machine is a machine with the history of its
//! events.

use crate::threads::counter::{Change, Tally};
use held_machines::{Held, Receipt};
use std::alloc::AllocError;
use std::process::Abort;
use std::test::Fail;

// Changes, each with the number of its receipt (`None` if the change is not possible) and the count
// after it, which is always between 0 and 2.
const CHANGES: &[(Change, Option<u64>, u64)] = &[
    (Change::Down, None, 0),
    (Change::Up, Some(0), 1),
    (Change::Up, Some(1), 2),
    (Change::Up, None, 2),
    (Change::Down, Some(2), 1),
];

const NONE: &[Change] = &[];

const MADE: &[Change] = &[Change::Up, Change::Up, Change::Down];

// Applies the changes and checks each result.
fn change_it<R: Abort>(rt: &R, held: &mut Held<Tally>) -> Result<(), AllocError> {
    for (change, number, count) in CHANGES.iter().copied() {
        let wanted = number.map(|number| Receipt {
            number,
            event: change,
        });
        assert_eq!(rt; held.act(change)?, wanted, "{change:?} to {count}");
        assert_eq!(rt; *held.state(), count, "{change:?}");
    }
    Ok(())
}

#[test]
fn a_held_counter_keeps_the_history_of_its_count(rt: HostRuntime) -> Result<(), Fail> {
    let mut held = Held::new(rt.alloc(), Tally { most: 2 })?;
    assert_eq!(rt; *held.state(), 0);
    assert_eq!(rt; held.history(), NONE);
    change_it(&rt, &mut held)?;
    assert_eq!(rt; held.history(), MADE);
    let history = held.into_history();
    assert_eq!(rt; history.as_slice(), MADE);
    Ok(())
}
