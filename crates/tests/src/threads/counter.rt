//! A counter, which is a machine without a plan.

ghost use Rattle.std.specs.Prelude.{◌≡◌, ℕ};

use held_machines::Machine;
use std::alloc::{AllocError, Global};

/// An event of a counter.
#[derive(Clone, Copy, Debug, PartialEq, Eq)]
pub enum Change {
    Up,
    Down,
}

/// A counter that starts at 0 and is always between 0 and its maximum.
#[derive(Clone, Copy, Debug, Drop)]
pub struct Tally {
    pub most: u64,
}

impl Machine for Tally {
    ghost use Rattle.tests.specs.Counting.{next_count};

    type State = u64;

    type Event = Change;

    ghost SpecState = { ℕ };

    ghost first = { λ _. 0 };

    ghost next = { λ counter n change. next_count counter.most n change };

    ghost stored_state = { λ _ n. n };

    fn start(&self, _alloc: Global) -> Result<u64, AllocError> {
        Ok(0)
    }

    fn step(&self, count: &mut u64, change: Change) -> Result<bool, AllocError> {
        match change {
            Change::Up => {
                if *count >= self.most {
                    return Ok(false);
                }
                *count += 1;
            }
            Change::Down => {
                if *count == 0 {
                    return Ok(false);
                }
                *count -= 1;
            }
        }
        Ok(true)
    }
}
