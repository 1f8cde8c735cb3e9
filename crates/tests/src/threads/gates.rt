//! Gates that count their calls, fail, or hold their callers.

use locked_runner::{Actor, Gate, GateFault};
use std::alloc::{AllocError, Global};
use std::sync::atomic::{AtomicU64, Ordering};
use std::thread;
use std::time::{Clock, Duration};

// A gate that counts its calls and their units, and fails at one call.
#[derive(Drop)]
pub(crate) struct Counting {
    calls: AtomicU64,
    units: AtomicU64,
    fails_at: u64,
}

impl Counting {
    pub(crate) fn new() -> Counting {
        Counting::failing_at(u64::MAX)
    }

    // Creates a gate that fails at the call with this number, from 1.
    pub(crate) fn failing_at(call: u64) -> Counting {
        Counting {
            calls: AtomicU64::new(0),
            units: AtomicU64::new(0),
            fails_at: call,
        }
    }

    pub(crate) fn calls(&self) -> u64 {
        self.calls.load(Ordering::SeqCst)
    }

    pub(crate) fn units(&self) -> u64 {
        self.units.load(Ordering::SeqCst)
    }
}

impl Gate for Counting {
    fn work(&self, _actor: Actor, units: u32) -> Result<(), GateFault> {
        self.units.fetch_add(u64::from(units), Ordering::SeqCst);
        let earlier = self.calls.fetch_add(1, Ordering::SeqCst);
        if earlier.wrapping_add(1) == self.fails_at {
            Err(GateFault)
        } else {
            Ok(())
        }
    }
}

// The work of one actor: the number of its gate calls, and their units.
#[derive(Drop)]
struct Share {
    calls: AtomicU64,
    units: AtomicU64,
}

// A gate that counts the calls and the units of each actor separately. It fails for an actor that
// it does not know.
#[derive(Drop)]
pub(crate) struct Shares {
    clients: Vec<Share>,
    jobs: Vec<Share>,
}

impl Shares {
    // Creates a gate that knows the first `clients` clients and the first `jobs` jobs.
    pub(crate) fn new(alloc: Global, clients: usize, jobs: usize) -> Result<Shares, AllocError> {
        Ok(Shares {
            clients: unmade_work(alloc, clients)?,
            jobs: unmade_work(alloc, jobs)?,
        })
    }

    // Returns the number of calls and of units for each client.
    pub(crate) fn of_clients(&self, alloc: Global) -> Result<Vec<(u64, u64)>, AllocError> {
        self.clients.iter().map(counted).collect(alloc)
    }

    // Returns the number of calls and of units for each job.
    pub(crate) fn of_jobs(&self, alloc: Global) -> Result<Vec<(u64, u64)>, AllocError> {
        self.jobs.iter().map(counted).collect(alloc)
    }
}

impl Gate for Shares {
    fn work(&self, actor: Actor, units: u32) -> Result<(), GateFault> {
        let share = match actor {
            Actor::Client(number) => self.clients.get(number),
            Actor::Job(number) => self.jobs.get(number),
        };
        let Some(share) = share else {
            return Err(GateFault);
        };
        share.calls.fetch_add(1, Ordering::SeqCst);
        share.units.fetch_add(u64::from(units), Ordering::SeqCst);
        Ok(())
    }
}

fn unmade_work(alloc: Global, actors: usize) -> Result<Vec<Share>, AllocError> {
    let mut shares = Vec::with_capacity(alloc, actors)?;
    for _ in 0..actors {
        shares.push(Share {
            calls: AtomicU64::new(0),
            units: AtomicU64::new(0),
        })?;
    }
    Ok(shares)
}

fn counted(share: &Share) -> (u64, u64) {
    (
        share.calls.load(Ordering::SeqCst),
        share.units.load(Ordering::SeqCst),
    )
}

// A gate whose calls take between no time and a third of a millisecond. A pseudo-random number
// generator with a seed chooses the time.
#[derive(Drop)]
pub(crate) struct RandomDelay<'a, C: Clock + Sync> {
    clock: &'a C,
    chance: AtomicU64,
}

impl<'a, C: Clock + Sync> RandomDelay<'a, C> {
    pub(crate) fn new(clock: &'a C, seed: u64) -> RandomDelay<'a, C> {
        RandomDelay {
            clock,
            chance: AtomicU64::new(seed),
        }
    }
}

impl<C: Clock + Sync> Gate for RandomDelay<'_, C> {
    fn work(&self, _actor: Actor, _units: u32) -> Result<(), GateFault> {
        let drawn = drawn_from(self.chance.fetch_add(1, Ordering::SeqCst));
        if drawn % 4 > 0 {
            thread::sleep(self.clock, Duration::from_micros(drawn % 333));
        } else if drawn % 8 > 0 {
            thread::yield_now();
        }
        Ok(())
    }
}

// Returns a pseudo-random number that depends only on this number, by the mixing function of
// SplitMix64.
fn drawn_from(number: u64) -> u64 {
    let mixed = number.wrapping_mul(0x9e37_79b9_7f4a_7c15);
    let mixed = (mixed ^ (mixed >> 30)).wrapping_mul(0xbf58_476d_1ce4_e5b9);
    let mixed = (mixed ^ (mixed >> 27)).wrapping_mul(0x94d0_49bb_1331_11eb);
    mixed ^ (mixed >> 31)
}

// The actors whose work a gate holds.
#[derive(Clone, Copy, PartialEq, Eq)]
pub(crate) enum HeldActors {
    Clients,
    Jobs,
}

// A gate that holds the first `enough` calls of these actors until all of them have begun. It holds
// each of them for at most 10,000 waits of a millisecond, and then fails.
#[derive(Drop)]
pub(crate) struct Rendezvous<'a, C: Clock + Sync> {
    clock: &'a C,
    held_actors: HeldActors,
    enough: u64,
    begun: AtomicU64,
}

impl<'a, C: Clock + Sync> Rendezvous<'a, C> {
    pub(crate) fn new(clock: &'a C, held_actors: HeldActors, enough: u64) -> Rendezvous<'a, C> {
        Rendezvous {
            clock,
            held_actors,
            enough,
            begun: AtomicU64::new(0),
        }
    }
}

impl<C: Clock + Sync> Gate for Rendezvous<'_, C> {
    fn work(&self, actor: Actor, _units: u32) -> Result<(), GateFault> {
        let held_actors = match actor {
            Actor::Client(_) => HeldActors::Clients,
            Actor::Job(_) => HeldActors::Jobs,
        };
        if held_actors != self.held_actors
            || self.begun.fetch_add(1, Ordering::SeqCst) >= self.enough
        {
            return Ok(());
        }
        for _ in 0..10_000 {
            if self.begun.load(Ordering::SeqCst) >= self.enough {
                return Ok(());
            }
            thread::sleep(self.clock, Duration::from_millis(1));
        }
        Err(GateFault)
    }
}
