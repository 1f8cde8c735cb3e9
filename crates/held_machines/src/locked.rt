//! A machine with its history, under one lock.

use crate::{Held, Machine};
use std::sync::{Condvar, Mutex, MutexGuard, Wait};

/// A machine with its history, shared by threads under one lock. Only one thread at a time holds
/// the lock. This thread can release the lock and wait until another thread reports a change of the
/// machine.
#[derive(Drop)]
pub struct Locked<M: Machine + Drop> {
    held: Mutex<Held<M>>,
    changed: Condvar,
}

impl<M: Machine + Drop> Locked<M> {
    /// Puts the machine under a new lock, which no thread holds yet.
    pub fn new(held: Held<M>) -> Locked<M> {
        Locked {
            held: Mutex::new(held),
            changed: Condvar::new(),
        }
    }

    /// Waits until no other thread holds the lock, and acquires it.
    pub fn lock<R: Wait>(&self, rt: &R) -> MutexGuard<'_, Held<M>> {
        self.held.lock(rt)
    }

    /// Releases the lock, waits until another thread calls [`Locked::notify_all`], and acquires the
    /// lock again. The wait can also end without such a call.
    pub fn wait<'a, R: Wait>(
        &'a self,
        rt: &R,
        held: MutexGuard<'a, Held<M>>,
    ) -> MutexGuard<'a, Held<M>> {
        self.changed.wait(rt, held)
    }

    /// Wakes all threads that wait in [`Locked::wait`].
    pub fn notify_all(&self) {
        self.changed.notify_all();
    }

    /// Consumes the lock and returns the machine with its history.
    pub fn into_inner(self) -> Held<M> {
        self.held.into_inner()
    }
}
