//! The state that the threads of a run share.

use crate::carriers::carriers;
use crate::progress::Progress;
use crate::{CertifiedWorld, ThreadFault};
use cert_check::Certified;
use held_machines::{Held, Locked, Receipt};
use interleaving::{Event, Outcome};
use job_bodies::{Plan, Pool};
use std::alloc::{AllocError, Global};
use std::collections::VecDeque;
use std::sync::{Condvar, Mutex, MutexGuard, Wait};

/// The state that the threads of a run share: the plan's machine under its lock, the hand-off
/// queues and the progress of the run. If a submit starts a job without queueing it, the hand-off
/// queue of the job's pool passes the job to a worker thread of this pool. A thread accesses the
/// hand-off queues and the progress only while it holds the machine's lock.
///
/// A thread whose actor is at a get waits on the condition variable of the machine's lock. A worker
/// thread without a job waits on the condition variable of its pool's hand-off queue. Only the end
/// of a job can unblock a get, and only a submit can give a job to a waiting worker thread. So no
/// other event wakes a thread.
#[derive(Drop)]
pub(crate) struct SharedState<'a> {
    pub(crate) plan: &'a Plan,
    machine: Locked<CertifiedWorld<'a>>,
    handoffs: Vec<HandoffQueue>,
    progress: Mutex<Progress>,
}

/// The hand-off queue of one pool. It has the jobs that a submit has started and that no worker
/// thread has taken yet. A worker thread of the pool waits at this queue while it has no job.
#[derive(Drop)]
struct HandoffQueue {
    started: Mutex<VecDeque<usize>>,
    job_ready: Condvar,
}

/// A guard that holds the lock of the machine.
type MachineGuard<'a, 'b> = MutexGuard<'b, Held<CertifiedWorld<'a>>>;

/// The threads to wake after an event.
#[derive(Drop)]
enum Wakeup {
    NoThread,
    /// The threads of actors that are at a get.
    AtGets,
    /// One worker thread of the pool.
    Worker(usize),
    All,
}

/// A job for a worker thread to perform. If the thread took the job from the pool's queue, `taken`
/// is the receipt of this take event.
#[derive(Drop)]
pub(crate) struct Work {
    pub(crate) job: usize,
    pub(crate) class: usize,
    pub(crate) taken: Option<Receipt<Event>>,
}

impl HandoffQueue {
    /// Creates the hand-off queue of a pool with this number of threads.
    fn new(alloc: Global, threads: usize) -> Result<HandoffQueue, AllocError> {
        Ok(HandoffQueue {
            started: Mutex::new(VecDeque::with_capacity(alloc, threads)?),
            job_ready: Condvar::new(),
        })
    }
}

impl<'a> SharedState<'a> {
    /// Creates the shared state of a run with `clients` clients, before the first event.
    ///
    /// # Errors
    ///
    /// Returns `AllocError` if there is not enough memory.
    pub(crate) fn new(
        alloc: Global,
        certified: &'a Certified,
        clients: usize,
    ) -> Result<SharedState<'a>, AllocError> {
        let plan = certified.plan();
        let handoffs = handoff_queues(alloc, plan.pools())?;
        let held = Held::new(alloc, CertifiedWorld::new(certified))?;
        Ok(SharedState {
            plan,
            machine: Locked::new(held),
            handoffs,
            progress: Mutex::new(Progress::new(clients)),
        })
    }

    /// Returns the history, and the reported fault with the lowest number. The fault is `None` if
    /// no thread reported one.
    pub(crate) fn into_history(self) -> (Vec<Event>, Option<ThreadFault>) {
        let SharedState {
            machine,
            progress,
            ..
        } = self;
        (
            machine.into_inner().into_history(),
            progress.into_inner().fault(),
        )
    }

    /// Waits until the event is possible, performs it and returns its receipt. Returns `None` if
    /// the threads must stop. Stops the run if memory runs out.
    pub(crate) fn act<R: Wait>(&self, rt: &R, event: Event) -> Option<Receipt<Event>> {
        let mut guard = self.machine.lock(rt);
        for _ in rt.forever() {
            if self.is_over(rt) {
                return None;
            }
            match guard.act(event) {
                Ok(Some(receipt)) => {
                    let wakeup = self.wakeups_after(rt, &guard);
                    drop(guard);
                    self.wake(wakeup);
                    return Some(receipt);
                }
                Ok(None) => guard = self.machine.wait(rt, guard),
                Err(AllocError) => {
                    drop(guard);
                    self.fail(rt, ThreadFault::Memory);
                    return None;
                }
            }
        }
        None
    }

    /// Waits for the next job of the pool, and returns it. Jobs of the hand-off queue come before
    /// those of the pool's queue. Returns `None` if the run is complete or the threads must stop.
    /// Stops the run if memory runs out, or if the pool or the job is not found.
    pub(crate) fn next_job<R: Wait>(&self, rt: &R, pool: usize) -> Option<Work> {
        let Some(handoff) = self.handoffs.get(pool) else {
            self.end(rt);
            return None;
        };
        let mut guard = self.machine.lock(rt);
        for _ in rt.forever() {
            if self.is_over(rt) || self.is_at_end(rt, &guard) {
                return None;
            }
            let started = handoff.started.lock(rt).pop_front();
            if let Some(job) = started {
                let work = work_on(&guard, job, None);
                return self.check_work(rt, guard, work);
            }
            match guard.act(Event::Take(pool)) {
                Ok(Some(receipt)) => {
                    let work = work_taken(&guard, receipt);
                    return self.check_work(rt, guard, work);
                }
                Ok(None) => guard = handoff.job_ready.wait(rt, guard),
                Err(AllocError) => {
                    drop(guard);
                    self.fail(rt, ThreadFault::Memory);
                    return None;
                }
            }
        }
        None
    }

    /// Releases the lock and returns `work`. Also stops the run if `work` is `None`, which means
    /// that the thread's job was not found.
    fn check_work<R: Wait>(
        &self,
        rt: &R,
        guard: MachineGuard<'a, '_>,
        work: Option<Work>,
    ) -> Option<Work> {
        drop(guard);
        if work.is_none() {
            self.end(rt);
        }
        work
    }

    /// Records that a client has no event left. If the run is now complete, wakes all threads, so
    /// that they end.
    pub(crate) fn leave<R: Wait>(&self, rt: &R) {
        let guard = self.machine.lock(rt);
        self.progress.lock(rt).client_done();
        let ended = self.is_at_end(rt, &guard);
        drop(guard);
        if ended {
            self.wake_all();
        }
    }

    /// Records a fault, and makes every thread stop.
    pub(crate) fn fail<R: Wait>(&self, rt: &R, cause: ThreadFault) {
        let guard = self.machine.lock(rt);
        self.progress.lock(rt).note(cause);
        drop(guard);
        self.wake_all();
    }

    /// Makes every thread stop early, before the run is complete, and records no fault. The check
    /// of the results later finds that the run is not complete.
    pub(crate) fn end<R: Wait>(&self, rt: &R) {
        let guard = self.machine.lock(rt);
        self.progress.lock(rt).end();
        drop(guard);
        self.wake_all();
    }

    /// Returns `true` if the threads must stop early, before the run is complete.
    fn is_over<R: Wait>(&self, rt: &R) -> bool {
        self.progress.lock(rt).is_over()
    }

    /// Returns `true` if no client has an event left and no job is unfinished.
    fn is_at_end<R: Wait>(&self, rt: &R, guard: &MachineGuard<'a, '_>) -> bool {
        self.progress.lock(rt).clients_are_complete()
            && guard.state().world.world().unfinished() == 0
    }

    /// Returns the threads to wake after the latest event. If this event started a job, also puts
    /// the job into its pool's hand-off queue.
    fn wakeups_after<R: Wait>(&self, rt: &R, guard: &MachineGuard<'a, '_>) -> Wakeup {
        match guard.state().outcome {
            Some(Outcome::Started(job)) => self.hand_off(rt, guard, job),
            Some(Outcome::Queued(job)) => match self.pool_of(guard, job) {
                Some(pool) => Wakeup::Worker(pool),
                None => self.end_without_worker(rt),
            },
            Some(Outcome::Finished(_)) => {
                if self.is_at_end(rt, guard) {
                    Wakeup::All
                } else {
                    Wakeup::AtGets
                }
            }
            _ => Wakeup::NoThread,
        }
    }

    /// Puts a job into its pool's hand-off queue, and returns the threads to wake. A worker thread
    /// takes the job from this queue. Stops the run if the job's pool is not found or if memory
    /// runs out.
    fn hand_off<R: Wait>(&self, rt: &R, guard: &MachineGuard<'a, '_>, job: usize) -> Wakeup {
        let Some(pool) = self.pool_of(guard, job) else {
            return self.end_without_worker(rt);
        };
        let Some(handoff) = self.handoffs.get(pool) else {
            return self.end_without_worker(rt);
        };
        // A hand-off queue has room for one job for each thread of its pool, so no job is lost.
        if handoff.started.lock(rt).push_back(job).is_err() {
            self.progress.lock(rt).note(ThreadFault::Memory);
            return Wakeup::All;
        }
        Wakeup::Worker(pool)
    }

    /// Stops the run because the pool of a started or queued job was not found. Returns
    /// [`Wakeup::All`], so that all threads notice the stop.
    fn end_without_worker<R: Wait>(&self, rt: &R) -> Wakeup {
        self.progress.lock(rt).end();
        Wakeup::All
    }

    fn pool_of(&self, guard: &MachineGuard<'a, '_>, job: usize) -> Option<usize> {
        let class = guard.state().world.world().job(job)?.class;
        Some(self.plan.class_at(class)?.pool)
    }

    fn wake(&self, wakeup: Wakeup) {
        match wakeup {
            Wakeup::NoThread => (),
            Wakeup::AtGets => self.machine.notify_all(),
            Wakeup::Worker(pool) => {
                if let Some(handoff) = self.handoffs.get(pool) {
                    handoff.job_ready.notify_one();
                }
            }
            Wakeup::All => self.wake_all(),
        }
    }

    fn wake_all(&self) {
        self.machine.notify_all();
        for handoff in &self.handoffs {
            handoff.job_ready.notify_all();
        }
    }
}

/// Creates an empty hand-off queue for each pool. Each queue has room for one job for each thread
/// of its pool.
fn handoff_queues(alloc: Global, pools: &[Pool]) -> Result<Vec<HandoffQueue>, AllocError> {
    let mut handoffs = Vec::with_capacity(alloc, pools.len())?;
    for pool in pools {
        handoffs.push(HandoffQueue::new(alloc, carriers(pool) as usize)?)?;
    }
    Ok(handoffs)
}

/// Returns the job that the latest event took from a queue. `receipt` is the receipt of this event,
/// and becomes a part of the result. Returns `None` if the latest event took no job, or if the job
/// is not found.
fn work_taken(guard: &MachineGuard<'_, '_>, receipt: Receipt<Event>) -> Option<Work> {
    match guard.state().outcome {
        Some(Outcome::Took(job)) => work_on(guard, job, Some(receipt)),
        _ => None,
    }
}

fn work_on(
    guard: &MachineGuard<'_, '_>,
    job: usize,
    taken: Option<Receipt<Event>>,
) -> Option<Work> {
    let class = guard.state().world.world().job(job)?.class;
    Some(Work { job, class, taken })
}
