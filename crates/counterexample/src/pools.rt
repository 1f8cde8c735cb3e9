//! Pools in a search for a counterexample: their threads and queues, and how they respond to jobs.

use job_bodies::Pool;
use std::alloc::{AllocError, Global};
use std::collections::VecDeque;

/// The response of a pool to an offered job. A full pool rejects the job if the plan says that the
/// pool may reject jobs, and otherwise refuses it. A pool with an unbounded queue is never full.
#[derive(Clone, Copy)]
pub(crate) enum Admission {
    Started,
    Queued,
    Rejected,
    Refused,
}

/// Returns the greatest number of threads that the pool can have in a search: its core size if its
/// queue is unbounded, and otherwise its maximum.
///
/// If core threads may time out, Java can start threads above core even if the queue is unbounded.
/// But it does so only between the steps of a submit, and in a search each submit is one event.
pub(crate) fn most_threads(pool: &Pool) -> u64 {
    if pool.unbounded { pool.core } else { pool.max }
}

/// The state of a pool in a search: its sizes, its threads and the numbers of the jobs in its
/// queue. If the queue is unbounded, `max` is the pool's core size, and `capacity` has no effect.
#[derive(Drop)]
pub(crate) struct SearchPool {
    core: u64,
    max: u64,
    capacity: u64,
    unbounded: bool,
    core_timeout: bool,
    may_reject: bool,
    threads: u64,
    idle: u64,
    queue: VecDeque<usize>,
}

impl SearchPool {
    /// Creates the pool in its initial state.
    pub(crate) fn new(alloc: Global, pool: &Pool) -> SearchPool {
        let first = pool.first_workers();
        SearchPool {
            core: pool.core,
            max: most_threads(pool),
            capacity: pool.queue,
            unbounded: pool.unbounded,
            core_timeout: pool.core_timeout,
            may_reject: pool.may_reject,
            threads: first,
            idle: first,
            queue: VecDeque::new(alloc),
        }
    }

    /// Returns a copy of the pool.
    pub(crate) fn copied(&self) -> Result<SearchPool, AllocError> {
        Ok(SearchPool {
            core: self.core,
            max: self.max,
            capacity: self.capacity,
            unbounded: self.unbounded,
            core_timeout: self.core_timeout,
            may_reject: self.may_reject,
            threads: self.threads,
            idle: self.idle,
            queue: self.queue.clone()?,
        })
    }

    /// Returns the response that the pool would now give to an offered job. Does not change the
    /// pool.
    pub(crate) fn answer(&self) -> Admission {
        if self.threads < self.core {
            Admission::Started
        } else if self.places() > 0 {
            Admission::Queued
        } else if self.threads < self.max {
            Admission::Started
        } else if self.may_reject {
            Admission::Rejected
        } else {
            Admission::Refused
        }
    }

    /// Returns how many more jobs the queue has room for. A queue of capacity 0 can hold a job for
    /// each idle thread. Returns `u64::MAX` if the queue is unbounded.
    fn places(&self) -> u64 {
        if self.unbounded {
            return u64::MAX;
        }
        let limit = if self.capacity == 0 {
            self.idle
        } else {
            self.capacity
        };
        limit.saturating_sub(self.queue.len() as u64)
    }

    /// Offers the job with this number to the pool, and returns the pool's response.
    pub(crate) fn offer(&mut self, job: usize) -> Result<Admission, AllocError> {
        let answer = self.answer();
        match answer {
            Admission::Started => self.threads = self.threads.saturating_add(1),
            Admission::Queued => self.queue.push_back(job)?,
            Admission::Rejected | Admission::Refused => {}
        }
        Ok(answer)
    }

    /// Returns the number of the job that an idle thread would take next. Returns `None` if no
    /// thread is idle or the queue is empty.
    pub(crate) fn next_to_take(&self) -> Option<usize> {
        if self.idle == 0 {
            return None;
        }
        self.queue.front().copied()
    }

    /// Makes an idle thread take the first job of the queue, and returns the number of this job.
    /// Returns `None` if no thread is idle or the queue is empty.
    pub(crate) fn take(&mut self) -> Option<usize> {
        let job = self.next_to_take()?;
        self.idle = self.idle.saturating_sub(1);
        self.queue.pop_front();
        Some(job)
    }

    /// Makes a busy thread idle, at the end of its job.
    pub(crate) fn finish(&mut self) {
        self.idle = self.idle.saturating_add(1);
    }

    /// Returns the number of threads of the pool.
    pub(crate) fn threads(&self) -> u64 {
        self.threads
    }

    /// Returns the number of idle threads.
    pub(crate) fn idle(&self) -> u64 {
        self.idle
    }

    /// Returns the greater of the number of threads and `core`. A pool with fewer than `core`
    /// threads starts a thread at each submit.
    pub(crate) fn threads_to_come(&self) -> u64 {
        self.threads.max(self.core)
    }

    /// Returns `true` if the pool never refuses a job, because the plan says that it may reject
    /// jobs or because its queue is unbounded.
    pub(crate) fn never_refuses(&self) -> bool {
        self.may_reject || self.unbounded
    }

    /// Returns how many more jobs the pool accepts if no thread takes a job from the queue in the
    /// meantime. Returns `u64::MAX` if the queue is unbounded.
    pub(crate) fn room(&self) -> u64 {
        self.places()
            .saturating_add(self.max.saturating_sub(self.threads))
    }

    /// Returns the numbers of the queued jobs, from the head of the queue to its end.
    pub(crate) fn queued(&self) -> &VecDeque<usize> {
        &self.queue
    }

    /// Returns `true` if the queued jobs may have to wait until a running job of the pool ends: no
    /// thread is idle, or all idle threads can end.
    ///
    /// If `permanent` is `true`, submits to the pool must not help either: the pool must have `max`
    /// threads, and all of them must be busy.
    pub(crate) fn is_closed(&self, permanent: bool) -> bool {
        if permanent {
            self.idle == 0 && self.threads == self.max
        } else {
            self.idle == 0 || self.can_lose_idle_threads()
        }
    }

    /// Returns `true` if all idle threads can end even if jobs are queued. This requires that core
    /// threads may time out and that some thread is busy. Returns `false` if the queue has the
    /// capacity 0: each queued job was then handed to an idle thread, which does not end.
    fn can_lose_idle_threads(&self) -> bool {
        self.core_timeout && self.idle < self.threads && (self.unbounded || self.capacity > 0)
    }

    /// Returns `true` if core threads may time out and an idle thread can end. An idle thread can
    /// end only if two conditions hold:
    ///
    /// - If jobs are queued, the pool must have another thread.
    /// - If the queue has the capacity 0, more threads must be idle than jobs are queued. The
    ///   reason is that each queued job was handed to an idle thread.
    pub(crate) fn can_retire(&self) -> bool {
        let queued = self.queue.len() as u64;
        self.core_timeout
            && self.idle > 0
            && (self.threads > 1 || queued == 0)
            && (self.unbounded || self.capacity > 0 || queued < self.idle)
    }

    /// Ends an idle thread and returns `true`, if [`can_retire`] returns `true`. Otherwise changes
    /// nothing and returns `false`.
    ///
    /// [`can_retire`]: SearchPool::can_retire
    pub(crate) fn retire(&mut self) -> bool {
        let ends = self.can_retire();
        if ends {
            self.threads = self.threads.saturating_sub(1);
            self.idle = self.idle.saturating_sub(1);
        }
        ends
    }
}
