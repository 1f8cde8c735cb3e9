//! The plan of a service: its pools of threads, its classes of jobs, and its client kinds.

ghost use Rattle.std.specs.Prelude.{◌≡◌, ◌↔◌, ◌<◌, IsOk, IfOk, IsSome, IfSome, IfNone, length, string_bytes};
ghost use Rattle.job_bodies.specs.Plan as spec;
ghost use Rattle.job_bodies.specs.WellFormed.{IsWellFormed, least_queue, has_no_max, has_valid_sizes};
ghost use Rattle.job_bodies.specs.Build.{plan_of_lists, build};

use crate::build::{check_bodies, check_counts, check_entries, check_lengths};
use crate::limits::{MAX_SIZE, MAX_THREADS, is_within};
use crate::{Action, PlanFault};
use std::alloc::Global;
use std::marker::Model;

/// A pool of threads with a queue, like Java's `ThreadPoolExecutor` with the default handler,
/// `AbortPolicy`. The queue is like an `ArrayBlockingQueue` or a `LinkedBlockingQueue`.
/// `PoolState::offer` of `pool_machine` defines what the pool does with a submitted job.
///
/// The sizes have the ranges that the Javadoc of the constructor gives. The maximum is at least 1
/// and at least the core size, and the capacity is at least 1. There are these differences:
///
/// - The core size is at least 1.
/// - No size is above [`MAX_SIZE`], with one exception. If the pool [has no maximum of its
///   own](Pool::has_no_max), its `max` is [`MAX_THREADS`].
/// - If `may_reject` is true, the capacity can also be 0, that of a `SynchronousQueue`.
#[derive(Debug, Drop)]
pub struct Pool {
    /// The name of the pool, as plans and answers show it.
    pub name: String,
    /// The core pool size in threads: from 1 to `max`. While the pool has fewer threads than
    /// `core`, each submitted job starts a thread. The core threads never end, unless
    /// `core_timeout` is true.
    pub core: u64,
    /// The maximum pool size in threads: from `core` to 1,000,000, or [`MAX_THREADS`] if the pool
    /// [has no maximum of its own](Pool::has_no_max).
    pub max: u64,
    /// The capacity of the queue in jobs, from 1 to 1,000,000. If `may_reject` is true, the
    /// capacity can also be 0, that of a `SynchronousQueue`.
    pub queue: u64,
    /// Whether all core threads are started before the first job is submitted, as by Java's
    /// `prestartAllCoreThreads`. The first jobs then wait in the queue until idle threads take
    /// them. If `prestart` is false, the first jobs start threads.
    pub prestart: bool,
    /// Whether the pool may reject jobs. This is for a pool whose callers expect rejections: the
    /// callers handle the exception of `AbortPolicy`, or the pool has another handler, such as
    /// `CallerRunsPolicy`.
    ///
    /// If the pool rejects a job, the actor that submits it continues as if its body had neither
    /// this submit nor the get of this submit. If `may_reject` is false, no submit to the pool
    /// should ever be refused.
    pub may_reject: bool,
    /// Whether the queue is unbounded, like a `LinkedBlockingQueue` without a capacity. The pool
    /// then refuses no job, and `queue` has no effect on what the pool does. If core threads never
    /// time out, the pool never has more than `core` threads, so `max` has no effect either.
    ///
    /// A plan that is read from a text has fixed values for sizes without an effect: 1,000,000 for
    /// `queue`, and `core` for `max`. The value for `max` is `core` because the totals of a
    /// certificate count `max` threads.
    pub unbounded: bool,
    /// Whether core threads may time out, as after Java's `allowCoreThreadTimeOut(true)`. Any idle
    /// thread can then end, except that the last thread does not end while jobs are queued. So a
    /// pool with a queued job can be down to a single thread, whatever `core` is.
    ///
    /// If a thread ends while jobs are queued, Java may start another one. Submits may have started
    /// `core` threads by then. So the pool can have more than `core` threads even if its queue is
    /// unbounded.
    pub core_timeout: bool,
}

impl Model for Pool {
    ghost Value = { spec.Pool };

    ghost view = { λ p. record { name = string_bytes p.name; core = p.core; max = p.max; queue = p.queue; prestart = p.prestart; may_reject = p.may_reject; unbounded = p.unbounded; core_timeout = p.core_timeout } };
}

impl Pool {
    /// Returns whether the sizes are in range:
    ///
    /// - The core size is from 1 to 1,000,000.
    /// - The maximum is from the core size to 1,000,000, or the pool [has no
    ///   maximum](Pool::has_no_max).
    /// - The queue is from its [least capacity](Pool::least_queue) to 1,000,000.
    pub fn has_valid_sizes(&self) -> bool
        ensures { result ≡ has_valid_sizes self.now }
    {
        is_within(1, MAX_SIZE, self.core)
            && (is_within(self.core, MAX_SIZE, self.max) || self.has_no_max())
            && is_within(self.least_queue(), MAX_SIZE, self.queue)
    }

    /// Returns whether the pool has no maximum of its own. This means that its core threads may
    /// time out, its queue is unbounded, and its maximum is [`MAX_THREADS`].
    pub fn has_no_max(&self) -> bool
        ensures { result ≡ has_no_max self.now }
    {
        self.core_timeout && self.unbounded && self.max == MAX_THREADS
    }

    /// Returns the least capacity of the queue: 1, or 0 if the pool may reject jobs.
    pub fn least_queue(&self) -> u64
        ensures { result ≡ least_queue self.now }
    {
        if self.may_reject { 0 } else { 1 }
    }

    /// Returns the least number of threads that the pool has while a job is in its queue. This is
    /// the core size, or 1 if core threads may time out.
    pub fn least_threads(&self) -> u64
        ensures { result ≡ spec.least_threads self.now }
    {
        if self.core_timeout { 1 } else { self.core }
    }

    /// Returns true if the pool may reject jobs or its queue is unbounded. A certificate then needs
    /// no vector that bounds the pool's queue.
    pub fn needs_no_bound(&self) -> bool
        ensures { result ≡ spec.needs_no_bound self.now }
    {
        self.may_reject || self.unbounded
    }

    /// Returns the number of threads that the pool has before the first event. This is the core
    /// size if the core threads are prestarted, and 0 otherwise. All these threads are idle.
    pub fn first_workers(&self) -> u64
        ensures { result ≡ spec.first_workers self.now }
    {
        if self.prestart { self.core } else { 0 }
    }
}

/// A class of jobs. Each job of the class runs in the same pool and performs the actions of the
/// same body in order.
#[derive(Debug, Drop)]
pub struct Class {
    /// The name of the class, as plans and answers show it.
    pub name: String,
    /// The index of the pool that runs the jobs, counted from 0 in plan order.
    pub pool: usize,
    /// The actions of a job of this class, in order. There are at most 256.
    pub body: Vec<Action>,
}

impl Model for Class {
    ghost Value = { spec.Class };

    ghost view = { λ k. record { name = string_bytes k.name; pool = k.pool; body = k.body.items } };
}

/// A client kind. Clients are threads outside the pools. They submit jobs to the pools.
#[derive(Debug, Drop)]
pub struct Client {
    /// The name of the client kind, as plans and answers show it.
    pub name: String,
    /// The number of clients of this kind: from 1 to 1,000,000.
    pub count: u64,
    /// Whether each client starts its body again after the last action.
    pub repeat: bool,
    /// The actions of a client of this kind, in order. There are at most 256.
    pub body: Vec<Action>,
}

impl Model for Client {
    ghost Value = { spec.Client };

    ghost view = { λ c. record { name = string_bytes c.name; count = c.count; repeat = c.repeat; body = c.body.items } };
}

/// A well-formed plan. Every plan satisfies these rules:
///
/// - Its numbers are within their limits.
/// - Each name is valid and unique in its list.
/// - Each class names a pool that exists, and each submit names a class that exists.
/// - Each get names an earlier submit of its body, and no two gets of a body name the same submit.
#[derive(Debug, Drop)]
pub struct Plan {
    pools: Vec<Pool>,
    classes: Vec<Class>,
    clients: Vec<Client>,
}

impl Model for Plan {
    ghost Value = { spec.Plan };

    ghost view = { λ p. record { pools = p.pools.items; classes = p.classes.items; clients = p.clients.items } };

    ghost invariant = { λ p. IsWellFormed (plan_of_lists p.pools.items p.classes.items p.clients.items) };
}

impl Plan {
    /// Creates a plan from these lists. Allocates no memory. If the lists have a fault, they are
    /// dropped.
    ///
    /// # Errors
    ///
    /// Returns the first fault of the lists. The fault of an entry names the entry, and the fault
    /// of an action also names the action. The checks run in this order:
    ///
    /// 1. The lengths of the lists. A list with too many entries is fault 2 of the text.
    /// 2. The length of each body, first of the classes and then of the client kinds. A body with
    ///    too many actions is fault 2 of the class or client kind.
    /// 3. The values of each pool, then of each class, then of each client kind. An invalid name is
    ///    fault 6. A name that an earlier entry of the same list already has is fault 7. A size or
    ///    a count out of range is fault 8. A class whose pool does not exist is fault 9.
    /// 4. Each action of each class, and then of each client kind. Units of work that are out of
    ///    range are fault 8. A submit of a class that does not exist is fault 10. A get is fault 13
    ///    if it does not name an earlier submit, or if an earlier get names the same submit.
    pub fn build(
        _alloc: Global,
        pools: Vec<Pool>,
        classes: Vec<Class>,
        clients: Vec<Client>,
    ) -> Result<Plan, PlanFault>
        ensures exact { result ≡ build (plan_of_lists pools.items classes.items clients.items) }
        ensures lists { IfOk result (λ plan. plan ≡ plan_of_lists pools.items classes.items clients.items) }
        ensures well_formed { IsOk result
            ↔ IsWellFormed (plan_of_lists pools.items classes.items clients.items) }
    {
        check_counts(&pools, &classes, &clients)?;
        check_lengths(&classes, &clients)?;
        check_entries(&pools, &classes, &clients)?;
        check_bodies(&classes, &clients)?;
        Ok(Plan::of_well_formed(pools, classes, clients))
    }

    /// Creates a plan from lists that are known to be well-formed. A parser calls this function
    /// after it has made all checks itself.
    pub fn of_well_formed(pools: Vec<Pool>, classes: Vec<Class>, clients: Vec<Client>) -> Plan
        requires { IsWellFormed (plan_of_lists pools.items classes.items clients.items) }
        ensures { result ≡ plan_of_lists pools.items classes.items clients.items }
    {
        Plan {
            pools,
            classes,
            clients,
        }
    }

    /// Returns the plan with `pools` in place of its pools. The result must be well-formed.
    /// Allocates no memory, and drops the old pools.
    pub fn with_pools(self, pools: Vec<Pool>) -> Plan
        requires { IsWellFormed (plan_of_lists pools.items self.classes self.clients) }
        ensures { result ≡ record self { pools = pools.items } }
    {
        Plan {
            pools,
            classes: self.classes,
            clients: self.clients,
        }
    }

    /// Returns the pools, of which there are at most 64, in plan order.
    pub fn pools(&self) -> &[Pool]
        ensures value { result.now ≡ self.now.pools }
        ensures well_formed { IsWellFormed self.now }
    {
        self.pools.as_slice()
    }

    /// Returns the classes of jobs, of which there are at most 256, in plan order.
    pub fn classes(&self) -> &[Class]
        ensures value { result.now ≡ self.now.classes }
        ensures well_formed { IsWellFormed self.now }
    {
        self.classes.as_slice()
    }

    /// Returns the client kinds, of which there are at most 256, in plan order.
    pub fn clients(&self) -> &[Client]
        ensures value { result.now ≡ self.now.clients }
        ensures well_formed { IsWellFormed self.now }
    {
        self.clients.as_slice()
    }

    /// Returns the pool with this index, counted from 0, or `None` if there is no such pool.
    pub fn pool_at(&self, pool: usize) -> Option<&Pool>
        ensures found { IfSome result (λ found. found.now ≡ spec.pool_at self.now pool) }
        ensures absent { IfNone result (spec.pool_at self.now pool ≡ spec.no_pool) }
        ensures exists { IsSome result ↔ (pool < length self.now.pools) }
    {
        self.pools.get(pool)
    }

    /// Returns the class with this index, counted from 0, or `None` if there is no such class.
    pub fn class_at(&self, class: usize) -> Option<&Class>
        ensures found { IfSome result (λ found. found.now ≡ spec.class_at self.now class) }
        ensures absent { IfNone result (spec.class_at self.now class ≡ spec.no_class) }
        ensures exists { IsSome result ↔ (class < length self.now.classes) }
    {
        self.classes.get(class)
    }

    /// Returns the client kind with this index, counted from 0, or `None` if there is no such kind.
    pub fn client_at(&self, client: usize) -> Option<&Client>
        ensures found { IfSome result (λ found. found.now ≡ spec.client_at self.now client) }
        ensures absent { IfNone result (spec.client_at self.now client ≡ spec.no_client) }
        ensures exists { IsSome result ↔ (client < length self.now.clients) }
    {
        self.clients.get(client)
    }

    /// Returns the name of the pool with this index, counted from 0, or an empty name if there is
    /// no such pool.
    pub fn pool_name(&self, pool: usize) -> &str
        ensures { result.now ≡ (spec.pool_at self.now pool).name }
    {
        match self.pool_at(pool) {
            Some(pool) => pool.name.as_str(),
            None => "",
        }
    }

    /// Returns the name of the class with this index, counted from 0, or an empty name if there is
    /// no such class.
    pub fn class_name(&self, class: usize) -> &str
        ensures { result.now ≡ (spec.class_at self.now class).name }
    {
        match self.class_at(class) {
            Some(class) => class.name.as_str(),
            None => "",
        }
    }

    /// Returns the name of the client kind with this index, counted from 0, or an empty name if
    /// there is no such kind.
    pub fn client_name(&self, client: usize) -> &str
        ensures { result.now ≡ (spec.client_at self.now client).name }
    {
        match self.client_at(client) {
            Some(client) => client.name.as_str(),
            None => "",
        }
    }
}
