//! The plans and certificates of the tests of judged plans.

// ---- a pool, and two clients that each repeatedly submit one job and wait for it

pub(crate) const ONE_POOL: &str = "
    pool = [{ name = 'p', core = 1, max = 1, queue = 2 }]
    class = [{ name = 'a', pool = 'p', body = ['work 1'] }]
    client = [{ name = 'c', count = 2, repeat = true, body = ['submit a as x', 'get x'] }]
";

pub(crate) const WITH_A_QUEUE_OF_1: &str = "
    pool = [{ name = 'p', core = 1, max = 1, queue = 1 }]
    class = [{ name = 'a', pool = 'p', body = ['work 1'] }]
    client = [{ name = 'c', count = 2, repeat = true, body = ['submit a as x', 'get x'] }]
";

pub(crate) const THAT_MAY_REJECT: &str = "
    pool = [{ name = 'p', core = 1, max = 1, queue = 1, may_reject = true }]
    class = [{ name = 'a', pool = 'p', body = ['work 1'] }]
    client = [{ name = 'c', count = 2, repeat = true, body = ['submit a as x', 'get x'] }]
";

// A pool that may reject jobs, and has room for all of them.
pub(crate) const THAT_REJECTS_NOTHING: &str = "
    pool = [{ name = 'p', core = 1, max = 1, queue = 2, may_reject = true }]
    class = [{ name = 'a', pool = 'p', body = ['work 1'] }]
    client = [{ name = 'c', count = 2, repeat = true, body = ['submit a as x', 'get x'] }]
";

// A pool with an unbounded queue, so its maximum has no effect.
pub(crate) const UNBOUNDED: &str = "
    pool = [{ name = 'p', core = 1, max = 8, queue = 'unbounded' }]
    class = [{ name = 'a', pool = 'p', body = ['work 1'] }]
    client = [{ name = 'c', count = 2, repeat = true, body = ['submit a as x', 'get x'] }]
";

// A pool with an unbounded queue and without a maximum, whose core threads may time out.
pub(crate) const WITH_TIMEOUTS: &str = "
    pool = [{ name = 'p', core = 8, max = 'unbounded', queue = 'unbounded', core_timeout = true }]
    class = [{ name = 'a', pool = 'p', body = ['work 1'] }]
    client = [{ name = 'c', count = 2, repeat = true, body = ['submit a as x', 'get x'] }]
";

pub(crate) const WITH_A_MILLION_CLIENTS: &str = "
    pool = [{ name = 'p', core = 1, max = 1, queue = 2 }]
    class = [{ name = 'a', pool = 'p', body = ['work 1'] }]
    client = [{ name = 'c', count = 1000000, repeat = true, body = ['submit a as x', 'get x'] }]
";

pub(crate) const WITH_CORE_ABOVE_MAX: &str = "
    pool = [{ name = 'p', core = 2, max = 1, queue = 2 }]
    class = [{ name = 'a', pool = 'p', body = ['work 1'] }]
    client = [{ name = 'c', count = 2, repeat = true, body = ['submit a as x', 'get x'] }]
";

// Three clients that run their bodies once. Two threads and a queue of 1 have room for their jobs.
pub(crate) const ONCE: &str = "
    pool = [{ name = 'p', core = 2, max = 2, queue = 1 }]
    class = [{ name = 'a', pool = 'p', body = ['work 1'] }]
    client = [{ name = 'c', count = 3, body = ['submit a as x', 'get x'] }]
";

// The same clients. If core threads may time out, the queue alone must have room for their jobs.
pub(crate) const ONCE_WITH_TIMEOUTS: &str = "
    pool = [{ name = 'p', core = 2, max = 2, queue = 1, core_timeout = true }]
    class = [{ name = 'a', pool = 'p', body = ['work 1'] }]
    client = [{ name = 'c', count = 3, body = ['submit a as x', 'get x'] }]
";

pub(crate) const ONCE_AND_ONE_MORE: &str = "
    pool = [{ name = 'p', core = 2, max = 2, queue = 1 }]
    class = [{ name = 'a', pool = 'p', body = ['work 1'] }]
    client = [{ name = 'c', count = 4, body = ['submit a as x', 'get x'] }]
";

pub(crate) const FORGETTING: &str = "
    pool = [{ name = 'p', core = 1, max = 1, queue = 2 }]
    class = [{ name = 'a', pool = 'p', body = ['work 1'] }]
    client = [{ name = 'c', count = 1, repeat = true, body = ['submit a'] }]
";

pub(crate) const ONE_POOL_CERT: &str = r#"{"version": 1, "pools": [{
    "standing": {"workers": [0], "classes": [[1, 1, 1, 1]], "clients": [[1, 0, 1]]},
    "blocked": {"workers": [0], "classes": [[0, 0, 0, 0]], "clients": [[0, 0, 0]]}}],
    "ranks": {"pools": [0], "reach": [0], "levels": [0]}}"#;

/// The certificate of a plan with a pool that may reject jobs. The certificate bounds no queue.
pub(crate) const WITHOUT_BOUND: &str = r#"{"version": 2, "pools": [{
    "blocked": {"workers": [0], "classes": [[0, 0, 0, 0]], "clients": [[0, 0, 0]]}}],
    "ranks": {"pools": [0], "reach": [0], "levels": [0]}}"#;

pub(crate) const WITH_THE_MOST_WEIGHT: &str = r#"{"version": 1, "pools": [{
    "standing": {"workers": [0], "classes": [[1000000000, 1000000000, 1000000000, 1000000000]],
        "clients": [[1000000000, 0, 1000000000]]},
    "blocked": {"workers": [0], "classes": [[0, 0, 0, 0]], "clients": [[0, 0, 0]]}}],
    "ranks": {"pools": [0], "reach": [0], "levels": [0]}}"#;

pub(crate) const WITH_A_LARGER_WEIGHT: &str = r#"{"version": 1, "pools": [{
    "standing": {"workers": [0], "classes": [[1000000001, 1, 1, 1]], "clients": [[1, 0, 1]]},
    "blocked": {"workers": [0], "classes": [[0, 0, 0, 0]], "clients": [[0, 0, 0]]}}],
    "ranks": {"pools": [0], "reach": [0], "levels": [0]}}"#;

pub(crate) const WITH_A_SHORT_ROW: &str = r#"{"version": 1, "pools": [{
    "standing": {"workers": [0], "classes": [[1, 1, 1, 1]], "clients": [[1, 0]]},
    "blocked": {"workers": [0], "classes": [[0, 0, 0, 0]], "clients": [[0, 0, 0]]}}],
    "ranks": {"pools": [0], "reach": [0], "levels": [0]}}"#;

pub(crate) const WITH_A_HIGH_RANK: &str = r#"{"version": 1, "pools": [{
    "standing": {"workers": [0], "classes": [[1, 1, 1, 2]], "clients": [[1, 0, 1]]},
    "blocked": {"workers": [0], "classes": [[0, 0, 0, 0]], "clients": [[0, 0, 0]]}}],
    "ranks": {"pools": [1], "reach": [0], "levels": [0]}}"#;

pub(crate) const LIFETIME_CERT: &str = r#"{"version": 2, "pools": [{
    "lifetime": {"workers": [0], "classes": [[1, 1, 1, 1]], "clients": [[1, 0, 0]]},
    "blocked": {"workers": [0], "classes": [[0, 0, 0, 0]], "clients": [[0, 0, 0]]}}],
    "ranks": {"pools": [0], "reach": [0], "levels": [0]}}"#;

pub(crate) const FORGETTING_CERT: &str = r#"{"version": 1, "pools": [{
    "standing": {"workers": [0], "classes": [[1, 1, 1, 0]], "clients": [[1, 0]]},
    "blocked": {"workers": [0], "classes": [[0, 0, 0, 0]], "clients": [[0, 0]]}}],
    "ranks": {"pools": [0], "reach": [0], "levels": [0]}}"#;

// ---- jobs that wait for jobs

// A plan in which an outer job submits three inner jobs to its own pool, which has a queue of 2,
// and then waits for them.
pub(crate) const FAN_OUT: &str = "
    pool = [{ name = 'p', core = 2, max = 2, queue = 2 }]
    client = [{ name = 'c', count = 1, repeat = true, body = ['submit outer as x', 'get x'] }]
    [[class]]
    name = 'outer'
    pool = 'p'
    body = ['submit inner as x', 'submit inner as y', 'submit inner as z', 'get x', 'get y', 'get z']
    [[class]]
    name = 'inner'
    pool = 'p'
    body = ['work 1']
";

pub(crate) const FAN_OUT_CERT: &str = r#"{"version": 1, "pools": [{
    "standing": {"workers": [0], "classes": [[3, 3, 2, 1, 0, 1, 2, 3, 3], [1, 1, 1, 1]], "clients": [[3, 0, 3]]},
    "blocked": {"workers": [0], "classes": [[1, 1, 1, 1, 1, 1, 1, 1, 1], [0, 0, 0, 0]], "clients": [[1, 0, 1]]}}],
    "ranks": {"pools": [0], "reach": [0, 0], "levels": [1, 0]}}"#;

// A job waits for a job of another pool, and that job waits for a job of the first pool.
pub(crate) const THERE_AND_BACK: &str = "
    pool = [{ name = 'p', core = 1, max = 1, queue = 2 }, { name = 'q', core = 2, max = 2, queue = 2 }]
    class = [
        { name = 'a', pool = 'p', body = ['submit b as x', 'get x'] },
        { name = 'b', pool = 'q', body = ['submit d as x', 'get x'] },
        { name = 'd', pool = 'p', body = ['work 1'] },
    ]
    client = [{ name = 'c', count = 1, repeat = true, body = ['submit a as x', 'get x'] }]
";

pub(crate) const THERE_AND_BACK_CERT: &str = r#"{"version": 1, "pools": [{
    "standing": {"workers": [0, 0], "classes": [[1, 1, 0, 1, 1], [1, 1, 0, 1, 1], [1, 1, 1, 1]], "clients": [[1, 0, 1]]},
    "blocked": {"workers": [0, 0], "classes": [[0, 0, 0, 0, 0], [0, 0, 0, 0, 0], [0, 0, 0, 0]], "clients": [[0, 0, 0]]}}, {
    "standing": {"workers": [0, 0], "classes": [[1, 1, 0, 1, 1], [1, 1, 1, 1, 1], [0, 0, 0, 0]], "clients": [[1, 0, 1]]},
    "blocked": {"workers": [0, 0], "classes": [[1, 1, 0, 1, 1], [1, 1, 1, 1, 1], [0, 0, 0, 0]], "clients": [[1, 0, 1]]}}],
    "ranks": {"pools": [1, 0], "reach": [1, 1, 1], "levels": [2, 1, 0]}}"#;
