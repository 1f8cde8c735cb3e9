//! Sample plans, in which `$1`, `$2` and so on stand for sizes.

use crate::files::fill::with_columns;
use std::alloc::{AllocError, Global};

// A plan with one pool, which has these sizes (core, maximum, queue), and `$4` repeating clients,
// each of which submits one job and waits for it.
const ONE_POOL: &str = r#"[[pool]]
name = "p"
core = $1
max = $2
queue = $3
[[class]]
name = "a"
pool = "p"
body = ["work 1"]
[[client]]
name = "c"
count = $4
repeat = true
body = ["submit a as x", "get x"]"#;

// A plan like `ONE_POOL` whose clients run their bodies once.
const ONE_POOL_ONCE: &str = r#"[[pool]]
name = "p"
core = $1
max = $2
queue = $3
[[class]]
name = "a"
pool = "p"
body = ["work 1"]
[[client]]
name = "c"
count = $4
body = ["submit a as x", "get x"]"#;

// A plan with one pool, which has these sizes (core, maximum, queue). An outer job submits an inner
// job to the same pool and waits for it.
const NESTED: &str = r#"[[pool]]
name = "p"
core = $1
max = $2
queue = $3
[[class]]
name = "outer"
pool = "p"
body = ["submit inner as x", "get x"]
[[class]]
name = "inner"
pool = "p"
body = ["work 1"]
[[client]]
name = "c"
count = 1
repeat = true
body = ["submit outer as x", "get x"]"#;

// A plan with one pool, which has two threads and this queue. An outer job submits three inner jobs
// to the same pool and waits for them.
const FAN_OUT: &str = r#"[[pool]]
name = "p"
core = 2
max = 2
queue = $1
[[class]]
name = "outer"
pool = "p"
body = ["submit inner as x", "submit inner as y", "submit inner as z", "get x", "get y", "get z"]
[[class]]
name = "inner"
pool = "p"
body = ["work 1"]
[[client]]
name = "c"
count = 1
repeat = true
body = ["submit outer as x", "get x"]"#;

// A plan with a pool `front`, whose jobs wait for jobs of a pool `back`.
const FRONT_AND_BACK: &str = r#"[[pool]]
name = "front"
core = 4
max = 4
queue = 1000
[[pool]]
name = "back"
core = 2
max = 2
queue = 4
[[class]]
name = "f"
pool = "front"
body = ["submit b as x", "get x"]
[[class]]
name = "b"
pool = "back"
body = ["work 1"]
[[client]]
name = "c"
count = 1000
repeat = true
body = ["submit f as x", "get x"]"#;

// A plan with two pools, the first with one thread and the second with `$1` core threads. Jobs of
// each pool wait for jobs of the other.
const TWO_POOLS: &str = r#"[[pool]]
name = "p"
core = 1
max = 1
queue = 2
[[pool]]
name = "q"
core = $1
max = $1
queue = 2
[[class]]
name = "a"
pool = "p"
body = ["submit b as x", "get x"]
[[class]]
name = "b"
pool = "q"
body = ["work 1"]
[[class]]
name = "c"
pool = "q"
body = ["submit d as x", "get x"]
[[class]]
name = "d"
pool = "p"
body = ["work 1"]
[[client]]
name = "u"
count = 1
repeat = true
body = ["submit a as x", "get x"]
[[client]]
name = "w"
count = 1
repeat = true
body = ["submit c as x", "get x"]"#;

// The text of a third pool, with a class and a client of its own, to be appended to `TWO_POOLS`.
const A_THIRD_POOL: &str = r#"
[[pool]]
name = "r"
core = 1
max = 1
queue = 1
[[class]]
name = "e"
pool = "r"
body = ["work 1"]
[[client]]
name = "v"
count = 1
repeat = true
body = ["submit e as x", "get x"]"#;

// A plan in which a job waits for a job of another pool, which waits for a job of the first pool
// again.
const THERE_AND_BACK: &str = r#"[[pool]]
name = "p"
core = 1
max = 1
queue = 2
[[pool]]
name = "q"
core = 2
max = 2
queue = 2
[[class]]
name = "a"
pool = "p"
body = ["submit b as x", "get x"]
[[class]]
name = "b"
pool = "q"
body = ["submit d as x", "get x"]
[[class]]
name = "d"
pool = "p"
body = ["work 1"]
[[client]]
name = "c"
count = 1
repeat = true
body = ["submit a as x", "get x"]"#;

// A plan with one pool, which has these sizes (core, maximum, queue). A class and a client each
// have a work, a submit and a get. The client repeats if `$4` is `true`. Another client only works,
// and repeats.
const EACH_ACTION: &str = r#"[[pool]]
name = "p"
core = $1
max = $2
queue = $3
[[class]]
name = "outer"
pool = "p"
body = ["work 1", "submit inner as x", "get x"]
[[class]]
name = "inner"
pool = "p"
body = ["work 1"]
[[client]]
name = "c"
count = 1
repeat = $4
body = ["work 1", "submit outer as x", "get x"]
[[client]]
name = "d"
count = 1
repeat = true
body = ["work 1"]"#;

/// Returns the text of a sample plan. The first word of `words` is the name of the plan, and the
/// other words are its sizes. If there is no such plan, the result is not the text of a valid plan.
pub fn sample_plan(alloc: Global, words: &str) -> Result<String, AllocError> {
    let (name, sizes) = words.split_once(' ').unwrap_or((words, ""));
    let columns = sizes.split(' ').collect::<Vec<&str>>(alloc)?;
    let mut text = with_columns(alloc, template(name), &columns)?;
    if name == "three_pools" {
        text.push_str(A_THIRD_POOL)?;
    }
    Ok(text)
}

fn template(name: &str) -> &'static str {
    match name {
        "one_pool" => ONE_POOL,
        "one_pool_once" => ONE_POOL_ONCE,
        "nested" => NESTED,
        "fan_out" => FAN_OUT,
        "front_and_back" => FRONT_AND_BACK,
        "two_pools" | "three_pools" => TWO_POOLS,
        "there_and_back" => THERE_AND_BACK,
        "each_action" => EACH_ACTION,
        _ => "no such plan",
    }
}
