//! A test of the search for sizes. In its plan, each pool needs more threads if the next pool has
//! more threads.

use crate::calls::fits::plan_of;
use job_bodies::Plan;
use size_search::{SizesFound, search_sizes};
use std::alloc::{AllocError, Global};
use std::test::*;

// The number of pools of the plan.
const STEPS: u64 = 12;

// Returns the text of the plan. In each pool, a job of class `a` waits for a leaf job of the same
// pool, and a job of class `x` waits for an `a` of the pool before. Clients submit many `x` of each
// pool, and 3 `a` of the last pool.
fn stairs(alloc: Global) -> Result<String, AllocError> {
    let mut text = String::new(alloc);
    for step in 0..STEPS {
        write!(
            text,
            "[[pool]]\nname = 'p{step}'\ncore = 1\nmax = 1\nqueue = 100000\n"
        )?;
    }
    for step in 0..STEPS {
        write!(
            text,
            "[[class]]\nname = 'leaf{step}'\npool = 'p{step}'\nbody = ['work 1']\n"
        )?;
        write!(
            text,
            "[[class]]\nname = 'a{step}'\npool = 'p{step}'\nbody = ['submit leaf{step} as x', 'get x']\n"
        )?;
    }
    for step in 1..STEPS {
        let before = step.saturating_sub(1);
        write!(
            text,
            "[[class]]\nname = 'x{step}'\npool = 'p{step}'\nbody = ['submit a{before} as x', 'get x']\n"
        )?;
    }
    for step in 1..STEPS {
        write!(
            text,
            "[[client]]\nname = 'c{step}'\ncount = 1000\nrepeat = true\nbody = ['submit x{step} as x', 'get x']\n"
        )?;
    }
    let last = STEPS.saturating_sub(1);
    write!(
        text,
        "[[client]]\nname = 'c'\ncount = 3\nrepeat = true\nbody = ['submit a{last} as x', 'get x']\n"
    )?;
    Ok(text)
}

// Returns the core and maximum of each pool of the plan that the search finds, or an empty list if
// it finds no sizes.
fn threads_found(alloc: Global, plan: &Plan) -> Result<Vec<[u64; 2]>, AllocError> {
    let mut threads = Vec::new(alloc);
    if let SizesFound::Found { plan: fit, .. } = search_sizes(alloc, plan, None)? {
        for pool in fit.pools() {
            threads.push([pool.core, pool.max])?;
        }
    }
    Ok(threads)
}

#[test]
fn pools_that_widen_one_another_are_soon_wide_enough(rt: HostRuntime) {
    let alloc = rt.alloc();
    let plan = plan_of(&rt, alloc, stairs(alloc));
    let threads = threads_found(alloc, &plan).expect(&rt, "there is memory");
    assert_eq!(rt; threads.len() as u64, STEPS);
    // In the last pool 3 jobs wait, and in each other pool as many jobs as the next pool has
    // threads. Each pool needs one more thread than that.
    let mut enough = 3u64;
    for threads in threads.iter().rev() {
        enough = enough.saturating_add(1);
        assert_eq!(rt; *threads, [enough, enough]);
    }
}
