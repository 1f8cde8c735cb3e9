//! The sets of jobs of a world that wait only for each other.

ghost use Rattle.interleaving.specs.OfPlan.{IsReachableView};

use crate::worlds::facts::push_fact;
use interleaving::World;
use job_bodies::Plan;
use std::alloc::{AllocError, Global};

// The number of jobs that may be members of the sets. The worlds of these tests create fewer jobs,
// so the last of them does not exist.
const JOBS_SHOWN: u32 = 6;

/// Appends each set of jobs that wait only for each other. Only the first [`JOBS_SHOWN`] jobs can
/// be members of these sets.
pub fn push_stuck_sets(
    said: &mut String,
    alloc: Global,
    plan: &Plan,
    world: &World,
) -> Result<(), AllocError>
    requires { IsReachableView plan.now world.now.view }
{
    for set in 0..1_u32 << JOBS_SHOWN {
        let members = members_of(alloc, set)?;
        if world.stuck(plan, &members) {
            push_fact(said, &format!(in alloc; "{members:?}")?)?;
        }
    }
    Ok(())
}

fn members_of(alloc: Global, set: u32) -> Result<Vec<usize>, AllocError> {
    let mut members = Vec::new(alloc);
    for number in 0..JOBS_SHOWN {
        if (set >> number) & 1 == 1 {
            members.push(number as usize)?;
        }
    }
    Ok(members)
}
