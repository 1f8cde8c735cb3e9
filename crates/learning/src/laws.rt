//! A law about the pools of a learned plan, as the contract of an empty function.

ghost use Rattle.learning.specs.Pools.{LearnedPoolsAreNormal};

/// States that a learned pool with an unbounded queue has the same sizes as if it were read from
/// the text of a plan. Two sizes have these values in both cases, because they have no effect:
///
/// - The queue capacity is 1,000,000.
/// - The maximum is the core size, unless core threads may time out.
pub fn learned_pools_are_normal()
    ensures { LearnedPoolsAreNormal }
{}
