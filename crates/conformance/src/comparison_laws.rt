//! Laws about the comparisons of pools and rounds, and about rejections. Each law is the contract
//! of a function with an empty body.

ghost use Rattle.conformance.specs.ComparisonLaws.{DeviationsAddUp, ExcessesAddUp, PoolsAreAsPlanned, PoolsAreRecorded, RoundsAreWithinPlan};
ghost use Rattle.conformance.specs.RejectionLaws.{RejectionsNeedTheKey, UnboundedPoolsGetNoKey, UnboundedPoolsRejectNothing, WithoutTheKeyAllCount};

/// States that a comparison line by line finds all differences between the pools of a recording and
/// those of a plan:
///
/// - One more line adds its own differences, and changes none of the earlier ones.
/// - Suppose that no line has a difference. Then the plan has each recorded pool, and each line of
///   the pool is as planned. The number of prestarted threads is compared only in a pool's first
///   line.
/// - Suppose that the recording ends with `end`, and that the comparison reports no missing pool.
///   Then each pool of the plan has a line.
pub fn pools_are_as_planned()
    ensures adds_up { DeviationsAddUp }
    ensures as_planned { PoolsAreAsPlanned }
    ensures recorded { PoolsAreRecorded }
{}

/// States that a check line by line finds every client kind with too many rounds. If no line of a
/// recording has an excess, then after each line every kind has at most as many rounds as the plan
/// allows.
pub fn rounds_are_within_plan()
    ensures adds_up { ExcessesAddUp }
    ensures within { RoundsAreWithinPlan }
{}

/// States that the plan allows a rejection only if the rejecting pool may reject jobs.
///
/// Also states a consequence for a plan in which no pool may reject jobs. Consider the lines of a
/// recording that invalidate a SAFE answer independently of the paths. If each of them is a
/// rejection that the plan allows, there is no such line.
pub fn rejections_need_the_key()
    ensures need { RejectionsNeedTheKey }
    ensures all { WithoutTheKeyAllCount }
{}

/// States two facts about each pool with an unbounded queue:
///
/// - The plan allows no rejection by the pool.
/// - [`mark_rejecting_pools`](crate::mark_rejecting_pools) returns a plan in which the pool may not
///   reject jobs, unless the field `queue` of the pool is 0. In a parsed plan it is not 0, because
///   parsing sets this field to 1,000,000 if the queue is unbounded.
pub fn unbounded_pools_reject_nothing()
    ensures none { UnboundedPoolsRejectNothing }
    ensures no_key { UnboundedPoolsGetNoKey }
{}
