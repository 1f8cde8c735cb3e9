//! Laws about fitted plans, whose cores and queues were raised to what a certificate needs, and
//! about widened plans, whose maximums were raised. Each law is the contract of a function with an
//! empty body.

ghost use Rattle.size_search.specs.Fitted.{FittedSizesAreLeast, AcceptedPlansFit, LargerSizesAreAccepted, SmallestFitIsLeast};
ghost use Rattle.size_search.specs.Widened.{WidenedMaxesAreLeast};
ghost use Rattle.size_search.specs.FitError.{ReportedCoresNeedLargerMaxes};

/// States that fitting gives the least cores and queues that make a certificate accept a plan.
///
/// Call a plan *larger* than the given plan if these conditions hold:
///
/// - The two plans differ only in cores and queues.
/// - No core and no queue is smaller than in the given plan.
/// - The queues of pools that may reject jobs are the same, and so are the unbounded queues.
/// - The cores whose threads may time out are the same.
///
/// Then the fitted plan is larger, and the certificate accepts it. Among the larger plans that the
/// certificate accepts, none has a smaller core or queue than the fitted plan. If there is no
/// fitted plan, the certificate accepts no larger plan.
pub fn fitted_sizes_are_least()
    ensures { FittedSizesAreLeast }
{}

/// States that fitting does not change a plan that the certificate accepts.
pub fn accepted_plans_fit()
    ensures { AcceptedPlansFit }
{}

/// States when a certificate that accepts a plan also accepts it with other cores and queues.
///
/// Let two plans differ only in cores and queues, and let the certificate accept the first plan.
/// The certificate also accepts the second plan if these conditions hold:
///
/// - No core is smaller than in the first plan.
/// - For each pool with a bounded queue, the limit on the total of its bound is not smaller than in
///   the first plan.
pub fn larger_sizes_are_accepted()
    ensures { LargerSizesAreAccepted }
{}

/// States that fitting the smallest plan gives the least cores and queues that make the certificate
/// accept a plan.
///
/// In the smallest plan, each core and each queue is 1, except for these sizes: the queues of pools
/// that may reject jobs, the unbounded queues, and the cores whose threads may time out. These
/// sizes are unchanged in the smallest plan and in the fitted plan. If there is no fitted plan, no
/// choice of the other cores and queues makes the certificate accept the plan.
pub fn smallest_fit_is_least()
    ensures { SmallestFitIsLeast }
{}

/// States that no maximum of the widened plan is larger than necessary. In the widened plan, a
/// maximum below the core that the certificate needs is raised to this core. The needed cores are
/// computed with the plan's own maximums. The maximum of a pool whose core threads may time out
/// stays unchanged.
///
/// Let the certificate accept the plan with other sizes, whose maximums are no smaller than the
/// plan's. Then these other sizes satisfy two conditions:
///
/// - Each maximum is at least as large as in the widened plan.
/// - Each core whose threads never time out is at least the core that the certificate needs with
///   the plan's own maximums.
pub fn widened_maxes_are_least()
    ensures { WidenedMaxesAreLeast }
{}

/// States what it means if a plan cannot be fitted to a certificate because of a pool's core: the
/// maximum of this pool is too small.
///
/// Let the certificate accept the plan with other sizes, and let none of the other maximums be
/// smaller than the plan's. Then the other maximum of this pool is larger than the plan's.
pub fn reported_cores_need_larger_maxes()
    ensures { ReportedCoresNeedLargerMaxes }
{}
