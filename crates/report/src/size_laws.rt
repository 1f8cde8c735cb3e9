//! A law about fitted plans. A fitted plan is the declared plan with the sizes that a search found.

ghost use Rattle.report.specs.Sizes.{UnchangedSizesAreTheDeclaredPlan};

/// States that a fitted plan equals the declared plan if no size changes. A fitted plan is the
/// declared plan with the sizes that a search found. The two plans may differ only in their sizes.
pub fn unchanged_sizes_are_the_declared_plan()
    ensures { UnchangedSizesAreTheDeclaredPlan }
{}
