//! Laws about inputs and answers. Each is the contract of a function with an empty body.

ghost use Rattle.sizing_cli.specs.Laws.{InputsSplitAtTheLastSeparator, NoBundleWithoutASeparator, JoinedTextsSplitAgain};
ghost use Rattle.sizing_cli.specs.SafeInput.{YesMeansSafe};

/// States which inputs are bundles. An input is a bundle if it consists of these three parts, and
/// no other input is a bundle:
///
/// - the plan's text, which is empty or ends with a newline;
/// - a line that is exactly `%%`, whose newline may be missing if the second part is empty;
/// - the second part, in which no line is `%%`.
pub fn inputs_split_at_the_last_separator()
    ensures { InputsSplitAtTheLastSeparator }
{}

/// States which inputs are not bundles: the inputs without a line `%%`, and no other inputs.
pub fn no_bundle_without_a_separator()
    ensures { NoBundleWithoutASeparator }
{}

/// States that the plan is safe if `check` answers yes. The input then holds the plan and a
/// certificate for this plan. In every state that a list of events can reach, these facts hold:
///
/// - No submit was refused.
/// - No pool exceeds its maximum of threads or its queue capacity.
/// - No unfinished jobs wait only for each other.
pub fn a_yes_means_safe()
    ensures { YesMeansSafe }
{}

/// States that a split undoes a join. If the second text has no line `%%`, the joined text splits
/// into the plan's text and the second text again. The plan's text then has the newline that the
/// join appended, if any.
pub fn joined_texts_split_again()
    ensures { JoinedTextsSplitAgain }
{}
