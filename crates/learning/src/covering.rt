//! Repeated passes over a part of a recording, until every actor matches a class or client kind of
//! the plan.

ghost use Rattle.std.specs.Prelude.{◌≡◌, List, OnOk, IfErr};
ghost use Rattle.recordings.specs.RecordingLine.{RecordedLine};
ghost use Rattle.learning.specs.LearningState.{IsDraftOf, IsLearnError};
ghost use Rattle.learning.specs.InferenceLimit.{HasActors};

use crate::draft::PlanDraft;
use crate::extent::RecordingPart;
use crate::inference_limit::InferenceLimit;
use crate::learn_error::LearnError;
use crate::pass::run_pass;
use job_bodies::Pool;
use std::alloc::Global;

/// The maximum number of passes over the part of the recording. Two passes are typical: bodies
/// change in the first pass, and every actor matches a body in the second.
const MAX_PASSES: usize = 600;

/// Changes the bodies of `draft` until every actor in `part` matches one of them. Returns the
/// client kind of each round in `part`, by round number.
///
/// # Errors
///
/// Returns [`LearnError::Memory`] if memory runs out, and [`LearnError::InferenceLimit`] in these
/// cases:
///
/// - An actor still matches no body after a pass that changed no body, or after [`MAX_PASSES`]
///   passes.
/// - The actors need more classes or client kinds than a plan may have.
/// - The name of a new class or client kind would be too long.
/// - `draft` and `pools` do not form a valid plan.
pub(crate) fn cover_all(
    alloc: Global,
    part: RecordingPart<'_>,
    pools: &[Pool],
    draft: &mut PlanDraft,
) -> Result<Vec<Option<usize>>, LearnError>
    ensures ok { (lines : List RecordedLine)
        → IsDraftOf lines draft.old
        → OnOk result (IsDraftOf lines draft.new) }
    ensures err { (lines : List RecordedLine)
        → HasActors lines
        → IsDraftOf lines draft.old
        → IfErr result (IsLearnError lines) }
{
    for _ in 0..MAX_PASSES {
        let plan = draft.plan(pools)?;
        let pass = run_pass(alloc, part, pools, &plan, draft)?;
        if pass.is_explained {
            return Ok(pass.kinds);
        }
        if !pass.is_changed {
            break;
        }
    }
    Err(LearnError::InferenceLimit(InferenceLimit::Paths))
}
