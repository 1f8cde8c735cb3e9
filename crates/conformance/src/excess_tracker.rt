//! The rounds of each client kind, compared with the plan.

ghost use Rattle.std.specs.Prelude.{◌≡◌, ◌++◌, ◌∷◌, [], ℕ, List, Option, OnOk, IfOk};
ghost use Rattle.recordings.specs.RecordingLine.{RecordedLine, line_view};
ghost use Rattle.recordings.specs.PathsOfLines.{KeepsRules};
ghost use Rattle.conformance.specs.RoundExcesses.{excesses_by_lines};
ghost use Rattle.conformance.specs.ExcessTracker.{IsExcessTrackerOf};
ghost use Rattle.conformance.specs.Lines.{lines_of};
ghost use Rattle.conformance.specs.OtherKinds.{AreKindsBy};
ghost use Rattle.conformance.specs.UnplannedLabels.{IsNext};

use crate::open_rounds::OpenRounds;
use crate::other_kinds::OtherKinds;
use crate::well_formed_lines::WellFormedLines;
use crate::{RoundComparison, RoundExcess, rounds_are_within_plan};
use job_bodies::Plan;
use recordings::Line;
use std::alloc::{AllocError, Global};

/// A tracker that reads a recording line by line. It finds, for each client kind, the first line at
/// which the kind has more rounds than the plan allows.
#[derive(Drop)]
pub(crate) struct ExcessTracker {
    rounds: OpenRounds,
    comparison_state: RoundComparison,
    pub(crate) found: Vec<RoundExcess>,
}

impl ExcessTracker {
    /// Creates a tracker that has read no line yet.
    ///
    /// # Errors
    ///
    /// Returns `AllocError` if memory runs out.
    pub(crate) fn new(alloc: Global, plan: &Plan) -> Result<ExcessTracker, AllocError>
        ensures { (kinds : List (Option ℕ)) → IfOk result (IsExcessTrackerOf plan.now kinds []) }
    {
        let comparison_state = RoundComparison::new(alloc, plan)?;
        Ok(ExcessTracker {
            rounds: OpenRounds::new(alloc),
            comparison_state,
            found: Vec::new(alloc),
        })
    }

    /// Reads line `number` of a valid recording. If the line begins or ends a round, updates the
    /// counts of the client kind for which the round is counted. This kind is looked up in
    /// `others`. A round that is not in `others` is counted for the first client kind that its
    /// label may refer to.
    ///
    /// # Errors
    ///
    /// Returns `AllocError` if memory runs out, or if more than `MAX_RECORDED_ROUNDS` rounds of a
    /// kind begin.
    pub(crate) fn take(
        &mut self,
        plan: &Plan,
        others: &OtherKinds,
        number: usize,
        line: &Line<'_>,
    ) -> Result<(), AllocError>
        ensures { (kinds : List (Option ℕ)) (before : List RecordedLine)
            → KeepsRules (before ++ line_view line.now ∷ [])
            → IsNext number before
            → AreKindsBy plan.now others.now (before ++ line_view line.now ∷ []) kinds
            → IsExcessTrackerOf plan.now kinds before self.old
            → OnOk result
            (IsExcessTrackerOf plan.now kinds (before ++ line_view line.now ∷ []) self.new) }
    {
        rounds_are_within_plan();
        let kind = self.rounds.take(plan, others, line)?;
        self.comparison_state
            .take(kind, number, line, &mut self.found)
    }
}

/// Finds the client kinds that have more rounds than the plan allows. Returns, for each such kind,
/// the first line at which the kind has too many rounds. The recording must be valid. The kind for
/// which a round is counted is looked up in `others`. A round that is not in `others` is counted
/// for the first client kind that its label may refer to.
///
/// # Errors
///
/// Returns `AllocError` if memory runs out, or if more than `MAX_RECORDED_ROUNDS` rounds of a kind
/// begin.
pub(crate) fn excesses(
    alloc: Global,
    plan: &Plan,
    recording: &[u8],
    others: &OtherKinds,
) -> Result<Vec<RoundExcess>, AllocError>
    ensures { (kinds : List (Option ℕ))
        → KeepsRules (lines_of recording.now)
        → AreKindsBy plan.now others.now (lines_of recording.now) kinds
        → IfOk result
        (λ found. found.items ≡ excesses_by_lines plan.now kinds (lines_of recording.now)) }
{
    let mut excess_tracker = ExcessTracker::new(alloc, plan)?;
    let mut lines = WellFormedLines::new(recording);
    let mut number = 0;
    while let Some(line) = lines.next() {
        number += 1;
        excess_tracker.take(plan, others, number, &line)?;
    }
    Ok(excess_tracker.found)
}
