//! The rounds that have begun and not ended.

ghost use Rattle.std.specs.Prelude.{◌≡◌, ◌++◌, ◌∷◌, [], ℕ, List, Option, OnOk, IfOk};
ghost use Rattle.support.specs.Numbered.{value_at};
ghost use Rattle.recordings.specs.RecordingLine.{RecordedLine, line_view};
ghost use Rattle.recordings.specs.PathsOfLines.{KeepsRules};
ghost use Rattle.conformance.specs.RoundExcesses.{kind_at};
ghost use Rattle.conformance.specs.OtherKinds.{AreKindsBy};
ghost use Rattle.conformance.specs.OpenRounds as spec;

use crate::other_kinds::OtherKinds;
use job_bodies::Plan;
use recordings::Line;
use std::alloc::{AllocError, Global};
use support::IdMap;

/// A map from each open round to the client kind for which the round is counted. The value is
/// `None` if the round is not counted. The counts show whether a kind has more rounds than the plan
/// allows.
#[derive(Drop)]
pub(crate) struct OpenRounds {
    kinds: IdMap<Option<usize>>,
}

impl OpenRounds {
    /// Creates an empty table.
    pub(crate) fn new(alloc: Global) -> OpenRounds
        ensures { (kinds : List (Option ℕ)) → spec.AreOpen kinds [] result }
    {
        OpenRounds {
            kinds: IdMap::new(alloc),
        }
    }

    /// Reads the next line of a valid recording. If the line begins or ends a round, returns the
    /// client kind for which the round is counted. Returns `None` if the round is not counted, and
    /// for any other line.
    ///
    /// The client kind is looked up in `others`. A round that is not in `others` is counted for the
    /// first client kind that its label may refer to.
    ///
    /// # Errors
    ///
    /// Returns `AllocError` if memory runs out.
    pub(crate) fn take(
        &mut self,
        plan: &Plan,
        others: &OtherKinds,
        line: &Line<'_>,
    ) -> Result<Option<usize>, AllocError>
        ensures kind { (kinds : List (Option ℕ)) (before : List RecordedLine)
            → KeepsRules (before ++ line_view line.now ∷ [])
            → AreKindsBy plan.now others.now (before ++ line_view line.now ∷ []) kinds
            → spec.AreOpen kinds before self.old
            → IfOk result (λ kind. kind_at kinds (line_view line.now) ≡ kind) }
        ensures kept { (kinds : List (Option ℕ)) (before : List RecordedLine)
            → KeepsRules (before ++ line_view line.now ∷ [])
            → AreKindsBy plan.now others.now (before ++ line_view line.now ∷ []) kinds
            → spec.AreOpen kinds before self.old
            → OnOk result (spec.AreOpen kinds (before ++ line_view line.now ∷ []) self.new) }
    {
        self.note(plan, others, line)
    }

    fn note(
        &mut self,
        plan: &Plan,
        others: &OtherKinds,
        line: &Line<'_>,
    ) -> Result<Option<usize>, AllocError>
        ensures kind { IfOk result (λ kind.
            kind ≡ spec.kind_by_line plan.now others.now self.old (line_view line.now)) }
        ensures kept { OnOk result
            ((round : ℕ)
            → value_at self.new.kinds round
            ≡ spec.entry_after_line plan.now others.now (line_view line.now) round
            (value_at self.old.kinds round)) }
    {
        match *line {
            Line::RoundBegins { round, kind } => {
                let kind = others.kind_of(plan, round, kind);
                self.kinds.insert(round, kind)?;
                Ok(kind)
            }
            Line::RoundEnds { round } => Ok(self.end(round)),
            _ => Ok(None),
        }
    }

    // Removes the round and returns its kind.
    fn end(&mut self, round: usize) -> Option<usize>
        ensures kind { result ≡ spec.kind_in self.old round }
        ensures kept { (one : ℕ)
            → value_at self.new.kinds one
            ≡ spec.kept_without round one (value_at self.old.kinds one) }
    {
        self.kinds.remove(round)?
    }
}
