//! Comparison of the rounds of a recording with a plan, line by line.

ghost use Rattle.std.specs.Prelude.{◌≡◌, ◌<◌, ◌+◌, ◌++◌, ◌∷◌, [], ℕ, List, Option, IfOk, OnOk, slice_get, if◌then◌else◌, ◌==◌, false};
ghost use Rattle.std.specs.Option.{option_map};
ghost use Rattle.job_bodies.specs.Plan as plans;
ghost use Rattle.recordings.specs.RecordingLine.{RecordedLine, line_view};
ghost use Rattle.recordings.specs.PathsOfLines.{KeepsRules};
ghost use Rattle.conformance.specs.Rounds.{no_rounds};
ghost use Rattle.conformance.specs.RoundExcesses as spec;
ghost use Rattle.conformance.specs.RoundComparison.{IsRoundComparisonOf, after_begin, after_end, reported_by_begin, reports_of_begin, reports_of_kind, reported_by_line, CountsLine};

use crate::{Excess, RoundCount};
use job_bodies::{Client, Plan};
use recordings::Line;
use std::alloc::{AllocError, Global};

/// The first line at which a client kind has more rounds than the plan allows.
#[derive(Clone, Copy)]
pub struct RoundExcess {
    /// The number of the line, from 1.
    pub line: usize,
    /// The number of the kind in the plan.
    pub kind: usize,
    pub excess: Excess,
}

/// The number of rounds of one client kind, and whether the kind has exceeded the plan's limits.
#[derive(Drop)]
struct KindRounds {
    rounds: RoundCount,
    has_exceeded: bool,
}

impl KindRounds {
    fn new(client: &Client) -> KindRounds
        ensures { result ≡ record { rounds = no_rounds client.now; has_exceeded = false } }
    {
        KindRounds {
            rounds: RoundCount::new(client),
            has_exceeded: false,
        }
    }

    // Counts the beginning of a round. Returns the excess if it is the first one of this kind.
    // Returns `None` if there is no excess, or if there was an earlier one.
    fn begin(&mut self) -> Result<Option<Excess>, AllocError>
        ensures begun { OnOk result (self.new ≡ after_begin self.old) }
        ensures reported { IfOk result (λ reported. reported ≡ reported_by_begin self.old) }
    {
        if !self.rounds.can_begin() {
            return Err(AllocError);
        }
        let excess = self.rounds.begin();
        if self.has_exceeded {
            return Ok(None);
        }
        self.has_exceeded = excess.is_some();
        Ok(excess)
    }

    // Counts the beginning of a round, and appends the excess if it is the first one of this kind.
    fn note_begin(
        &mut self,
        line: usize,
        kind: usize,
        found: &mut Vec<RoundExcess>,
    ) -> Result<(), AllocError>
        ensures begun { OnOk result (self.new ≡ after_begin self.old) }
        ensures found { OnOk result
            (found.new.items ≡ found.old.items ++ reports_of_begin line kind self.old) }
    {
        match self.begin()? {
            Some(excess) => {
                found.push(RoundExcess { line, kind, excess })?;
                Ok(())
            }
            None => Ok(()),
        }
    }

    // Counts the end of a round, if one is open.
    fn end(&mut self)
        ensures { self.new ≡ after_end self.old }
    {
        if self.rounds.can_end() {
            self.rounds.end();
        }
    }
}

/// A comparison of the rounds of a recording with the client kinds of a plan, line by line.
#[derive(Drop)]
pub struct RoundComparison {
    kinds: Vec<KindRounds>,
}

impl RoundComparison {
    /// Creates a comparison with this plan that has read no line yet.
    ///
    /// # Errors
    ///
    /// Returns `AllocError` if memory runs out.
    pub fn new(alloc: Global, plan: &Plan) -> Result<RoundComparison, AllocError>
        ensures { (kinds : List (Option ℕ))
            → IfOk result (λ comparison_state. IsRoundComparisonOf plan.now kinds comparison_state []) }
    {
        let mut kinds = Vec::new(alloc);
        for client in plan.clients() {
            kinds.push(KindRounds::new(client))?;
        }
        Ok(RoundComparison { kinds })
    }

    /// Reads line `number` of a valid recording. If this is the first line at which a client kind
    /// has more rounds than the plan allows, appends the excess to `found`. So there is at most one
    /// excess for each kind.
    ///
    /// If the line begins or ends a round, `kind` is the number of the round's client kind in the
    /// plan. It must be the same in both lines of the round. The round is not counted if `kind` is
    /// `None` or out of range. If the line neither begins nor ends a round, `kind` must be `None`.
    ///
    /// # Errors
    ///
    /// Returns `AllocError` if memory runs out, or if more than `MAX_RECORDED_ROUNDS` rounds of a
    /// kind begin. The comparison must not be used after an error.
    pub fn take(
        &mut self,
        kind: Option<usize>,
        number: usize,
        line: &Line<'_>,
        found: &mut Vec<RoundExcess>,
    ) -> Result<(), AllocError>
        ensures taken { (plan : plans.Plan) (kinds : List (Option ℕ)) (before : List RecordedLine)
            → spec.kind_at kinds (line_view line.now) ≡ kind
            → KeepsRules (before ++ line_view line.now ∷ [])
            → IsRoundComparisonOf plan kinds self.old before
            → OnOk result
            (IsRoundComparisonOf plan kinds self.new (before ++ line_view line.now ∷ [])) }
        ensures found { (plan : plans.Plan) (kinds : List (Option ℕ)) (before : List RecordedLine)
            → spec.kind_at kinds (line_view line.now) ≡ kind
            → IsRoundComparisonOf plan kinds self.old before
            → OnOk result
            (found.new.items
            ≡ found.old.items
            ++ spec.excesses_by_line plan kinds before number (line_view line.now)) }
    {
        self.note(kind, number, line, found)
    }

    fn note(
        &mut self,
        kind: Option<usize>,
        number: usize,
        line: &Line<'_>,
        found: &mut Vec<RoundExcess>,
    ) -> Result<(), AllocError>
        ensures excess_tracker { OnOk result (CountsLine kind self.old (line_view line.now) self.new) }
        ensures found { OnOk result
            (found.new.items
            ≡ found.old.items ++ reported_by_line kind self.old number (line_view line.now)) }
    {
        match *line {
            Line::RoundBegins { .. } => match kind {
                Some(kind) => self.begin(kind, number, found),
                None => Ok(()),
            },
            Line::RoundEnds { .. } => {
                if let Some(kind) = kind {
                    self.end(kind);
                }
                Ok(())
            }
            _ => Ok(()),
        }
    }

    // Counts the beginning of a round of this kind.
    fn begin(
        &mut self,
        kind: usize,
        number: usize,
        found: &mut Vec<RoundExcess>,
    ) -> Result<(), AllocError>
        ensures begun { OnOk result
            ((k : ℕ)
            → slice_get self.new.kinds.items k
            ≡ (if kind == k then option_map after_begin (slice_get self.old.kinds.items k) else
            slice_get self.old.kinds.items k)) }
        ensures found { OnOk result
            (found.new.items
            ≡ found.old.items ++ reports_of_kind number kind (slice_get self.old.kinds.items kind)) }
    {
        match self.kinds.get_mut(kind) {
            Some(rounds) => rounds.note_begin(number, kind, found),
            None => Ok(()),
        }
    }

    // Counts the end of a round of this kind.
    fn end(&mut self, kind: usize)
        ensures { (k : ℕ)
            → slice_get self.new.kinds.items k
            ≡ (if kind == k then option_map after_end (slice_get self.old.kinds.items k) else
            slice_get self.old.kinds.items k) }
    {
        if let Some(rounds) = self.kinds.get_mut(kind) {
            rounds.end();
        }
    }
}
