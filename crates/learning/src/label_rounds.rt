//! Counters for the rounds of each label. The label of a round is the name in its `begin` line.

ghost use Rattle.std.specs.Prelude.{◌≡◌, ◌+◌, ◌++◌, ◌∷◌, ◌==◌, [], ℕ, List, None, Some, if◌then◌else◌, slice_get, map, string_bytes, OnOk, IfOk, IfErr, IsTrue};
ghost use Rattle.std.specs.List.{position};
ghost use Rattle.std.specs.Str.{bytes_eq};
ghost use Rattle.support.specs.Numbered.{value_at};
ghost use Rattle.recordings.specs.RecordingLine.{RecordedLine, RoundBegins, RoundEnds, line_view};
ghost use Rattle.recordings.specs.Rules.{first_broken_rule};
ghost use Rattle.learning.specs.LearningState.{ChangesOne, IsLearnError, names_of, with_begin, with_end};
ghost use Rattle.learning.specs.LabelRounds.{AreLabelRoundsOf, labels_of};
ghost use Rattle.learning.specs.Names.{HasBegun};

use crate::counts::{KindCount, count_begin, count_end, zero_counts};
use crate::entries::Entry;
use crate::inference_limit::InferenceLimit;
use crate::learn_error::LearnError;
use conformance::is_of_family;
use job_bodies::MAX_CLIENT_KINDS;
use recordings::Line;
use std::alloc::{AllocError, Global};
use support::IdMap;

/// Counters for the rounds of each label. If a label has only one client kind, the counters of the
/// label are also the counters of this kind.
#[derive(Drop)]
pub(crate) struct LabelRounds {
    labels: Vec<String>,
    /// The index in `labels` of each open round's label, by round number.
    open_labels: IdMap<usize>,
    /// The number of rounds that have begun.
    begun: usize,
    /// The counters for the rounds of each label, in the order of `labels`. Only the first
    /// `MAX_CLIENT_KINDS` labels have counters.
    pub(crate) counts: Vec<KindCount>,
    alloc: Global,
}

impl LabelRounds {
    /// Creates the counters, all zero.
    ///
    /// # Errors
    ///
    /// Returns `AllocError` if memory runs out.
    pub(crate) fn new(alloc: Global) -> Result<LabelRounds, AllocError>
        ensures { IfOk result (λ rounds. AreLabelRoundsOf rounds []) }
    {
        let counts = zero_counts(alloc, MAX_CLIENT_KINDS)?;
        Ok(LabelRounds {
            labels: Vec::new(alloc),
            open_labels: IdMap::new(alloc),
            begun: 0,
            counts,
            alloc,
        })
    }

    /// Updates the counters for the next line.
    ///
    /// # Errors
    ///
    /// - [`LearnError::InferenceLimit`] if the line begins a round with a wrong number, or ends a
    ///   round that is not open. The right number is the number of rounds that began earlier. A
    ///   valid recording has no such line.
    /// - [`LearnError::Memory`] if memory runs out.
    pub(crate) fn take(&mut self, line: &Line<'_>) -> Result<(), LearnError>
        ensures ok { (before : List RecordedLine)
            → AreLabelRoundsOf self.old before
            → OnOk result (AreLabelRoundsOf self.new (before ++ line_view line.now ∷ [])) }
        ensures err { (before after : List RecordedLine)
            → first_broken_rule before (line_view line.now) ≡ None
            → IfErr result (IsLearnError (before ++ line_view line.now ∷ after)) }
    {
        match *line {
            Line::RoundBegins { round, kind } => self.begin(round, kind),
            Line::RoundEnds { round } => self.end(round),
            _ => Ok(()),
        }
    }

    // Records that a round of this label began. A valid recording numbers its rounds consecutively.
    // For such a recording, this function never returns `LearnError::InferenceLimit`.
    fn begin(&mut self, round: usize, label: &str) -> Result<(), LearnError>
        ensures ok { (before : List RecordedLine)
            → AreLabelRoundsOf self.old before
            → OnOk result (AreLabelRoundsOf self.new (before ++ RoundBegins round label.now ∷ [])) }
        ensures err { (lines : List RecordedLine)
            → HasBegun lines label.now
            → IfErr result (IsLearnError lines) }
    {
        if round != self.begun {
            return Err(LearnError::InferenceLimit(InferenceLimit::Paths));
        }
        let kind = self.number_of(label)?;
        self.push(kind)?;
        count_begin(&mut self.counts, Some(kind))?;
        Ok(())
    }

    // Records that the round ended. In a valid recording only an open round ends. For such a
    // recording, this function never returns `LearnError::InferenceLimit`.
    fn end(&mut self, round: usize) -> Result<(), LearnError>
        ensures ok { (before : List RecordedLine)
            → AreLabelRoundsOf self.old before
            → OnOk result (AreLabelRoundsOf self.new (before ++ RoundEnds round ∷ [])) }
        ensures err { (lines : List RecordedLine) (label : List ℕ)
            → HasBegun lines label
            → IfErr result (IsLearnError lines) }
    {
        let Some(kind) = self.open_labels.remove(round) else {
            return Err(LearnError::InferenceLimit(InferenceLimit::Paths));
        };
        count_end(&mut self.counts, Some(kind))?;
        Ok(())
    }

    // Returns the number of the label, and adds the label if it is new.
    fn number_of(&mut self, label: &str) -> Result<usize, AllocError>
        ensures number { IfOk result
            (λ kind. slice_get (labels_of self.new) kind ≡ Some label.now) }
        ensures labels { OnOk result
            ((more : List (List ℕ)) × (labels_of self.new ≡ labels_of self.old ++ more)) }
        ensures open_labels { self.new.open_labels ≡ self.old.open_labels }
        ensures begun { self.new.begun ≡ self.old.begun }
        ensures counts { self.new.counts ≡ self.old.counts }
    {
        match place_of(&self.labels, label) {
            Some(kind) => Ok(kind),
            None => {
                let kind = self.labels.len();
                self.add(label)?;
                Ok(kind)
            }
        }
    }

    fn add(&mut self, label: &str) -> Result<(), AllocError>
        ensures labels { OnOk result (labels_of self.new ≡ labels_of self.old ++ label.now ∷ []) }
        ensures open_labels { self.new.open_labels ≡ self.old.open_labels }
        ensures begun { self.new.begun ≡ self.old.begun }
        ensures counts { self.new.counts ≡ self.old.counts }
    {
        self.labels.push(String::from_str(self.alloc, label)?)?;
        Ok(())
    }

    // Records the next round as open, with the number of its label.
    fn push(&mut self, kind: usize) -> Result<(), AllocError>
        ensures open_labels { OnOk result
            ((round : ℕ)
            → value_at self.new.open_labels round
            ≡ (if self.old.begun == round then Some kind else value_at self.old.open_labels round)) }
        ensures begun { OnOk result (self.new.begun ≡ self.old.begun + 1) }
        ensures labels { self.new.labels ≡ self.old.labels }
        ensures counts { self.new.counts ≡ self.old.counts }
    {
        self.open_labels.insert(self.begun, kind)?;
        self.begun = self.begun.checked_add(1).ok_or(AllocError)?;
        Ok(())
    }

    /// Returns true if `entries` consists of exactly one client kind for each label, in the order
    /// of the labels. The counters of the labels are then also the counters of the kinds.
    pub(crate) fn are_of(&self, entries: &[Entry]) -> bool
        ensures { IsTrue result → names_of entries.now ≡ labels_of self.now }
    {
        are_named(entries, &self.labels)
            && self
                .labels
                .iter()
                .all(|label| kinds_of(label, entries) == 1)
    }
}

// Returns the index of the label in the list.
fn place_of(labels: &[String], label: &str) -> Option<usize>
    ensures { result ≡ position (λ one. bytes_eq (string_bytes one) label.now) labels.now }
{
    labels.iter().position(|one| one.as_str() == label)
}

// Returns true if the entries have exactly these names, in this order.
fn are_named(entries: &[Entry], names: &[String]) -> bool
    ensures { IsTrue result → names_of entries.now ≡ map string_bytes names.now }
{
    if entries.len() != names.len() {
        return false;
    }
    for (number, name) in names.iter().enumerate() {
        if !is_named(entries, number, name) {
            return false;
        }
    }
    true
}

fn is_named(entries: &[Entry], number: usize, name: &str) -> bool
    ensures { IsTrue result → slice_get (names_of entries.now) number ≡ Some name.now }
{
    match entries.get(number) {
        Some(entry) => entry.name.as_str() == name,
        None => false,
    }
}

// Returns the number of entries whose names belong to the label's family: LABEL, LABEL_2, LABEL_3
// and so on.
fn kinds_of(label: &str, entries: &[Entry]) -> usize {
    entries
        .iter()
        .filter(|entry| is_of_family(label, &entry.name))
        .count()
}
