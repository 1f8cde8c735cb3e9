//! Counters for the rounds of each client kind. A round is what a client does from the beginning of
//! its body to the end.

ghost use Rattle.std.specs.Prelude.{◌≡◌, ◌++◌, ◌∷◌, [], ℕ, List, Some, true, false, length, slice_get, OnOk, IfOk, IfErr, IsTrue};
ghost use Rattle.conformance.specs.Family.{IsOfFamily};
ghost use Rattle.recordings.specs.RecordingLine.{RecordedLine, line_view};
ghost use Rattle.recordings.specs.LineParts.{is_begin};
ghost use Rattle.learning.specs.Counts.{AreOfKinds, BeginsOfKind, IsOfKind, Kinds, is_kind, begins_one, ends_one};
ghost use Rattle.learning.specs.LearningState.{IsCountOf, AreCountsOf, ChangesOne, IsLearnError, kinds_in, names_of, with_begin, with_end};
ghost use Rattle.learning.specs.InferenceResult.{lines_of};

use crate::entries::Entry;
use crate::inference_limit::InferenceLimit;
use crate::learn_error::LearnError;
use conformance::is_of_family;
use recordings::{Line, RecordingLines};
use std::alloc::{AllocError, Global};

/// Counters for the rounds of one client kind.
#[derive(Clone, Copy)]
pub(crate) struct KindCount {
    pub(crate) begun: u64,
    pub(crate) ended: u64,
    /// The maximum number of rounds that were open at the same time.
    pub(crate) most: u64,
}

impl KindCount {
    /// Creates the counters, all zero.
    fn new() -> KindCount
        ensures { (kinds : Kinds) (kind : ℕ) → IsCountOf kinds [] kind result }
    {
        KindCount {
            begun: 0,
            ended: 0,
            most: 0,
        }
    }

    fn begin(&mut self) -> Result<(), AllocError>
        ensures { OnOk result (self.new ≡ with_begin self.old) }
    {
        self.begun = self.begun.checked_add(1).ok_or(AllocError)?;
        self.most = self.most.max(self.begun.saturating_sub(self.ended));
        Ok(())
    }

    fn end(&mut self) -> Result<(), AllocError>
        ensures { OnOk result (self.new ≡ with_end self.old) }
    {
        self.ended = self.ended.checked_add(1).ok_or(AllocError)?;
        Ok(())
    }
}

/// Returns the counters for the rounds of each client kind in `entries`. `kinds` has the index in
/// `entries` of each round's kind, by round number.
///
/// # Errors
///
/// - [`LearnError::InferenceLimit`] if a round has no kind. Also if the name of a round's kind is
///   neither the round's label nor the label followed by `_` and a number ([`is_of_family`]). The
///   label is the name in the `begin` line of the round.
/// - [`LearnError::Memory`] if memory runs out.
pub(crate) fn kind_counts(
    alloc: Global,
    recording: &[u8],
    kinds: &[Option<usize>],
    entries: &[Entry],
) -> Result<Vec<KindCount>, LearnError>
    ensures counts { IfOk result
        (λ counts. AreCountsOf (kinds_in kinds.now) (lines_of recording.now) counts.items) }
    ensures of_kinds { IfOk result (λ counts.
        AreOfKinds (kinds_in kinds.now) (names_of entries.now) (lines_of recording.now)) }
    ensures err { IfErr result (IsLearnError (lines_of recording.now)) }
{
    let mut counts = zero_counts(alloc, entries.len())?;
    let mut lines = RecordingLines::new(recording);
    while let Some(line) = lines.next() {
        if let Ok(line) = line {
            if !begins_of_kind(kinds, entries, &line) {
                return Err(LearnError::InferenceLimit(InferenceLimit::Paths));
            }
            note(&mut counts, kinds, &line)?;
        }
    }
    Ok(counts)
}

// Returns false if the line begins a round that has no kind, or whose kind has a name that does not
// belong to the family of the round's label.
fn begins_of_kind(kinds: &[Option<usize>], entries: &[Entry], line: &Line<'_>) -> bool
    ensures of_kind { IsTrue result
        → BeginsOfKind (kinds_in kinds.now) (names_of entries.now) (line_view line.now) }
    ensures other { result ≡ false → is_begin (line_view line.now) ≡ true }
{
    match *line {
        Line::RoundBegins { round, kind } => is_of_kind(kinds, entries, round, kind),
        _ => true,
    }
}

fn is_of_kind(kinds: &[Option<usize>], entries: &[Entry], round: usize, label: &str) -> bool
    ensures { IsTrue result → IsOfKind (kinds_in kinds.now) (names_of entries.now) round label.now }
{
    match kind_of(kinds, round) {
        Some(kind) => has_family_name(entries, kind, label),
        None => false,
    }
}

// Returns true if there is an entry with this number, and its name belongs to the label's family.
fn has_family_name(entries: &[Entry], number: usize, label: &str) -> bool
    ensures { IsTrue result
        → (name : List ℕ)
        × (slice_get (names_of entries.now) number ≡ Some name)
        × IsOfFamily label.now name }
{
    match entries.get(number) {
        Some(entry) => is_of_family(label, &entry.name),
        None => false,
    }
}

/// Returns `count` counters, all zero.
///
/// # Errors
///
/// Returns `AllocError` if memory runs out.
pub(crate) fn zero_counts(alloc: Global, count: usize) -> Result<Vec<KindCount>, AllocError>
    ensures { (kinds : Kinds) → IfOk result (λ counts. AreCountsOf kinds [] counts.items) }
{
    let mut counts = Vec::new(alloc);
    for _ in 0..count {
        counts.push(KindCount::new())?;
    }
    Ok(counts)
}

// Updates the counters for one line.
fn note(
    counts: &mut [KindCount],
    kinds: &[Option<usize>],
    line: &Line<'_>,
) -> Result<(), AllocError>
    ensures count { length counts.new ≡ length counts.old }
    ensures all { (before : List RecordedLine)
        → AreCountsOf (kinds_in kinds.now) before counts.old
        → OnOk result
        (AreCountsOf (kinds_in kinds.now) (before ++ line_view line.now ∷ []) counts.new) }
{
    count_begin(counts, kind_begun(kinds, line))?;
    count_end(counts, kind_ended(kinds, line))?;
    Ok(())
}

fn kind_begun(kinds: &[Option<usize>], line: &Line<'_>) -> Option<usize>
    ensures { (kind : ℕ)
        → is_kind kind result ≡ begins_one (kinds_in kinds.now) kind (line_view line.now) }
{
    match *line {
        Line::RoundBegins { round, .. } => kind_of(kinds, round),
        _ => None,
    }
}

fn kind_ended(kinds: &[Option<usize>], line: &Line<'_>) -> Option<usize>
    ensures { (kind : ℕ)
        → is_kind kind result ≡ ends_one (kinds_in kinds.now) kind (line_view line.now) }
{
    match *line {
        Line::RoundEnds { round } => kind_of(kinds, round),
        _ => None,
    }
}

fn kind_of(kinds: &[Option<usize>], round: usize) -> Option<usize>
    ensures { result ≡ kinds_in kinds.now round }
{
    *kinds.get(round)?
}

/// Counts the beginning of a round of this kind. Does nothing if `kind` is `None` or out of range.
///
/// # Errors
///
/// Returns `AllocError` if the counter would overflow.
pub(crate) fn count_begin(counts: &mut [KindCount], kind: Option<usize>) -> Result<(), AllocError>
    ensures count { length counts.new ≡ length counts.old }
    ensures one { OnOk result (ChangesOne kind with_begin counts.old counts.new) }
{
    match kind {
        Some(kind) if kind < counts.len() => counts[kind].begin(),
        _ => Ok(()),
    }
}

/// Counts the end of a round of this kind. Does nothing if `kind` is `None` or out of range.
///
/// # Errors
///
/// Returns `AllocError` if the counter would overflow.
pub(crate) fn count_end(counts: &mut [KindCount], kind: Option<usize>) -> Result<(), AllocError>
    ensures count { length counts.new ≡ length counts.old }
    ensures one { OnOk result (ChangesOne kind with_end counts.old counts.new) }
{
    match kind {
        Some(kind) if kind < counts.len() => counts[kind].end(),
        _ => Ok(()),
    }
}
