//! The names in the lines of a recording, and the counts of its rounds and jobs.

ghost use Rattle.std.specs.Prelude.{◌≡◌, ◌+◌, ◌++◌, ◌∷◌, [], List, Some, None, OnOk, IfOk, IfErr, if◌then◌else◌};
ghost use Rattle.recordings.specs.LineParts as parts;
ghost use Rattle.recordings.specs.CheckedLines.{IsCheckerState};
ghost use Rattle.recordings.specs.Faults.{IsFirstFault, lines_before};
ghost use Rattle.recordings.specs.Rules.{first_broken_rule};
ghost use Rattle.recordings.specs.RecordingLine.{RecordedLine, line_view, lines_read};
ghost use Rattle.learning.specs.LearningState.{AreNamesOf, IsDraftOf, IsLearnError};
ghost use Rattle.learning.specs.LabelRounds.{AreLabelRoundsOf};
ghost use Rattle.learning.specs.FirstPass.{AreNamesOfAll, IsNamed, IsLearnErrorAt, Counts, well_formed};
ghost use Rattle.learning.specs.Unfinished as unfinished;

use crate::draft::PlanDraft;
use crate::label_rounds::LabelRounds;
use crate::learn_error::LearnError;
use crate::pools::note_pool;
use job_bodies::Pool;
use recordings::{CheckedLines, Line, RecordingFault, first_fault};
use std::alloc::{AllocError, Global};

/// The pools, classes and client kinds that occur in the lines of a recording, and the counts of
/// its rounds and jobs.
#[derive(Drop)]
pub(crate) struct RecordedNames {
    pub(crate) pools: Vec<Pool>,
    pub(crate) draft: PlanDraft,
    pub(crate) label_rounds: LabelRounds,
    pub(crate) rounds: usize,
    pub(crate) jobs: usize,
    pub(crate) ended_rounds: usize,
    pub(crate) started_jobs: usize,
    pub(crate) ended_jobs: usize,
    /// The number of gets that timed out or were interrupted.
    pub(crate) failed_gets: usize,
    alloc: Global,
}

/// Collects the names in all lines, and counts the rounds and jobs. In the result, each class and
/// client kind has an empty body. If a line is invalid, returns the fault of the first invalid line
/// instead.
///
/// # Errors
///
/// - [`LearnError::InferenceLimit`] if all lines are valid, but the names exceed a limit of plans.
/// - [`LearnError::Memory`] if memory runs out.
pub(crate) fn recorded_names(
    alloc: Global,
    recording: &[u8],
) -> Result<Result<RecordedNames, RecordingFault>, LearnError>
    ensures ok { IfOk result (IsNamed (lines_read recording.now)) }
    ensures err { IfErr result (IsLearnErrorAt (lines_read recording.now)) }
{
    let mut names = RecordedNames::new(alloc)?;
    let fault = names.note_lines(&mut CheckedLines::new(alloc, recording), recording);
    match fault? {
        Some(fault) => Ok(Err(fault)),
        None => Ok(Ok(names)),
    }
}

// Returns the fault of the first invalid line. If all lines are valid, returns `learn_error` as an
// error. The whole recording is checked, because a line after the one that caused `learn_error` may
// be invalid.
fn fault_or_error(
    alloc: Global,
    recording: &[u8],
    learn_error: LearnError,
) -> Result<RecordingFault, LearnError>
    ensures ok { IfOk result (λ fault. IsFirstFault (lines_read recording.now) (Some fault)) }
    ensures err { IsLearnError (well_formed (lines_read recording.now)) learn_error
        → IfErr result (IsLearnErrorAt (lines_read recording.now)) }
{
    match first_fault(alloc, recording)? {
        Some(fault) => Ok(fault),
        None => Err(learn_error),
    }
}

impl RecordedNames {
    // Creates the names and counts of an empty recording.
    fn new(alloc: Global) -> Result<RecordedNames, AllocError>
        ensures names { IfOk result (λ names. AreNamesOf names []) }
        ensures rounds { IfOk result (λ names. AreLabelRoundsOf names.label_rounds []) }
        ensures draft { (lines : List RecordedLine)
            → IfOk result (λ names. IsDraftOf lines names.draft) }
    {
        Ok(RecordedNames {
            pools: Vec::new(alloc),
            draft: PlanDraft::new(alloc),
            label_rounds: LabelRounds::new(alloc)?,
            rounds: 0,
            jobs: 0,
            ended_rounds: 0,
            started_jobs: 0,
            ended_jobs: 0,
            failed_gets: 0,
            alloc,
        })
    }

    // Adds the names and counts of the lines that `lines` has not returned yet. If one of them is
    // invalid, returns the first fault of the recording.
    fn note_lines(
        &mut self,
        lines: &mut CheckedLines<'_>,
        recording: &[u8],
    ) -> Result<Option<RecordingFault>, LearnError>
        requires checked { IsCheckerState (lines_read recording.now) lines.old }
        requires names { AreNamesOf self.old (lines_before (lines_read recording.now) lines.old.number) }
        requires rounds { AreLabelRoundsOf self.old.label_rounds
            (lines_before (lines_read recording.now) lines.old.number) }
        requires draft { IsDraftOf (well_formed (lines_read recording.now)) self.old.draft }
        ensures fault { IfOk result (IsFirstFault (lines_read recording.now)) }
        ensures named { IfOk result (λ fault. fault ≡ None
            → AreNamesOfAll (lines_read recording.now) self.new) }
        ensures err { IfErr result (IsLearnErrorAt (lines_read recording.now)) }
    {
        while let Some(line) = lines.next()? {
            let line = match line {
                Ok(line) => line,
                Err(fault) => return Ok(Some(fault)),
            };
            if let Err(learn_error) = self.note(&line) {
                return Ok(Some(fault_or_error(self.alloc, recording, learn_error)?));
            }
        }
        Ok(None)
    }

    // Adds the names and counts of the next line.
    fn note(&mut self, line: &Line<'_>) -> Result<(), LearnError>
        ensures names { (before : List RecordedLine)
            → AreNamesOf self.old before
            → OnOk result (AreNamesOf self.new (before ++ line_view line.now ∷ [])) }
        ensures rounds { (before : List RecordedLine)
            → AreLabelRoundsOf self.old.label_rounds before
            → OnOk result
            (AreLabelRoundsOf self.new.label_rounds (before ++ line_view line.now ∷ [])) }
        ensures draft { (before after : List RecordedLine)
            → AreNamesOf self.old before
            → IsDraftOf (before ++ line_view line.now ∷ after) self.old.draft
            → OnOk result (IsDraftOf (before ++ line_view line.now ∷ after) self.new.draft) }
        ensures err { (before after : List RecordedLine)
            → AreNamesOf self.old before
            → IsDraftOf (before ++ line_view line.now ∷ after) self.old.draft
            → first_broken_rule before (line_view line.now) ≡ None
            → IfErr result (IsLearnError (before ++ line_view line.now ∷ after)) }
    {
        self.draft.note(&self.pools, line)?;
        note_pool(self.alloc, &mut self.pools, line)?;
        self.label_rounds.take(line)?;
        self.count(line)?;
        Ok(())
    }

    fn count(&mut self, line: &Line<'_>) -> Result<(), AllocError>
        ensures { OnOk result (Counts self.old (line_view line.now) self.new) }
    {
        self.rounds = incremented(self.rounds, is_begin(line))?;
        self.jobs = incremented(self.jobs, is_submit(line))?;
        self.ended_rounds = incremented(self.ended_rounds, is_round_end(line))?;
        self.started_jobs = incremented(self.started_jobs, is_job_start(line))?;
        self.ended_jobs = incremented(self.ended_jobs, is_job_end(line))?;
        self.failed_gets = incremented(self.failed_gets, is_failed_get(line))?;
        Ok(())
    }
}

// Returns the count, incremented if `is_one` is true.
fn incremented(count: usize, is_one: bool) -> Result<usize, AllocError>
    ensures { IfOk result (λ new. new ≡ count + (if is_one then 1 else 0)) }
{
    if is_one {
        count.checked_add(1).ok_or(AllocError)
    } else {
        Ok(count)
    }
}

fn is_begin(line: &Line<'_>) -> bool
    ensures { result ≡ parts.is_begin (line_view line.now) }
{
    match *line {
        Line::RoundBegins { .. } => true,
        _ => false,
    }
}

fn is_submit(line: &Line<'_>) -> bool
    ensures { result ≡ parts.is_submit (line_view line.now) }
{
    match *line {
        Line::Submits { .. } => true,
        _ => false,
    }
}

fn is_round_end(line: &Line<'_>) -> bool
    ensures { result ≡ unfinished.is_round_end (line_view line.now) }
{
    match *line {
        Line::RoundEnds { .. } => true,
        _ => false,
    }
}

fn is_job_start(line: &Line<'_>) -> bool
    ensures { result ≡ unfinished.is_job_start (line_view line.now) }
{
    match *line {
        Line::JobStarts { .. } => true,
        _ => false,
    }
}

fn is_job_end(line: &Line<'_>) -> bool
    ensures { result ≡ unfinished.is_job_end (line_view line.now) }
{
    match *line {
        Line::JobEnds { .. } | Line::JobThrew { .. } => true,
        _ => false,
    }
}

fn is_failed_get(line: &Line<'_>) -> bool
    ensures { result ≡ unfinished.is_failed_get (line_view line.now) }
{
    match *line {
        Line::TimedOut { .. } | Line::Interrupted { .. } => true,
        _ => false,
    }
}
