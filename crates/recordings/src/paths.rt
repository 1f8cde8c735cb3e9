//! The paths of the actors of a recording: the submits and gets of each actor.

ghost use Rattle.std.specs.Prelude.{◌≡◌, ◌++◌, ◌∷◌, [], List, OnOk, OnErr, IfOk};
ghost use Rattle.std.specs.Option.{option_map};
ghost use Rattle.recordings.specs.RecordingLine.{RecordedLine, line_view};
ghost use Rattle.recordings.specs.ActorPath.{with_get, without_submit};
ghost use Rattle.recordings.specs.PathChanges.{Changes, change_of, no_change, at_actor, actor_submits, with_step};
ghost use Rattle.recordings.specs.LastLine.{last_path_of, last_path_in};
ghost use Rattle.recordings.specs.declared.step.RecordedStep.TheVariants as step;
ghost use Rattle.recordings.specs.PathsOfLines.{KeepsRules, IsPathsOf, live_path_of};

use crate::path_table::PathTable;
use crate::step::RecordedStep;
use crate::{Line, RecordedActor};
use std::alloc::{AllocError, Global};

/// The paths of the live actors after the lines read so far. A round is live from its `begin` line
/// to its `end` line. A job is live from its submit until it is done. If a job never runs because
/// it was refused, cancelled or removed, the job remains live with an empty path.
///
/// Processing a line takes at most two look-ups in tables. For a `got` line, it also takes a binary
/// search among the submits of the actor. No contract states the size or the time.
#[derive(Drop)]
pub struct Paths {
    rounds: PathTable,
    jobs: PathTable,
}

impl Paths {
    /// Creates the paths as they are before the first line is read.
    pub fn new(alloc: Global) -> Paths
        ensures { IsPathsOf result [] }
    {
        Paths {
            rounds: PathTable::new(alloc),
            jobs: PathTable::new(alloc),
        }
    }

    /// Processes the next line of a valid recording.
    ///
    /// # Errors
    ///
    /// Returns `AllocError` if memory runs out. The paths are then unchanged.
    pub fn take(&mut self, line: &Line<'_>) -> Result<(), AllocError>
        ensures taken { (before : List RecordedLine)
            → KeepsRules (before ++ line_view line.now ∷ [])
            → IsPathsOf self.old before
            → OnOk result (IsPathsOf self.new (before ++ line_view line.now ∷ [])) }
        ensures same { (before : List RecordedLine)
            → IsPathsOf self.old before
            → OnErr result (IsPathsOf self.new before) }
    {
        self.apply_line(line)?;
        Ok(())
    }

    /// Processes the next line of a valid recording, as [`take`](Paths::take) does. Returns the
    /// path of the round or job that ends with the line. Returns `None` if the line ends no round
    /// and no job.
    ///
    /// # Errors
    ///
    /// Returns `AllocError` if memory runs out. The paths are then unchanged.
    pub fn take_last_path(
        &mut self,
        line: &Line<'_>,
    ) -> Result<Option<Vec<RecordedStep>>, AllocError>
        ensures taken { (before : List RecordedLine)
            → KeepsRules (before ++ line_view line.now ∷ [])
            → IsPathsOf self.old before
            → OnOk result (IsPathsOf self.new (before ++ line_view line.now ∷ [])) }
        ensures path { (before : List RecordedLine)
            → IsPathsOf self.old before
            → IfOk result (λ given.
            option_map (λ path. path.items) given ≡ last_path_of before (line_view line.now)) }
        ensures same { (before : List RecordedLine)
            → IsPathsOf self.old before
            → OnErr result (IsPathsOf self.new before) }
    {
        self.apply_line(line)
    }

    /// Returns the path of the actor, or `None` if the actor is not live.
    pub fn path(&self, actor: RecordedActor) -> Option<&[RecordedStep]>
        ensures { (before : List RecordedLine)
            → IsPathsOf self.now before
            → option_map (λ path. path.now) result ≡ live_path_of before actor }
    {
        match actor {
            RecordedActor::Job(job) => self.jobs.path(job),
            RecordedActor::Round(round) => self.rounds.path(round),
        }
    }

    // Processes the line. If the line ends an actor, returns the actor's path.
    fn apply_line(&mut self, line: &Line<'_>) -> Result<Option<Vec<RecordedStep>>, AllocError>
        ensures stored { OnOk result (Changes self.old (change_of (line_view line.now)) self.new) }
        ensures path { IfOk result (λ given.
            option_map (λ path. path.items) given ≡ last_path_in self.old (line_view line.now)) }
        ensures same { OnErr result (Changes self.old no_change self.new) }
    {
        match *line {
            Line::RoundBegins { round, .. } => {
                self.rounds.begin(round)?;
                Ok(None)
            }
            Line::RoundEnds { round } => Ok(self.rounds.end(round)),
            Line::Submits { actor, job, .. } => {
                self.submit(actor, job)?;
                Ok(None)
            }
            Line::Refused { actor, job } => {
                self.drop_submit(actor, job);
                Ok(None)
            }
            Line::Got { actor, job } => {
                self.push_get(actor, job)?;
                Ok(None)
            }
            Line::JobEnds { job } | Line::JobThrew { job } => Ok(self.jobs.end(job)),
            _ => Ok(None),
        }
    }

    // Adds the job, and appends its submit to the path of its actor.
    fn submit(&mut self, actor: RecordedActor, job: usize) -> Result<(), AllocError>
        ensures stored { OnOk result (Changes self.old (actor_submits actor job) self.new) }
        ensures same { OnErr result (Changes self.old no_change self.new) }
    {
        self.push_submit(actor, job)?;
        if let Err(error) = self.jobs.begin(job) {
            self.drop_submit(actor, job);
            return Err(error);
        }
        Ok(())
    }

    fn push_submit(&mut self, actor: RecordedActor, job: usize) -> Result<(), AllocError>
        ensures stored { OnOk result
            (Changes self.old (at_actor actor (with_step (step.Submits job))) self.new) }
        ensures same { OnErr result (Changes self.old no_change self.new) }
    {
        match actor {
            RecordedActor::Job(number) => self.jobs.push_submit(number, job),
            RecordedActor::Round(number) => self.rounds.push_submit(number, job),
        }
    }

    fn push_get(&mut self, actor: RecordedActor, job: usize) -> Result<(), AllocError>
        ensures stored { OnOk result (Changes self.old (at_actor actor (with_get job)) self.new) }
        ensures same { OnErr result (Changes self.old no_change self.new) }
    {
        match actor {
            RecordedActor::Job(number) => self.jobs.push_get(number, job),
            RecordedActor::Round(number) => self.rounds.push_get(number, job),
        }
    }

    fn drop_submit(&mut self, actor: RecordedActor, job: usize)
        ensures { Changes self.old (at_actor actor (without_submit job)) self.new }
    {
        match actor {
            RecordedActor::Job(number) => self.jobs.drop_submit(number, job),
            RecordedActor::Round(number) => self.rounds.drop_submit(number, job),
        }
    }
}
