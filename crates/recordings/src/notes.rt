//! Notes on a recording: the events that invalidate a SAFE answer, and the first foreign get. In a
//! foreign get, an actor gets a job that another actor submitted. The other actor has not got the
//! job yet.

ghost use Rattle.std.specs.Prelude.{◌≡◌, ◌+◌, ◌++◌, ◌∷◌, [], List, OnOk, IfOk, length};
ghost use Rattle.recordings.specs.RecordingLine.{RecordedLine, line_view};
ghost use Rattle.recordings.specs.PathsOfLines.{KeepsRules};
ghost use Rattle.recordings.specs.Invalidations.{invalidations_of};
ghost use Rattle.recordings.specs.ForeignGets.{first_foreign_get};
ghost use Rattle.recordings.specs.UnclaimedJobs.{with_foreign};
ghost use Rattle.recordings.specs.NotesOfLines.{IsNotesOf};

use crate::Line;
use crate::foreign_get::ForeignGet;
use crate::invalidation::Invalidation;
use crate::invalidation_list::InvalidationList;
use crate::unclaimed::UnclaimedJobs;
use std::alloc::{AllocError, Global};

/// The events that invalidate a SAFE answer, and the first foreign get, in the lines read so far.
/// In a foreign get, an actor gets a job that another actor submitted. The other actor has not got
/// the job yet.
///
/// The size of the notes grows with the number of jobs that were submitted but not yet got by their
/// submitters. It also grows with the greatest number of actors whose last line was `timeout` or
/// `interrupted` at the same time. Processing a line takes a constant number of look-ups. No
/// contract states the size or the time.
#[derive(Drop)]
pub struct RecordedNotes {
    pub(crate) invalidations: InvalidationList,
    pub(crate) unclaimed: UnclaimedJobs,
    pub(crate) foreign: Option<ForeignGet>,
}

impl RecordedNotes {
    /// Creates the notes as they are before the first line is read.
    pub fn new(alloc: Global) -> RecordedNotes
        ensures { IsNotesOf result [] }
    {
        RecordedNotes {
            invalidations: InvalidationList::new(alloc),
            unclaimed: UnclaimedJobs::new(alloc),
            foreign: None,
        }
    }

    /// Processes line `number` of a valid recording. Lines are numbered from 1.
    ///
    /// # Errors
    ///
    /// Returns `AllocError` if memory runs out. The notes must not be used after an error.
    pub fn take(&mut self, number: usize, line: &Line<'_>) -> Result<(), AllocError>
        ensures { (before : List RecordedLine)
            → KeepsRules (before ++ line_view line.now ∷ [])
            → number ≡ length before + 1
            → IsNotesOf self.old before
            → OnOk result (IsNotesOf self.new (before ++ line_view line.now ∷ [])) }
    {
        self.invalidations.take(number, line)?;
        self.note_foreign_get(number, line);
        self.unclaimed.take(line)
    }

    /// Returns the events that invalidate a SAFE answer, in the order of the lines: the first event
    /// of each type. A `timeout` or `interrupted` line does not count if the next line of its actor
    /// is a `timeout`, `interrupted` or `got` of the same job.
    ///
    /// # Errors
    ///
    /// Returns `AllocError` if memory runs out.
    pub fn invalidations(&self, alloc: Global) -> Result<Vec<Invalidation>, AllocError>
        ensures { (lines : List RecordedLine)
            → IsNotesOf self.now lines
            → IfOk result (λ invalidations. invalidations.items ≡ invalidations_of lines) }
    {
        self.invalidations.firsts(alloc)
    }

    /// Returns the first foreign get, or `None` if there is none. In a foreign get, an actor gets a
    /// job that another actor submitted. The other actor has not got the job before.
    pub fn foreign_get(&self) -> Option<ForeignGet>
        ensures { (lines : List RecordedLine)
            → IsNotesOf self.now lines
            → result ≡ first_foreign_get lines }
    {
        self.foreign
    }

    fn note_foreign_get(&mut self, number: usize, line: &Line<'_>)
        ensures foreign { self.new.foreign
            ≡ with_foreign self.old.unclaimed number (line_view line.now) self.old.foreign }
        ensures invalidations { self.new.invalidations ≡ self.old.invalidations }
        ensures unclaimed { self.new.unclaimed ≡ self.old.unclaimed }
    {
        if self.foreign.is_none() {
            if let Line::Got { actor, job } = *line {
                if self.unclaimed.is_foreign(job, actor) {
                    self.foreign = Some(ForeignGet {
                        line: number,
                        actor,
                        job,
                    });
                }
            }
        }
    }
}
