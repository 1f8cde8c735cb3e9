//! The check of the lines of a recording against the rules O1 to O7.

ghost use Rattle.std.specs.Prelude.{[], List};
ghost use Rattle.recordings.specs.RecordingLine.{RecordedLine, line_view};
ghost use Rattle.recordings.specs.StateOfLines.{Represents, IsAccepted};

use crate::Line;
use crate::jobs::Jobs;
use crate::pools::Pools;
use crate::rounds::Rounds;
use crate::rule::LineRule;
use crate::rule_check::first_broken_rule;
use crate::state_update::apply_line;
use std::alloc::{AllocError, Global};

/// The state of the check of a recording against the rules O1 to O7 ([`LineRule`]), after the lines
/// read so far.
///
/// The size of the state grows with the number of pools, of open rounds and of jobs that are not
/// done. If a job never runs because it was refused, cancelled or removed, the job counts as not
/// done. Checking a line takes a few look-ups in tables, however many lines were read before. No
/// contract states the size or the time.
#[derive(Drop)]
pub struct TraceValidator {
    pub(crate) begun: bool,
    pub(crate) closed: bool,
    pub(crate) pools: Pools,
    pub(crate) rounds: Rounds,
    pub(crate) jobs: Jobs,
}

impl TraceValidator {
    /// Creates the state as it is before the first line is read.
    pub fn new(alloc: Global) -> TraceValidator
        ensures { Represents result [] }
    {
        TraceValidator {
            begun: false,
            closed: false,
            pools: Pools::new(alloc),
            rounds: Rounds::new(alloc),
            jobs: Jobs::new(alloc),
        }
    }

    /// Checks the next line. If the line breaks no rule, updates the state and returns `None`.
    /// Otherwise returns the first rule that the line breaks, and leaves the state unchanged.
    ///
    /// # Errors
    ///
    /// Returns `AllocError` if the line breaks no rule but memory runs out. The state is then
    /// unchanged.
    pub fn take(&mut self, line: &Line<'_>) -> Result<Option<LineRule>, AllocError>
        ensures { (before : List RecordedLine)
            → Represents self.old before
            → IsAccepted result before (line_view line.now) self.new }
    {
        let broken = first_broken_rule(self, line);
        if broken.is_none() {
            apply_line(self, line)?;
        }
        Ok(broken)
    }
}
