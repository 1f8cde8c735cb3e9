//! A parser of the event lines of a text.

ghost use Rattle.std.specs.Prelude.{◌≡◌, ◌≤◌, ◌∷◌, [], length, MatchOption};
ghost use Rattle.interleaving.specs.EventLine.{line_read, lines_read};

use crate::event_line::{EventLine, split_event_line};
use job_bodies::Plan;
use std::marker::Model;
use support::split_line;

/// A parser of the event lines of a text. Each call of [`next`](EventLines::next) parses one line.
/// The parser allocates no memory.
#[derive(Drop)]
pub struct EventLines<'a> {
    plan: &'a Plan,
    rest: &'a [u8],
}

/// The error for a malformed line.
#[derive(Clone, Copy)]
pub struct BadEventLine;

impl<'a> Model for EventLines<'a> {
    ghost use Rattle.std.specs.Prelude.{List, Option};
    ghost use Rattle.interleaving.specs.EventLine.{Line, lines_read};

    ghost Value = { List (Option Line) };

    ghost view = { λ l. lines_read l.plan.now l.rest.now };
}

impl<'a> EventLines<'a> {
    /// Creates a parser of the lines of a text. A well-formed line has one of the forms `client N`,
    /// `job N`, `take POOL`, `retire POOL` and `stuck N N ..`. The newline after the last line may
    /// be missing.
    ///
    /// - `N` is a number without leading zeros, at most
    ///   [`MAX_LINE_NUMBER`](support::MAX_LINE_NUMBER). A `stuck` line has at least one number.
    /// - `POOL` is the name of a pool of the plan.
    pub fn new(plan: &'a Plan, text: &'a [u8]) -> EventLines<'a>
        ensures lines { result ≡ lines_read plan.now text.now }
        ensures few { length result ≤ length text.now }
    {
        EventLines { plan, rest: text }
    }

    /// Returns the content of the next line, or `None` after the last line.
    ///
    /// # Errors
    ///
    /// Returns [`BadEventLine`] if the line is malformed. The next call then parses the line after
    /// the malformed one.
    #[inline(always)]
    pub fn next(&mut self) -> Option<Result<EventLine<'a>, BadEventLine>>
        ensures { MatchOption result ((self.old ≡ []) × (self.new ≡ []))
            (λ line. self.old ≡ line_read line ∷ self.new) }
    {
        if self.rest.is_empty() {
            return None;
        }
        match split_event_line(self.plan, self.rest) {
            Some((line, behind)) => {
                self.rest = behind;
                Some(Ok(line))
            }
            None => {
                let (_, behind) = split_line(self.rest);
                self.rest = behind;
                Some(Err(BadEventLine))
            }
        }
    }
}
