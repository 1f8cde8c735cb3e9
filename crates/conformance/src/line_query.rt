//! A search for the first line of a recording that matches a query.

ghost use Rattle.std.specs.Prelude.{◌≡◌};
ghost use Rattle.recordings.specs.RecordingLine.{line_view};
ghost use Rattle.conformance.specs.Lines.{lines_of};
ghost use Rattle.conformance.specs.LineQuery as spec;

use crate::well_formed_lines::WellFormedLines;
use recordings::{Line, RecordedActor};

/// A query for a line of a recording: what the line reports.
#[derive(Clone, Copy, PartialEq, Eq, Hash)]
pub(crate) enum LineQuery {
    /// The line that submits this job.
    Submit(usize),
    /// The line that begins this round.
    Begin(usize),
    /// A line that records that the actor got this job.
    Got { actor: RecordedActor, job: usize },
    /// The line that ends the actor.
    Last(RecordedActor),
    /// A line that records a call of `invokeAny`.
    InvokesAny,
    /// An `unseen` line. It reports jobs that have no `submit` line.
    Unseen,
}

impl LineQuery {
    /// Returns the query for the line that gives the actor its label.
    pub(crate) fn label_of(actor: RecordedActor) -> LineQuery
        ensures { result ≡ spec.label_line actor }
    {
        match actor {
            RecordedActor::Job(job) => LineQuery::Submit(job),
            RecordedActor::Round(round) => LineQuery::Begin(round),
        }
    }

    pub(crate) fn matches(self, line: &Line<'_>) -> bool
        ensures { result ≡ spec.is_match self (line_view line.now) }
    {
        match (self, *line) {
            (LineQuery::Submit(job), Line::Submits { job: one, .. }) => one == job,
            (LineQuery::Begin(round), Line::RoundBegins { round: one, .. }) => one == round,
            (
                LineQuery::Got { actor, job },
                Line::Got {
                    actor: who,
                    job: one,
                },
            ) => is_same_actor(who, actor) && one == job,
            (LineQuery::Last(actor), Line::RoundEnds { round }) => {
                is_same_actor(RecordedActor::Round(round), actor)
            }
            (LineQuery::Last(actor), Line::JobEnds { job } | Line::JobThrew { job }) => {
                is_same_actor(RecordedActor::Job(job), actor)
            }
            (LineQuery::InvokesAny, Line::InvokesAny { .. }) => true,
            (LineQuery::Unseen, Line::Unseen { .. }) => true,
            _ => false,
        }
    }
}

/// Returns the query that the line matches, or `None` if the line matches none. A line matches at
/// most one query.
pub(crate) fn query_of(line: &Line<'_>) -> Option<LineQuery>
    ensures { result ≡ spec.query_of (line_view line.now) }
{
    match *line {
        Line::Submits { job, .. } => Some(LineQuery::Submit(job)),
        Line::RoundBegins { round, .. } => Some(LineQuery::Begin(round)),
        Line::Got { actor, job } => Some(LineQuery::Got { actor, job }),
        Line::RoundEnds { round } => Some(LineQuery::Last(RecordedActor::Round(round))),
        Line::JobEnds { job } | Line::JobThrew { job } => {
            Some(LineQuery::Last(RecordedActor::Job(job)))
        }
        Line::InvokesAny { .. } => Some(LineQuery::InvokesAny),
        Line::Unseen { .. } => Some(LineQuery::Unseen),
        _ => None,
    }
}

fn is_same_actor(one: RecordedActor, other: RecordedActor) -> bool
    ensures { result ≡ spec.is_same_actor one other }
{
    match (one, other) {
        (RecordedActor::Job(n), RecordedActor::Job(m))
        | (RecordedActor::Round(n), RecordedActor::Round(m)) => n == m,
        _ => false,
    }
}

/// Returns the first line of the text that matches the query, with the number of the line, from
/// 1. Skips malformed lines and does not count them. Returns `None` if no line matches the query.
pub(crate) fn first_line(text: &[u8], line_query: LineQuery) -> Option<(usize, Line<'_>)>
    ensures { spec.IsFirstLine (lines_of text.now) line_query (spec.found_seen result) }
{
    let mut lines = WellFormedLines::new(text);
    let mut number = 0;
    while let Some(line) = lines.next() {
        number += 1;
        if line_query.matches(&line) {
            return Some((number, line));
        }
    }
    None
}

/// Returns the class in a `submit` line or the kind in a `begin` line. Returns an empty label for
/// any other line.
pub(crate) fn label_in<'a>(line: &Line<'a>) -> &'a str
    ensures { result.now ≡ spec.label_in (line_view line.now) }
{
    match *line {
        Line::Submits { class, .. } => class,
        Line::RoundBegins { kind, .. } => kind,
        _ => "",
    }
}

/// Returns the pool in a `submit`, `any` or `unseen` line. Returns an empty name for any other
/// line.
pub(crate) fn pool_in<'a>(line: &Line<'a>) -> &'a str
    ensures { result.now ≡ spec.pool_in (line_view line.now) }
{
    match *line {
        Line::Submits { pool, .. } | Line::InvokesAny { pool, .. } | Line::Unseen { pool, .. } => {
            pool
        }
        _ => "",
    }
}
