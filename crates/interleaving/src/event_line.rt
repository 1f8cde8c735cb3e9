//! The content of an event line.

ghost use Rattle.std.specs.Prelude.{◌≡◌, ◌≢◌, ◌++◌, ℕ, List, codes, option_map, MatchOption};
ghost use Rattle.support.specs.LineNumber.{split_number_line};
ghost use Rattle.interleaving.specs.EventLine.{line_seen};
ghost use Rattle.interleaving.specs.EventLine as spec;

use crate::named_jobs::NamedJobs;
use job_bodies::Plan;
use pool_machine::Event;
use support::{leading_number, split_line};

/// The content of an event line: an event, or the question whether some jobs wait only for each
/// other.
#[derive(Drop)]
pub enum EventLine<'a> {
    /// The event to perform.
    Perform(Event),
    /// The question whether these jobs wait only for each other.
    Stuck(NamedJobs<'a>),
}

/// Parses the first line of a text. Returns the content of the line and the text after the line, or
/// `None` if the line is malformed.
#[inline(always)]
pub(crate) fn split_event_line<'a>(plan: &Plan, text: &'a [u8]) -> Option<(EventLine<'a>, &'a [u8])>
    ensures { option_map (λ read. (line_seen read.0, read.1.now)) result
        ≡ spec.split_event_line plan.now text.now }
{
    if let Some(job) = text.strip_prefix(b"job ") {
        let (job, behind) = split_number_line(job)?;
        return Some((EventLine::Perform(Event::Job(job)), behind));
    }
    if let Some(client) = strip_client(text) {
        let (client, behind) = split_number_line(client)?;
        return Some((EventLine::Perform(Event::Client(client)), behind));
    }
    let (line, behind) = split_line(text);
    Some((parse_other_line(plan, line)?, behind))
}

/// Returns the text after the prefix `client `, or `None` if the text does not begin with this
/// prefix. Compares the prefix in two parts, because a comparison of all seven bytes compiles to
/// vector instructions, which cost twice as much.
#[inline(always)]
fn strip_client(text: &[u8]) -> Option<&[u8]>
    ensures { MatchOption result ((rest : List ℕ) → text.now ≢ codes "client " ++ rest)
        (λ rest. text.now ≡ codes "client " ++ rest.now) }
{
    text.strip_prefix(b"clie")?.strip_prefix(b"nt ")
}

/// Parses the first line of a text as a number. Returns the number and the text after the line, or
/// `None` if the line is not a number in the form that [`leading_number`] parses.
fn split_number_line(text: &[u8]) -> Option<(usize, &[u8])>
    ensures { option_map (λ read. (read.0, read.1.now)) result ≡ split_number_line text.now }
{
    let (number, behind) = leading_number(text)?;
    if behind.is_empty() {
        return Some((number, behind));
    }
    Some((number, behind.strip_prefix(b"\n")?))
}

/// Parses a line that does not begin with `client ` or `job `. Returns the content of the line, or
/// `None` if the line is malformed.
fn parse_other_line<'a>(plan: &Plan, line: &'a [u8]) -> Option<EventLine<'a>>
    requires no_client { (number : List ℕ) → line.now ≢ codes "client " ++ number }
    requires no_job { (number : List ℕ) → line.now ≢ codes "job " ++ number }
    ensures { option_map line_seen result ≡ spec.line_of plan.now line.now }
{
    if let Some(pool) = line.strip_prefix(b"take ") {
        let pool = pool_named(plan, pool)?;
        return Some(EventLine::Perform(Event::Take(pool)));
    }
    if let Some(pool) = line.strip_prefix(b"retire ") {
        let pool = pool_named(plan, pool)?;
        return Some(EventLine::Perform(Event::Retire(pool)));
    }
    let members = NamedJobs::read(line.strip_prefix(b"stuck ")?)?;
    Some(EventLine::Stuck(members))
}

fn pool_named(plan: &Plan, name: &[u8]) -> Option<usize>
    ensures { result ≡ spec.pool_named plan.now name.now }
{
    plan.pools()
        .iter()
        .position(|pool| pool.name.as_bytes() == name)
}
