//! The parser for all forms of the lines of a recording. Each function returns `None` if the text
//! has none of the forms that it parses.

ghost use Rattle.std.specs.Prelude.{◌≡◌, option_map};
ghost use Rattle.recordings.specs.RecordingLine.{line_view};
ghost use Rattle.recordings.specs.RecordingLine as spec;

use crate::pool_sizes::pool_sizes_of;
use crate::recording_line::{Line, RecordedActor};
use crate::words::{is_word, name_of, parse_name, parse_number};
use support::{number_of, split_space};

/// Parses a line of any form, without its newline. The caller passes only lines that
/// [`split_frequent_line`](crate::frequent_lines) does not parse.
#[cold]
#[inline(never)]
#[tactic(auto, unfolding(crate::specs::RecordingLine::line_of, crate::specs::RecordingLine::line_of_words))]
pub(crate) fn line_of(text: &[u8]) -> Option<Line<'_>>
    ensures { option_map line_view result ≡ spec.line_of text.now }
{
    if is_word(text, "end") {
        return Some(Line::End);
    }
    let (word, rest) = split_space(text)?;
    if is_word(word, "job") {
        let (job, rest) = parse_number(rest)?;
        return job_line_of(job, rest);
    }
    if is_word(word, "round") {
        let (round, rest) = parse_number(rest)?;
        return round_line_of(round, rest);
    }
    other_line_of(word, rest)
}

// ---- lines of actors

/// Parses a line that begins with `job N`. `job` is the number N, and `text` is the rest of the
/// line.
#[tactic(auto, unfolding(crate::specs::RecordingLine::job_line_of))]
fn job_line_of(job: usize, text: &[u8]) -> Option<Line<'_>>
    ensures { option_map line_view result ≡ spec.job_line_of job text.now }
{
    if is_word(text, "start") {
        return Some(Line::JobStarts { job });
    }
    if is_word(text, "end") {
        return Some(Line::JobEnds { job });
    }
    if is_word(text, "threw") {
        return Some(Line::JobThrew { job });
    }
    let (word, rest) = split_space(text)?;
    action_of(RecordedActor::Job(job), word, rest)
}

/// Parses a line that begins with `round N`. `round` is the number N, and `text` is the rest of the
/// line.
#[tactic(auto, unfolding(crate::specs::RecordingLine::round_line_of))]
fn round_line_of(round: usize, text: &[u8]) -> Option<Line<'_>>
    ensures { option_map line_view result ≡ spec.round_line_of round text.now }
{
    if is_word(text, "end") {
        return Some(Line::RoundEnds { round });
    }
    let (word, rest) = split_space(text)?;
    if is_word(word, "begin") {
        let kind = name_of(rest)?;
        return Some(Line::RoundBegins { round, kind });
    }
    action_of(RecordedActor::Round(round), word, rest)
}

/// Parses a line that reports an action of this actor. `word` is the first word after the actor,
/// and `rest` is the text after this word.
#[tactic(auto, unfolding(crate::specs::RecordingLine::action_of))]
fn action_of<'a>(actor: RecordedActor, word: &[u8], rest: &'a [u8]) -> Option<Line<'a>>
    ensures { option_map line_view result ≡ spec.action_of actor word.now rest.now }
{
    if is_word(word, "submit") {
        return submit_of(actor, rest);
    }
    if is_word(word, "any") {
        let pool = name_of(rest)?;
        return Some(Line::InvokesAny { actor, pool });
    }
    let job = number_of(rest)?;
    job_action_of(actor, word, job)
}

/// Parses a line that reports a submit by this actor. `text` is the part of the line after
/// `submit`: `J CLASS POOL`.
#[tactic(auto, unfolding(crate::specs::RecordingLine::submit_of))]
fn submit_of(actor: RecordedActor, text: &[u8]) -> Option<Line<'_>>
    ensures { option_map line_view result ≡ spec.submit_of actor text.now }
{
    let (job, rest) = parse_number(text)?;
    let (class, rest) = parse_name(rest)?;
    let pool = name_of(rest)?;
    Some(Line::Submits {
        actor,
        job,
        class,
        pool,
    })
}

/// Returns the line that consists of the actor, the word and the job, such as `round 2 got 5`.
/// Returns `None` if no form of a line has this word between an actor and a job.
#[tactic(auto, unfolding(crate::specs::RecordingLine::job_action_of))]
fn job_action_of<'a>(actor: RecordedActor, word: &[u8], job: usize) -> Option<Line<'a>>
    ensures { option_map line_view result ≡ spec.job_action_of actor word.now job }
{
    if is_word(word, "got") {
        Some(Line::Got { actor, job })
    } else if is_word(word, "refused") {
        Some(Line::Refused { actor, job })
    } else if is_word(word, "timeout") {
        Some(Line::TimedOut { actor, job })
    } else if is_word(word, "interrupted") {
        Some(Line::Interrupted { actor, job })
    } else if is_word(word, "cancel") {
        Some(Line::Cancels { actor, job })
    } else {
        None
    }
}

// ---- other lines

/// Parses a line that has no actor. `word` is the first word of the line, and `rest` is the text
/// after this word.
#[tactic(auto, unfolding(crate::specs::RecordingLine::other_line_of))]
fn other_line_of<'a>(word: &[u8], rest: &'a [u8]) -> Option<Line<'a>>
    ensures { option_map line_view result ≡ spec.other_line_of word.now rest.now }
{
    if is_word(word, "pool") {
        let (name, rest) = parse_name(rest)?;
        let sizes = pool_sizes_of(rest)?;
        return Some(Line::Pool { name, sizes });
    }
    if is_word(word, "recording") {
        return if is_word(rest, "1") {
            Some(Line::Head)
        } else {
            None
        };
    }
    if is_word(word, "removed") {
        let job = number_of(rest)?;
        return Some(Line::Removed { job });
    }
    if is_word(word, "shutdown") {
        let pool = name_of(rest)?;
        return Some(Line::ShutDown { pool });
    }
    if is_word(word, "unseen") {
        let (pool, rest) = parse_name(rest)?;
        let jobs = number_of(rest)?;
        return Some(Line::Unseen { pool, jobs });
    }
    None
}
