//! The lines of a story that show its events. A story is a text that describes a counterexample. A
//! turn is a group of consecutive steps of one actor. Consecutive turns with the same text are one
//! line.

ghost use Rattle.std.specs.Prelude.{◌≡◌, ◌<◌, ◌≤◌, ◌+◌, ◌-◌, ◌++◌, ◌∷◌, List, length, map, flat_map, slice_get, IfOk, OnOk};
ghost use Rattle.support.specs.Pushed.{Pushes};
ghost use Rattle.report.specs.Story as spec;
ghost use Rattle.report.specs.StorySeen.{turn_seen, line_seen};
ghost use Rattle.report.specs.StorySeen as seen;

use crate::story_turns::Turn;
use std::alloc::{AllocError, Global};

/// The maximum number of lines for the events. If the events need more lines, one line replaces the
/// lines in the middle.
const MAX_LINES: usize = 20;

/// The number of lines before the line that replaces the middle lines.
const FIRST_LINES: usize = 9;

/// The number of lines after the line that replaces the middle lines.
const LAST_LINES: usize = 10;

/// A line of the text about the events. It stands for consecutive turns with the same text. A turn
/// is a group of consecutive steps of one actor.
#[derive(Clone, Copy)]
pub(crate) struct Line<'a> {
    pub(crate) text: &'a str,
    pub(crate) times: usize,
    /// The number of steps in this line and in all lines before it.
    pub(crate) end: usize,
}

/// Appends the lines that show the turns. A turn is a group of consecutive steps of one actor. If
/// there are more than 20 lines, one line replaces the lines in the middle.
///
/// # Errors
///
/// Returns [`AllocError`] if memory runs out.
pub(crate) fn push_lines(text: &mut String, alloc: Global, turns: &[Turn]) -> Result<(), AllocError>
    ensures { Pushes result text.old text.new (spec.lines_text (spec.lines (map turn_seen turns.now))) }
{
    let lines = lines_of(alloc, turns)?;
    push_shown(text, &lines)
}

fn lines_of<'a>(alloc: Global, turns: &'a [Turn]) -> Result<Vec<Line<'a>>, AllocError>
    ensures { IfOk result (λ lines. map line_seen lines.items ≡ spec.lines (map turn_seen turns.now)) }
{
    let mut lines = Vec::new(alloc);
    push_folded(&mut lines, turns)?;
    Ok(lines)
}

/// Appends the lines that show the turns. Each line stands for as many consecutive turns with the
/// same text as possible.
fn push_folded<'a>(lines: &mut Vec<Line<'a>>, turns: &'a [Turn]) -> Result<(), AllocError>
    ensures { OnOk result (map line_seen lines.new.items
        ≡ map line_seen lines.old.items ++ spec.lines (map turn_seen turns.now)) }
{
    let Some((first, mut rest)) = turns.split_first() else {
        return Ok(());
    };
    let mut line = Line {
        text: first.text.as_str(),
        times: 1,
        end: first.end,
    };
    while let Some((turn, after)) = rest.split_first() {
        if line.text == turn.text.as_str() {
            line.times += 1;
            line.end = turn.end;
        } else {
            lines.push(line)?;
            line = Line {
                text: turn.text.as_str(),
                times: 1,
                end: turn.end,
            };
        }
        rest = after;
    }
    lines.push(line)?;
    Ok(())
}

/// Appends the lines. If there are more than 20, one line replaces the lines in the middle.
fn push_shown(text: &mut String, lines: &[Line<'_>]) -> Result<(), AllocError>
    ensures { Pushes result text.old text.new (spec.lines_text (map line_seen lines.now)) }
{
    if lines.len() <= MAX_LINES {
        push_each(text, lines)
    } else {
        push_shortened(text, lines)
    }
}

/// Appends the first lines, a line with the number of events that are left out, and the last lines.
/// There must be more than 20 lines.
fn push_shortened(text: &mut String, lines: &[Line<'_>]) -> Result<(), AllocError>
    requires { 20 < length lines.now }
    ensures { Pushes result text.old text.new (seen.shortened_seen lines.now) }
{
    let last = lines.len() - LAST_LINES;
    let events = end_at(lines, last - 1).saturating_sub(end_at(lines, FIRST_LINES - 1));
    push_each(text, &lines[..FIRST_LINES])?;
    push_omitted(text, events)?;
    push_each(text, &lines[last..])
}

/// Returns the number of steps in the line with this index and in all lines before it. Returns 0 if
/// there is no such line.
fn end_at(lines: &[Line<'_>], index: usize) -> usize
    ensures { result ≡ spec.end_of (slice_get (map line_seen lines.now) index) }
{
    lines.get(index).map_or(0, |line| line.end)
}

fn push_omitted(text: &mut String, events: usize) -> Result<(), AllocError>
    ensures { Pushes result text.old text.new (spec.events_left_out events) }
{
    writeln!(text, "  .. {events} events ..")
}

fn push_each(text: &mut String, lines: &[Line<'_>]) -> Result<(), AllocError>
    ensures { Pushes result text.old text.new (flat_map spec.line_text (map line_seen lines.now)) }
{
    for index in 0..lines.len() {
        push_line(text, lines[index])?;
    }
    Ok(())
}

#[tactic(auto, unfolding(crate::specs::Story::line_text))]
fn push_line(text: &mut String, line: Line<'_>) -> Result<(), AllocError>
    ensures { Pushes result text.old text.new (spec.line_text (line_seen line.entry)) }
{
    push_times(text, line.times)?;
    text.push_str(line.text)?;
    text.push('\n')
}

fn push_times(text: &mut String, times: usize) -> Result<(), AllocError>
    ensures { Pushes result text.old text.new (spec.times_text times) }
{
    if times == 1 {
        text.push_str("  ")
    } else {
        write!(text, "  {times} x ")
    }
}
