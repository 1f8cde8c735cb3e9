//! The rules O1 to O7 for the lines of a recording.

ghost use Rattle.std.specs.Prelude.{Some};
ghost use Rattle.recordings.specs.RuleText.{rule_text};

use std::fmt;

/// A rule for the lines of a recording. Whether a line keeps the rule depends on the lines before
/// it.
#[derive(Clone, Copy)]
pub enum LineRule {
    /// O1: the first line is `recording 1`, and no other line is `recording 1`. No line comes after
    /// `end`.
    Frame,
    /// O2: a `pool` line of a pool comes before any other line that names the pool.
    Pools,
    /// O3: jobs are numbered from 0 in the order of their `submit` lines, and rounds in the order
    /// of their `begin` lines. Any other line that names a job comes after the job's `submit` line.
    Numbers,
    /// O4: the lines of a round come between its `begin` line and its `end` line.
    Rounds,
    /// O5: a job has at most one `start` line. All lines with the job as the actor come after its
    /// `start` line, and none of them comes after its `end` or `threw` line.
    Jobs,
    /// O6: a `refused` line comes after the `submit` line of the same job by the same actor.
    /// Between the `submit` line and the `refused` line, the actor has only `refused` lines of this
    /// job. If the job has a `start` line, that line comes after the `refused` line.
    Refusals,
    /// O7: `got` comes after the `end`, `threw` or `cancel` line of its job.
    Gets,
}

/// Formats the number of the rule and what the rule requires.
impl fmt::Display for LineRule {
    ghost output = { λ rule. Some (rule_text rule) };

    fn fmt<W: fmt::Write>(&self, f: &mut fmt::Formatter<W>) -> fmt::Result {
        f.write_str(match self {
            LineRule::Frame =>
                "O1: the first line, and no other, is `recording 1`; no line follows `end`",
            LineRule::Pools => "O2: a `pool` line comes before each line that names the pool",
            LineRule::Numbers =>
                "O3: `submit` lines are numbered 0, 1, 2 and so on, and so are `begin` lines; a line that names a job comes after its `submit` line",
            LineRule::Rounds =>
                "O4: the lines of a round are between its `begin` line and its `end` line",
            LineRule::Jobs =>
                "O5: a job has at most one `start` line; its own lines come after it, and the last of them is `end` or `threw`",
            LineRule::Refusals =>
                "O6: `refused` follows the actor's `submit` of the job, with no other line of the actor between them, and comes before the job's `start`",
            LineRule::Gets => "O7: `got` comes after an `end`, `threw` or `cancel` line of the job",
        })
    }
}
