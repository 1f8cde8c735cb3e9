//! The result of matching a path against a body.

use crate::explained_prefix::ExplainedPrefix;

/// The maximum number of lists of open jobs that a match follows after a step of the path. In a
/// list, each job has one of the classes that it may belong to. If no open job may belong to
/// several classes of the body, there is at most one list. If exactly one open job may, there is at
/// most one list for each of its classes.
pub const MAX_OPEN_LISTS: usize = 64;

/// The result of matching a path against a body.
#[derive(Clone, Copy, PartialEq, Eq)]
pub enum PathMatch {
    /// The path matches the body.
    Fits,
    /// The path does not match the body. The field is the longest prefix of the path that the body
    /// explains. A body explains a prefix if some path that matches the body begins with this
    /// prefix. The step after the prefix deviates. If there is no such step, the actor ended too
    /// early.
    Deviates(ExplainedPrefix),
    /// It is unknown whether the path matches, because its open jobs may have too many combinations
    /// of classes: more than [`MAX_OPEN_LISTS`] after some step of the path.
    Undecided,
}
