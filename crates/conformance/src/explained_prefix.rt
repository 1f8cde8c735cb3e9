//! The longest prefix of a path that a body explains.

ghost use Rattle.std.specs.Prelude.{◌≡◌, ◌==◌, ◌||◌, ◌&&◌, nat_lt, is_none, if◌then◌else◌};
ghost use Rattle.conformance.specs.PathMatch as spec;

use crate::open_excess::OpenExcess;

/// The longest prefix of a path that a body explains. A body explains a prefix if some path that
/// matches the body begins with this prefix.
#[derive(Clone, Copy, PartialEq, Eq)]
pub struct ExplainedPrefix {
    /// The number of steps in the prefix.
    pub length: usize,
    /// The open jobs that block the body before the next step of the path. The field is `None` in
    /// these cases:
    ///
    /// - The next step is a get.
    /// - The next step is a submit, but the body has no such submit left.
    /// - The prefix is the whole path.
    pub excess: Option<OpenExcess>,
    /// The job that the actor should have got before its end. The field is the index at which the
    /// path submits this job. It is `None` in these cases:
    ///
    /// - The prefix is not the whole path.
    /// - The path matches the body.
    pub missing: Option<usize>,
}

/// Returns the longer of two prefixes. For equal lengths, returns `one` if its `excess` is not
/// `None`, and `other` otherwise.
pub(crate) fn longer(one: ExplainedPrefix, other: ExplainedPrefix) -> ExplainedPrefix
    ensures { result ≡ spec.longer one other }
{
    if one.length < other.length || (one.length == other.length && one.excess.is_none()) {
        other
    } else {
        one
    }
}
