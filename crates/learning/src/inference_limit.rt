//! Reasons why a valid recording gives no plan.

ghost use Rattle.std.specs.Prelude.{Some};
ghost use Rattle.learning.specs.InferenceLimit.{inference_limit_text};

use std::fmt;

/// The reason why a valid recording gives no plan: the plan would exceed a limit, or no bodies were
/// found.
#[derive(Clone, Copy)]
pub enum InferenceLimit {
    /// The plan would need more pools than a plan may have.
    Pools,
    /// The plan would need more classes of jobs than a plan may have.
    Classes,
    /// The plan would need more client kinds than a plan may have.
    Kinds,
    /// A class or client kind would need a name that is too long.
    Names,
    /// Too many rounds of one client kind are open at the same time. The kind would need a client
    /// for each of them, and a plan may not have that many clients of a kind.
    Rounds,
    /// No bodies were found for the paths of some jobs or rounds. This is also the reason in these
    /// cases:
    ///
    /// - The bodies were learned from the start of a longer recording, and a label has several
    ///   client kinds.
    /// - The pools, classes and client kinds do not form a valid plan.
    Paths,
    /// The text of the plan would be too long.
    Text,
}

/// Formats the reason as a short phrase, such as `more pools than a plan may have`.
impl fmt::Display for InferenceLimit {
    ghost output = { λ reason. Some (inference_limit_text reason) };

    fn fmt<W: fmt::Write>(&self, f: &mut fmt::Formatter<W>) -> fmt::Result {
        f.write_str(match self {
            InferenceLimit::Pools => "more pools than a plan may have",
            InferenceLimit::Classes => "more classes of jobs than a plan may have",
            InferenceLimit::Kinds => "more kinds of clients than a plan may have",
            InferenceLimit::Names => "a class or a kind needs a longer name than a plan may have",
            InferenceLimit::Rounds => "more rounds of a kind at once than a plan may have clients",
            InferenceLimit::Paths => "no body was found for what some jobs or rounds did",
            InferenceLimit::Text => "a longer text than a plan may have",
        })
    }
}
