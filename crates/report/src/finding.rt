//! The finding about a plan: whether the plan is safe, and the certificate or counterexample that
//! shows it. An answer about a plan is written from its finding.

use cert_text::Cert;
use counterexample::Witness;
use size_search::SizesFound;

/// A finding about a plan with its declared sizes.
#[derive(Drop)]
pub enum PlanFinding {
    /// A certificate accepts the plan. The first field is this certificate. The second field has,
    /// for each pool, the number of events after which the pool rejects a job, or `None` if no
    /// rejection was found. Missing elements at the end count as `None`.
    Safe(Cert, Vec<Option<u64>>),
    /// A counterexample shows that the plan is not safe. The fields are this counterexample and the
    /// result of the search for other sizes.
    NotSafe(Witness, SizesFound),
    /// Neither a certificate nor a counterexample was found, so the declared sizes may or may not
    /// be safe. The field is the result of the search for other sizes.
    NotDecided(SizesFound),
}
