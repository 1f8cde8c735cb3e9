//! The result of learning a plan.

use crate::inference_limit::InferenceLimit;
use job_bodies::Plan;
use recordings::RecordingFault;

/// The result of learning a plan from a recording.
#[derive(Drop)]
pub enum InferenceResult {
    /// The first invalid line of the recording.
    Invalid(RecordingFault),
    /// The plan that was learned from the recording.
    Inferred(InferredPlan),
    /// The reason why there is no plan: the recording exceeds the limits of a plan, or no bodies
    /// were found for its paths.
    InferenceLimit(InferenceLimit),
}

/// A plan that was learned from a recording, with counts of the recording's rounds and jobs.
#[derive(Drop)]
pub struct InferredPlan {
    pub plan: Plan,
    /// The number of rounds that began.
    pub rounds: usize,
    /// The number of jobs that were submitted, including refused jobs.
    pub jobs: usize,
    /// The number of rounds that began and did not end.
    pub unfinished_rounds: usize,
    /// The number of jobs that started and did not end.
    pub unfinished_jobs: usize,
    /// The number of gets that timed out or were interrupted. The bodies were learned without them.
    pub failed_gets: usize,
}
