//! Laws of skipped submits and of exchanged jobs, each as the contract of an empty function. An
//! actor (a client or a job) can skip a submit together with its get, and can exchange its jobs of
//! one class.

ghost use Rattle.soundness.specs.Exchange.{ExchangesSwapTwoGets};
ghost use Rattle.soundness.specs.Skipping.{DoneWithinQueued};
ghost use Rattle.soundness.specs.Skipping.{AlikeJobsAreGotInAnyOrder};

/// States that a vector gives a done job of a class at most the weight of a queued job of this
/// class. The rows (the conditions) of the vector and of the certificate's ranks must hold. So a
/// skipped submit does not increase the sum of all weights in a state. For such a submit, the
/// machine creates a job that is already done, in place of a queued job.
pub fn done_within_queued()
    ensures { DoneWithinQueued }
{}

/// States what changes if an actor exchanges its jobs at two of its submits:
///
/// - The gets of the two submits swap their jobs: each get finds the job that the other found
///   before.
/// - Every other get finds the same job as before.
/// - Each job keeps its class, its creator and its stage.
pub fn exchanges_swap_two_gets()
    ensures { ExchangesSwapTwoGets }
{}

/// States that an actor at a get can get another of its jobs instead. The actor exchanges the two
/// jobs, and its next event gets the other job. These conditions must hold:
///
/// - The other job is done.
/// - Both jobs have the same class.
/// - No get has returned either of the two jobs.
pub fn alike_jobs_are_got_in_any_order()
    ensures { AlikeJobsAreGotInAnyOrder }
{}
