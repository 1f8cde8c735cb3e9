//! The law of steady certificates, as the contract of a function with an empty body. In the steady
//! certificate of a plan, one vector is the blocked vector of every pool whose core threads never
//! time out, and also the standing vector of every pool that needs a bound. A pool needs none if it
//! may reject jobs or its queue is unbounded. The other blocked vectors are 0.

ghost use Rattle.size_search.specs.SteadyLaws.{SteadyCertificatesAccept};

/// States when the steady certificate accepts its plan (see [`steady`](crate::steady)). The
/// premises are these:
///
/// - No class submits itself, directly or through other classes.
/// - No repeating client submits, directly or through other jobs, a job that is never got.
/// - If the core threads of a pool may time out, its last thread cannot wait until another job of
///   this pool ends.
/// - If a class has a get and the core threads of its pool may time out, clients submit this class,
///   directly or through other jobs.
/// - Each weight of the certificate is at most `MAX_WEIGHT`.
///
/// Then only conditions on the total of the certificate's vector can fail. The certificate accepts
/// the plan if the following conditions hold, and only then:
///
/// - The queue of every pool that needs a bound is at least the total. A pool needs no bound if it
///   may reject jobs or its queue is unbounded.
/// - Every core whose threads never time out is larger than the total.
pub fn steady_certificates_accept()
    ensures { SteadyCertificatesAccept }
{}
