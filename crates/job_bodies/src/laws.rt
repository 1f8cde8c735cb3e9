//! A law about the limits of plans, certificates, texts, searches and runs. The law is the contract
//! of a function with an empty body.

ghost use Rattle.job_bodies.specs.Limits.{PlanLimitsAreStated, TextLimitsAreStated, RunLimitsAreStated};

/// Proves that each limit of plans, certificates, texts, searches and runs has its documented
/// value.
pub fn limits_are_stated()
    ensures plans { PlanLimitsAreStated }
    ensures texts { TextLimitsAreStated }
    ensures runs { RunLimitsAreStated }
{}
