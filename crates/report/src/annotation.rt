//! An annotation: a remark about a plan's file, or about a place in it.

ghost use Rattle.std.specs.Prelude.{◌≡◌, IfOk, string_bytes};
ghost use Rattle.support.specs.Pushed.{Pushes};
ghost use Rattle.report.specs.Annotations as spec;

use crate::story_steps::push_named;
use diagnostics::Lint;
use plan_text::TextPlace;
use std::alloc::{AllocError, Global};

/// The kind of an annotation. SARIF calls this kind a rule.
#[derive(Clone, Copy)]
pub(crate) enum Rule {
    /// A fault. The field is the fault's number, such as 13.
    Fault(u8),
    /// A remark with the number of faults that are not listed, because at most 100 are listed.
    MoreFaults,
    /// A warning or a note about this lint.
    Warning(Lint),
    /// The answer SAFE.
    Safe,
    /// The answer NOT SAFE.
    NotSafe,
    /// The answer NOT DECIDED.
    NotDecided,
}

/// A remark about a plan's file, or about a place in it.
#[derive(Drop)]
pub(crate) struct Annotation {
    pub(crate) rule: Rule,
    pub(crate) message: String,
    /// The place of the remark. `None` if the remark is about the whole file, or if its place is
    /// not known.
    pub(crate) place: Option<TextPlace>,
}

/// Returns the name of a rule, such as `fault-13` or `warning-useless-max`.
pub(crate) fn rule_name(alloc: Global, rule: Rule) -> Result<String, AllocError>
    ensures { IfOk result (λ name. string_bytes name ≡ spec.rule_name rule) }
{
    let mut name = String::new(alloc);
    push_rule_name(&mut name, rule)?;
    Ok(name)
}

/// Appends the name of a rule, such as `fault-13` or `warning-useless-max`.
pub(crate) fn push_rule_name(text: &mut String, rule: Rule) -> Result<(), AllocError>
    ensures { Pushes result text.old text.new (spec.rule_name rule) }
{
    match rule {
        Rule::Fault(number) => write!(text, "fault-{number}"),
        Rule::MoreFaults => text.push_str("more-faults"),
        Rule::Warning(lint) => push_named(text, "warning-", lint_name(lint)),
        Rule::Safe => text.push_str("safe"),
        Rule::NotSafe => text.push_str("not-safe"),
        Rule::NotDecided => text.push_str("not-decided"),
    }
}

fn lint_name(lint: Lint) -> &'static str
    ensures { result.now ≡ spec.lint_name lint }
{
    match lint {
        Lint::SafeAtCore => "safe-at-core",
        Lint::SubmitsItself(_) => "submits-itself",
        Lint::NeverGot(_, _, _) => "never-got",
        Lint::PoolWaitsForItself(_) => "pool-waits-for-itself",
        Lint::NothingToAsk => "nothing-to-ask",
        Lint::NoClients => "no-clients",
        Lint::NothingSubmitted => "nothing-submitted",
        Lint::PoolWithoutJobs(_) => "pool-without-jobs",
        Lint::UselessMax(_) => "useless-max",
        Lint::UselessMayReject(_, _) => "useless-may-reject",
        Lint::NeverRejects(_) => "never-rejects",
        Lint::QueueFarAbove(_, _) => "queue-far-above",
        Lint::ClassWithoutJobs(_) => "class-without-jobs",
        Lint::RunInCaller(_) => "run-in-caller",
        Lint::GoesOnce(_) => "goes-once",
        Lint::Crowd(_) => "crowd",
        Lint::WorkLikeASize(_, _, _, _) => "work-like-a-size",
        Lint::OpenFuture(_, _, _) => "open-future",
        Lint::QueueMayGrow(_, _, _) => "queue-may-grow",
        Lint::StaleCertificate => "stale-certificate",
    }
}
