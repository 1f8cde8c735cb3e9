//! Warnings as JSON.

ghost use Rattle.std.specs.Prelude.{◌≡◌, IfOk};
ghost use Rattle.serde_json.specs.View.{view};
ghost use Rattle.report.specs.JsonWarnings as spec;

use crate::json_object::Object;
use crate::json_places::{column_value, line_value};
use crate::json_values::push_value;
use diagnostics::{Lint, Warning};
use serde_json::Value;
use std::alloc::{AllocError, Global};

/// Converts each warning to JSON: its kind, its place and its message.
pub(crate) fn warnings_value(alloc: Global, warnings: &[Warning]) -> Result<Value, AllocError>
    ensures { IfOk result (λ value. view value ≡ spec.warnings_data warnings.now) }
{
    let mut values = Vec::with_capacity(alloc, warnings.len())?;
    for warning in warnings {
        push_value(&mut values, warning_value(alloc, warning))?;
    }
    Ok(Value::from(values))
}

#[tactic(auto, unfolding(crate::specs::JsonWarnings::warning_data))]
fn warning_value(alloc: Global, warning: &Warning) -> Result<Value, AllocError>
    ensures { IfOk result (λ value. view value ≡ spec.warning_data warning.now) }
{
    let place = Some(warning.place);
    Object::new(alloc)
        .value("column", column_value(place))
        .text("kind", kind_of(warning.lint))
        .value("line", line_value(place))
        .text("text", &warning.what)
        .done()
}

/// Returns the name of a lint's kind, such as `useless max`.
fn kind_of(lint: Lint) -> &'static str
    ensures { result.now ≡ spec.kind_of lint }
{
    match lint {
        Lint::SafeAtCore => "safe at core",
        Lint::SubmitsItself(_) => "submits itself",
        Lint::NeverGot(_, _, _) => "never got",
        Lint::PoolWaitsForItself(_) => "pool waits for itself",
        Lint::NothingToAsk => "nothing to ask",
        Lint::NoClients => "no clients",
        Lint::NothingSubmitted => "nothing submitted",
        Lint::PoolWithoutJobs(_) => "pool without jobs",
        Lint::UselessMax(_) => "useless max",
        Lint::UselessMayReject(_, _) => "useless may reject",
        Lint::NeverRejects(_) => "never rejects",
        Lint::QueueFarAbove(_, _) => "queue far above",
        Lint::ClassWithoutJobs(_) => "class without jobs",
        Lint::RunInCaller(_) => "run in caller",
        Lint::GoesOnce(_) => "goes once",
        Lint::Crowd(_) => "crowd",
        Lint::WorkLikeASize(_, _, _, _) => "work like a size",
        Lint::OpenFuture(_, _, _) => "open future",
        Lint::QueueMayGrow(_, _, _) => "queue may grow",
        Lint::StaleCertificate => "stale certificate",
    }
}
