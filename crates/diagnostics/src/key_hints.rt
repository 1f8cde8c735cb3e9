//! Hints about keys that a plan does not have, such as those of Java and Spring. Each hint is the
//! end of a message. The parameter `letters` has only the letters and digits of the key, in
//! lowercase, so `coreSize` and `core-size` get the same hint.

ghost use Rattle.std.specs.Prelude.{◌≡◌, option_map};
ghost use Rattle.diagnostics.specs.KeyHints as spec;

use job_bodies::Part;

/// Returns the hint for a key that an entry of this kind cannot have. For `Part::Text`, returns the
/// hint for a key at the top level. `letters` is the result of
/// [`letters_of`](crate::letters::letters_of) for the key. Returns `None` if there is no hint.
pub(crate) fn key_hint(part: Part, letters: &str) -> Option<&'static str>
    ensures { option_map (λ hint. hint.now) result ≡ spec.key_hint part letters.now }
{
    match part {
        Part::Text => list_key_hint(letters),
        Part::Pool => pool_key_hint(letters),
        Part::Class => class_key_hint(letters),
        Part::Client => client_key_hint(letters),
    }
}

fn list_key_hint(letters: &str) -> Option<&'static str>
    ensures { option_map (λ hint. hint.now) result ≡ spec.list_key_hint letters.now }
{
    match letters {
        "pools" | "executor" | "executors" => Some("; use [[pool]]"),
        "classes" | "job" | "jobs" | "task" | "tasks" => Some("; use [[class]]"),
        "clients" => Some("; use [[client]]"),
        _ => None,
    }
}

fn pool_key_hint(letters: &str) -> Option<&'static str>
    ensures { option_map (λ hint. hint.now) result ≡ spec.pool_key_hint letters.now }
{
    match letters {
        "corepoolsize" | "coresize" | "poolsize" | "threads" | "size" => Some("; use core"),
        "maximumpoolsize" | "maxpoolsize" | "maxsize" | "maximum" => Some("; use max"),
        "queuecapacity" | "queuesize" | "capacity" | "workqueue" => Some("; use queue"),
        _ => rule_key_hint(letters),
    }
}

/// Returns the hint for a key of Java or Spring that concerns the rules of a pool and not its sizes.
fn rule_key_hint(letters: &str) -> Option<&'static str>
    ensures { option_map (λ hint. hint.now) result ≡ spec.rule_key_hint letters.now }
{
    match letters {
        "prestartallcorethreads" => Some("; use prestart"),
        "allowcorethreadtimeout" => Some("; use core_timeout"),
        "keepalive" | "keepalivetime" | "keepaliveseconds" => Some(
            "; leave it out: times do not change the answer (for core threads that time out: core_timeout = true)",
        ),
        "handler" | "rejectedexecutionhandler" | "rejectionpolicy" => Some(
            "; leave it out for AbortPolicy, or write may_reject = true if jobs may be rejected",
        ),
        _ => None,
    }
}

fn class_key_hint(letters: &str) -> Option<&'static str>
    ensures { option_map (λ hint. hint.now) result ≡ spec.class_key_hint letters.now }
{
    match letters {
        "executor" => Some("; use pool"),
        "actions" | "steps" | "run" => Some("; use body"),
        _ => None,
    }
}

fn client_key_hint(letters: &str) -> Option<&'static str>
    ensures { option_map (λ hint. hint.now) result ≡ spec.client_key_hint letters.now }
{
    match letters {
        "threads" | "instances" | "number" | "n" => Some("; use count"),
        "loop" | "forever" | "repeats" => Some("; use repeat"),
        "actions" | "steps" | "run" => Some("; use body"),
        _ => None,
    }
}
