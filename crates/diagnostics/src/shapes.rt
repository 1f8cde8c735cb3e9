//! The checks of an entry's keys: unknown keys, missing keys, and values of the wrong type.

use crate::collector::FaultCollector;
use crate::entry::{PlacedEntry, UNBOUNDED, list_of, report_at};
use crate::hints::{article, names_no_limit, no_limit_hint};
use crate::key_hints::key_hint;
use crate::letters::letters_of;
use crate::suggestions::{comma_list, nearest, suggestion};
use job_bodies::{MAX_ACTIONS, Part, PlanFault};
use std::alloc::{AllocError, Global};
use support::number::{MISSING_KEY, TOO_MANY, UNKNOWN_KEY, WRONG_TYPE};
use toml::Value;

/// The type that the value of a key must have.
#[derive(Clone, Copy)]
enum ValueKind {
    Text,
    Number,
    /// A number, or the string `unbounded`.
    Size,
    Flag,
    Body,
}

const POOL_KEYS: [&str; 7] = [
    "name",
    "core",
    "max",
    "queue",
    "prestart",
    "core_timeout",
    "may_reject",
];

const CLASS_KEYS: [&str; 3] = ["name", "pool", "body"];

const CLIENT_KEYS: [&str; 4] = ["name", "count", "repeat", "body"];

/// Returns the keys that an entry of this kind can have. For `Part::Text`, returns the keys that
/// the plan's text can have at the top level.
fn keys_of(part: Part) -> &'static [&'static str] {
    match part {
        Part::Text => &["pool", "class", "client"],
        Part::Pool => &POOL_KEYS,
        Part::Class => &CLASS_KEYS,
        Part::Client => &CLIENT_KEYS,
    }
}

/// Returns the type that the value of this key must have. The key must be one of [`keys_of`].
fn wanted_of(key: &str) -> ValueKind {
    match key {
        "name" | "pool" => ValueKind::Text,
        "core" | "count" => ValueKind::Number,
        "max" | "queue" => ValueKind::Size,
        "body" => ValueKind::Body,
        _ => ValueKind::Flag,
    }
}

/// Returns the hint that is shown if this key is missing. If the key is optional, the hint is empty.
fn missing_hint(key: &str) -> &'static str {
    match key {
        "name" => "write name = \"..\"",
        "pool" => "write pool = \"..\", the pool that runs these jobs",
        "core" => "write core = N, the core pool size in threads",
        "max" => "write max = N, the maximum pool size in threads",
        "queue" => "write queue = N, the capacity of its queue, or queue = \"unbounded\"",
        "count" => "write count = N, the number of these clients",
        "body" => "write body = [\"..\"], its actions, or body = []",
        _ => "",
    }
}

/// Reports the unknown keys of an entry. Returns whether there are any.
pub(crate) fn unknown_keys(
    collector: &mut FaultCollector,
    entry: &PlacedEntry<'_>,
) -> Result<bool, AllocError> {
    let mut any = false;
    for key in entry.table.keys() {
        let key = key.as_str();
        if !has_key(entry.part, key) {
            any = true;
            unknown_key(collector, entry, key)?;
        }
    }
    Ok(any)
}

fn has_key(part: Part, key: &str) -> bool {
    keys_of(part).contains(&key)
}

fn unknown_key(
    collector: &mut FaultCollector,
    entry: &PlacedEntry<'_>,
    key: &str,
) -> Result<(), AllocError> {
    let right = key_suggestion(collector.alloc, entry.part, key)?;
    match entry.part {
        Part::Text => unknown_list(collector, entry, key, &right),
        _ => unknown_entry_key(collector, entry, key, &right),
    }
}

fn unknown_list(
    collector: &mut FaultCollector,
    plan: &PlacedEntry<'_>,
    key: &str,
    right: &str,
) -> Result<(), AllocError> {
    let words = format!(in collector.alloc; "unknown key {key}{right}");
    report_at(
        collector,
        PlanFault::at_text(UNKNOWN_KEY),
        key,
        plan.places,
        words,
    )
}

fn unknown_entry_key(
    collector: &mut FaultCollector,
    entry: &PlacedEntry<'_>,
    key: &str,
    right: &str,
) -> Result<(), AllocError> {
    let list = list_of(entry.part);
    let words = format!(in collector.alloc; "unknown key {key} in [[{list}]]{right}");
    entry.report(collector, UNKNOWN_KEY, entry.key_place(key), words)
}

/// Returns the end of the message for a key that an entry of this kind cannot have. The end says
/// what to write instead.
fn key_suggestion(alloc: Global, part: Part, key: &str) -> Result<String, AllocError> {
    let letters = letters_of(alloc, key)?;
    match key_hint(part, &letters) {
        Some(hint) => String::from_str(alloc, hint),
        None => suggestion(alloc, key, keys_of(part), all_keys(alloc, part)),
    }
}

/// Returns the end of a message that lists the keys of an entry of this kind.
fn all_keys(alloc: Global, part: Part) -> Result<String, AllocError> {
    match part {
        Part::Text => String::from_str(alloc, "; a plan has [[pool]], [[class]] and [[client]]"),
        _ => comma_list(alloc, "; the keys are", keys_of(part)),
    }
}

/// Reports the required keys that the entry does not have, and the values of the entry that have
/// the wrong type.
pub(crate) fn values(
    collector: &mut FaultCollector,
    entry: &PlacedEntry<'_>,
) -> Result<(), AllocError> {
    for key in keys_of(entry.part) {
        value(collector, entry, *key)?;
    }
    Ok(())
}

fn value(
    collector: &mut FaultCollector,
    entry: &PlacedEntry<'_>,
    key: &str,
) -> Result<(), AllocError> {
    let Some(value) = entry.value(key) else {
        return missing_key(collector, entry, key);
    };
    let wanted = wanted_of(key);
    if matches!(wanted, ValueKind::Body) {
        body(collector, entry, value)
    } else if is_of(wanted, value) {
        Ok(())
    } else {
        wrong_type(collector, entry, key, wanted, value)
    }
}

/// Reports that the key is missing, unless this key is optional.
fn missing_key(
    collector: &mut FaultCollector,
    entry: &PlacedEntry<'_>,
    key: &str,
) -> Result<(), AllocError> {
    let hint = missing_hint(key);
    if hint.is_empty() {
        return Ok(());
    }
    let words = format!(in collector.alloc; "{key} is missing: {hint}");
    entry.report(collector, MISSING_KEY, entry.place(), words)
}

/// Reports a value at the key whose type is not `wanted`.
fn wrong_type(
    collector: &mut FaultCollector,
    entry: &PlacedEntry<'_>,
    key: &str,
    wanted: ValueKind,
    value: &Value,
) -> Result<(), AllocError> {
    let rule = rule_of(wanted);
    let found = value.type_str();
    let an = article(found);
    let has_no_limit = means_no_limit(collector.alloc, value.as_str().unwrap_or(""))?;
    let hint = no_limit_hint(key, has_no_limit);
    let words = format!(in collector.alloc; "{key} is {an} {found}, but must be {rule}{hint}");
    entry.report(collector, WRONG_TYPE, entry.value_place(key), words)
}

/// Returns `true` if the text says that a size has no limit, or if it is a misspelled `unbounded`.
fn means_no_limit(alloc: Global, text: &str) -> Result<bool, AllocError> {
    let letters = letters_of(alloc, text)?;
    let is_similar = letters.starts_with('u') && nearest(alloc, &letters, &[UNBOUNDED])?.is_some();
    Ok(is_similar || names_no_limit(&letters))
}

fn is_of(wanted: ValueKind, value: &Value) -> bool {
    match wanted {
        ValueKind::Text => value.is_str(),
        ValueKind::Number => value.is_integer(),
        ValueKind::Size => value.is_integer() || value.as_str() == Some(UNBOUNDED),
        ValueKind::Flag => value.is_bool(),
        ValueKind::Body => value.is_array(),
    }
}

fn rule_of(wanted: ValueKind) -> &'static str {
    match wanted {
        ValueKind::Text => "a string",
        ValueKind::Number => "an integer, without quotes",
        ValueKind::Size => "an integer, without quotes, or \"unbounded\"",
        ValueKind::Flag => "true or false, without quotes",
        ValueKind::Body => "an array of strings",
    }
}

/// Reports a body that is not an array or is too long, and the elements of a body that are not
/// strings.
fn body(
    collector: &mut FaultCollector,
    entry: &PlacedEntry<'_>,
    value: &Value,
) -> Result<(), AllocError> {
    let place = entry.value_place("body");
    let Some(actions) = value.as_array() else {
        let words =
            "body must be an array of strings, such as [\"work 5\", \"submit query as rows\", \"get rows\"]";
        let words = String::from_str(collector.alloc, words);
        return entry.report(collector, WRONG_TYPE, place, words);
    };
    if actions.len() > MAX_ACTIONS {
        let words = String::from_str(collector.alloc, "a body has at most 256 actions");
        return entry.report(collector, TOO_MANY, place, words);
    }
    for (number, action) in actions.iter().enumerate() {
        if !action.is_str() {
            wrong_element(collector, entry, number, action.type_str())?;
        }
    }
    Ok(())
}

/// Reports an element of a body that is not a string. `number` is the index of the element, and
/// `found` is its type.
fn wrong_element(
    collector: &mut FaultCollector,
    entry: &PlacedEntry<'_>,
    number: usize,
    found: &str,
) -> Result<(), AllocError> {
    let an = article(found);
    let words = format!(in collector.alloc; "it is {an} {found}, but must be a string");
    entry.report_action(collector, number, WRONG_TYPE, "..", words, None)
}
