//! The message for a get of a name under which no job was submitted before.

use crate::actions::{ParsedAction, parse_action};
use crate::suggestions::{comma_list, nearest};
use std::alloc::{AllocError, Global};
use toml::Value;

/// A submit in a body.
#[derive(Clone, Copy)]
struct Submit<'a> {
    /// The index of the action.
    action: usize,
    text: &'a str,
    class: &'a str,
}

/// Returns the message for the action with the index `get`, which is a get of `name`. No earlier
/// action of the body submits a job under this name. `names` has the names under which earlier
/// actions submit jobs.
pub(crate) fn missing_submit(
    alloc: Global,
    body: &[Value],
    get: usize,
    name: &str,
    names: &[&str],
) -> Result<String, AllocError> {
    if has_invalid_submit(body, get, name) {
        return format!(in alloc; "nothing was submitted as {name}");
    }
    if let Some(Submit { action, text, .. }) = named_after(body, get, name) {
        return format!(in alloc;
            "{name} is submitted only after this get, by action {action} \"{text}\""
        );
    }
    let right = likely_cause(alloc, body, get, name, names)?;
    format!(in alloc; "nothing was submitted as {name}{right}")
}

/// Returns whether a text before the action with the index `get` is not an action, but looks like a
/// submit under this name, such as `execute a as x`.
fn has_invalid_submit(body: &[Value], get: usize, name: &str) -> bool {
    for (action, value) in body.iter().enumerate() {
        if action < get
            && let Some(text) = value.as_str()
            && parse_action(text).is_none()
            && let Some((_, slot)) = text.split_once(" as ")
            && slot.contains(name)
        {
            return true;
        }
    }
    false
}

/// Returns the end of the message for a get without an earlier submit under its name. The end
/// states the first of these causes that applies:
///
/// 1. An earlier submit of the class `name` has no `as`.
/// 2. An earlier submit has a similar name.
/// 3. An earlier submit of another class has no `as`. The end states the last such submit.
///
/// If none of these causes applies, the end is the result of [`no_submit_before`].
fn likely_cause(
    alloc: Global,
    body: &[Value],
    get: usize,
    name: &str,
    names: &[&str],
) -> Result<String, AllocError> {
    let before = unnamed_before(body, get, name);
    if let Some(submit) = before
        && submit.class == name
    {
        return without_name(alloc, submit, name);
    }
    if let Some(word) = nearest(alloc, name, names)? {
        return format!(in alloc; "; did you mean {word}?");
    }
    match before {
        Some(submit) => without_name(alloc, submit, name),
        None => no_submit_before(alloc, body, get, name, names),
    }
}

/// Returns the end of the message for a get of `name`. `names` has the names of the earlier
/// submits. Each of these submits must have a name, and none of the names may be similar to `name`.
///
/// - If there are earlier submits, the end lists their names.
/// - Otherwise the end says which submit to write. If a later submit has no `as`, the end also
///   states the first such submit.
fn no_submit_before(
    alloc: Global,
    body: &[Value],
    get: usize,
    name: &str,
    names: &[&str],
) -> Result<String, AllocError> {
    if !names.is_empty() {
        return comma_list(alloc, "; there are", names);
    }
    match unnamed_after(body, get) {
        Some(
            Submit {
                action,
                text,
                class,
            },
        ) => format!(in alloc;
            ": action {action} \"{text}\" comes after this get; write submit {class} as {name} before it"
        ),
        None => format!(in alloc; ": write submit CLASS as {name} before it"),
    }
}

fn without_name(alloc: Global, submit: Submit<'_>, name: &str) -> Result<String, AllocError> {
    let Submit { action, text, .. } = submit;
    format!(in alloc; ": action {action} \"{text}\" has no as {name}")
}

/// Returns the first submit under this name after the action with the index `get`. Returns `None`
/// if there is no such submit.
fn named_after<'a>(body: &'a [Value], get: usize, name: &str) -> Option<Submit<'a>> {
    for (action, value) in body.iter().enumerate() {
        if action > get
            && let Some(text) = value.as_str()
            && let Some(ParsedAction::SubmitAs(class, slot)) = parse_action(text)
            && slot == name
        {
            return Some(Submit {
                action,
                text,
                class,
            });
        }
    }
    None
}

/// Searches the actions before the index `get` for submits without `as`. Returns the first one of
/// the class `name`. If none of them has this class, returns the last one. Returns `None` if there
/// are no such submits.
fn unnamed_before<'a>(body: &'a [Value], get: usize, name: &str) -> Option<Submit<'a>> {
    let mut last = None;
    for (action, value) in body.iter().enumerate() {
        if action < get
            && let Some(submit) = unnamed(action, value)
        {
            if submit.class == name {
                return Some(submit);
            }
            last = Some(submit);
        }
    }
    last
}

/// Returns the first submit without `as` after the action with the index `get`. Returns `None` if
/// there is no such submit.
fn unnamed_after(body: &[Value], get: usize) -> Option<Submit<'_>> {
    for (action, value) in body.iter().enumerate() {
        if action > get
            && let Some(submit) = unnamed(action, value)
        {
            return Some(submit);
        }
    }
    None
}

/// Returns the action as a submit, if it is a submit without `as`. Otherwise returns `None`.
/// `action` is the index of the action, and `value` is its text.
fn unnamed(action: usize, value: &Value) -> Option<Submit<'_>> {
    let text = value.as_str()?;
    match parse_action(text) {
        Some(ParsedAction::Submit(class)) => Some(Submit {
            action,
            text,
            class,
        }),
        _ => None,
    }
}
