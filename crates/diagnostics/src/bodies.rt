//! The checks of bodies: each action is well-formed, each submit names an existing class, and each
//! get names a job that was submitted before and not got yet.

use crate::actions::{ParsedAction, action_error, parse_action, range_of_work};
use crate::collector::FaultCollector;
use crate::diagnostic::NumberRange;
use crate::entry::PlacedEntry;
use crate::entry_list::EntryList;
use crate::missing_submits::missing_submit;
use std::alloc::{AllocError, Global};
use support::number::{BAD_ACTION, NO_SUCH_CLASS, SLOT_EMPTY, SLOT_OPEN};
use toml::Value;

/// The name of a submitted job, such as `q` in `submit query as q`.
#[derive(Clone, Copy)]
struct Slot<'a> {
    name: &'a str,
    /// The index of the action that submitted the job.
    submit: usize,
    /// The index of the action that got the job, or `None` if no action has got the job yet.
    got: Option<usize>,
}

/// The result of [`mark_as_got`], which records that an action gets a job.
#[derive(Clone, Copy)]
enum MarkResult {
    /// No earlier action got the job, so this action gets it.
    Now,
    /// An earlier action got the job. The field is the index of that action.
    Before(usize),
    /// No earlier action submitted a job under the name.
    Missing,
}

/// An action that is being checked.
#[derive(Clone, Copy)]
struct CheckedAction<'a> {
    entry: &'a PlacedEntry<'a>,
    action: usize,
    text: &'a str,
    /// All actions of the body.
    actions: &'a [Value],
}

impl CheckedAction<'_> {
    /// Reports a fault of this action. `number` is the number of the fault, and `words` is its
    /// message. If `words` is an error, returns this error. `range` is the valid range if the
    /// action has a number that is out of range.
    fn report(
        &self,
        collector: &mut FaultCollector,
        number: u8,
        words: Result<String, AllocError>,
        range: Option<NumberRange>,
    ) -> Result<(), AllocError> {
        self.entry
            .report_action(collector, self.action, number, self.text, words, range)
    }
}

/// Reports the faults of the actions in an entry's body. Ignores a body that is missing or is not
/// an array, and elements of the body that are not strings.
pub(crate) fn body(
    collector: &mut FaultCollector,
    entry: &PlacedEntry<'_>,
    classes: &EntryList<'_>,
) -> Result<(), AllocError> {
    let Some(value) = entry.value("body") else {
        return Ok(());
    };
    let Some(actions) = value.as_array() else {
        return Ok(());
    };
    let mut slots = Vec::new(collector.alloc);
    check_actions(collector, entry, actions, classes, &mut slots)
}

fn check_actions<'a>(
    collector: &mut FaultCollector,
    entry: &'a PlacedEntry<'a>,
    actions: &'a [Value],
    classes: &EntryList<'_>,
    slots: &mut Vec<Slot<'a>>,
) -> Result<(), AllocError> {
    for (action, value) in actions.iter().enumerate() {
        if let Some(text) = value.as_str() {
            let checked = CheckedAction {
                entry,
                action,
                text,
                actions,
            };
            check_action(collector, checked, classes, slots)?;
        }
    }
    Ok(())
}

fn check_action<'a>(
    collector: &mut FaultCollector,
    checked: CheckedAction<'a>,
    classes: &EntryList<'_>,
    slots: &mut Vec<Slot<'a>>,
) -> Result<(), AllocError> {
    match parse_action(checked.text) {
        None => report_bad_action(collector, checked),
        Some(ParsedAction::Work) => Ok(()),
        Some(ParsedAction::Submit(class)) => check_submit(collector, checked, class, classes),
        Some(ParsedAction::SubmitAs(class, slot)) => {
            check_submit(collector, checked, class, classes)?;
            check_slot_is_free(collector, checked, slot, slots)
        }
        Some(ParsedAction::Get(slot)) => check_get(collector, checked, slot, slots),
    }
}

/// Reports a text that is not an action.
fn report_bad_action(
    collector: &mut FaultCollector,
    checked: CheckedAction<'_>,
) -> Result<(), AllocError> {
    let words = action_error(collector.alloc, checked.text);
    let range = range_of_work(checked.text);
    checked.report(collector, BAD_ACTION, words, range)
}

fn check_submit(
    collector: &mut FaultCollector,
    checked: CheckedAction<'_>,
    class: &str,
    classes: &EntryList<'_>,
) -> Result<(), AllocError> {
    if classes.contains(class) {
        return Ok(());
    }
    let words = classes.unknown(collector.alloc, class);
    checked.report(collector, NO_SUCH_CLASS, words, None)
}

/// Checks a submit under this name. A name is in use from a submit under the name until the get of
/// the submitted job. If the name is in use, reports the submit. Otherwise adds the name to
/// `slots`.
fn check_slot_is_free<'a>(
    collector: &mut FaultCollector,
    checked: CheckedAction<'a>,
    name: &'a str,
    slots: &mut Vec<Slot<'a>>,
) -> Result<(), AllocError> {
    if let Some(submit) = submit_in_use(slots, name) {
        return report_in_use(collector, checked, name, submit);
    }
    slots.push(Slot {
        name,
        submit: checked.action,
        got: None,
    })?;
    Ok(())
}

/// Returns the index of the submit under this name if the submitted job was not got yet. Returns
/// `None` if there is no such submit.
fn submit_in_use(slots: &[Slot<'_>], name: &str) -> Option<usize> {
    for slot in slots {
        if slot.name == name && slot.got.is_none() {
            return Some(slot.submit);
        }
    }
    None
}

fn report_in_use(
    collector: &mut FaultCollector,
    checked: CheckedAction<'_>,
    name: &str,
    submit: usize,
) -> Result<(), AllocError> {
    let words = format!(in collector.alloc;
        "{name} is still in use by action {submit}: get it first, or use another name"
    );
    checked.report(collector, SLOT_OPEN, words, None)
}

/// Checks a get of this name. The get is valid if a job was submitted under the name and was not
/// got yet. If the get is valid, records that this action gets the job. Otherwise reports the get.
fn check_get<'a>(
    collector: &mut FaultCollector,
    checked: CheckedAction<'a>,
    name: &str,
    slots: &mut Vec<Slot<'a>>,
) -> Result<(), AllocError> {
    match mark_as_got(slots, name, checked.action) {
        MarkResult::Now => Ok(()),
        MarkResult::Before(action) => report_got(collector, checked, name, action),
        MarkResult::Missing => report_missing(collector, checked, name, slots),
    }
}

/// Records that the action with the index `action` gets the job with this name. Changes nothing if
/// no job was submitted under the name, or if an earlier action got the job. The result says
/// whether the get was recorded and, if not, which of these two reasons applies.
fn mark_as_got(slots: &mut [Slot<'_>], name: &str, action: usize) -> MarkResult {
    let mut marked = MarkResult::Missing;
    for slot in slots.iter_mut() {
        if slot.name == name {
            match slot.got {
                None => {
                    slot.got = Some(action);
                    return MarkResult::Now;
                }
                Some(before) => marked = MarkResult::Before(before),
            }
        }
    }
    marked
}

/// Reports a get of a job that an earlier action got. `action` is the index of the earlier action.
fn report_got(
    collector: &mut FaultCollector,
    checked: CheckedAction<'_>,
    name: &str,
    action: usize,
) -> Result<(), AllocError> {
    let words = format!(in collector.alloc;
        "action {action} has already got {name}; a result can be got once"
    );
    checked.report(collector, SLOT_EMPTY, words, None)
}

/// Reports a get of a name under which no job was submitted before.
fn report_missing(
    collector: &mut FaultCollector,
    checked: CheckedAction<'_>,
    name: &str,
    slots: &[Slot<'_>],
) -> Result<(), AllocError> {
    let words = no_such_slot(collector.alloc, checked, name, slots);
    checked.report(collector, SLOT_EMPTY, words, None)
}

/// Returns the message for a get of a name under which no job was submitted before.
fn no_such_slot(
    alloc: Global,
    checked: CheckedAction<'_>,
    name: &str,
    slots: &[Slot<'_>],
) -> Result<String, AllocError> {
    let names = names_of(alloc, slots)?;
    missing_submit(alloc, checked.actions, checked.action, name, &names)
}

fn names_of<'a>(alloc: Global, slots: &[Slot<'a>]) -> Result<Vec<&'a str>, AllocError> {
    let mut names = Vec::new(alloc);
    for slot in slots {
        names.push(slot.name)?;
    }
    Ok(names)
}
