//! The checks of names: each name must be well-formed, and unique in its list.

use crate::collector::FaultCollector;
use crate::entry::{PlacedEntry, list_of};
use job_bodies::is_valid_name;
use std::alloc::{AllocError, Global};
use support::number::{BAD_NAME, DOUBLE_NAME};

/// Reports the entry's name if it is malformed, or if an earlier entry of the same list has the
/// same name.
pub(crate) fn name(
    collector: &mut FaultCollector,
    entry: &PlacedEntry<'_>,
    before: &[PlacedEntry<'_>],
) -> Result<(), AllocError> {
    let Some(name) = entry.text("name") else {
        return Ok(());
    };
    if !is_valid_name(name) {
        return malformed_name(collector, entry, name);
    }
    for other in before {
        if other.text("name") == Some(name) {
            return duplicate_name(collector, entry, other.value_place("name").line);
        }
    }
    Ok(())
}

fn malformed_name(
    collector: &mut FaultCollector,
    entry: &PlacedEntry<'_>,
    name: &str,
) -> Result<(), AllocError> {
    let rule = name_rule(collector.alloc, name);
    entry.report(collector, BAD_NAME, entry.value_place("name"), rule)
}

/// Reports that an earlier entry of the same list has the same name. `line` is the line of the
/// earlier entry's name.
fn duplicate_name(
    collector: &mut FaultCollector,
    entry: &PlacedEntry<'_>,
    line: usize,
) -> Result<(), AllocError> {
    let list = list_of(entry.part);
    let words = format!(in collector.alloc; "line {line} has a {list} with this name");
    entry.report(collector, DOUBLE_NAME, entry.value_place("name"), words)
}

/// Returns the message for a malformed name. The message states the rule for names. If
/// [`well_formed_name`] turns `name` into a valid name, the message ends with this valid name.
pub(crate) fn name_rule(alloc: Global, name: &str) -> Result<String, AllocError> {
    let similar = well_formed_name(alloc, name)?;
    let rule =
        "a name has 1 to 32 characters: a lower-case letter, then lower-case letters, digits or _";
    if is_valid_name(&similar) {
        format!(in alloc; "{rule}, as {similar}")
    } else {
        String::from_str(alloc, rule)
    }
}

/// Returns the name in lowercase, with `_` in place of each character that a name cannot have. The
/// result can still be malformed, because its length and its first character are not checked.
fn well_formed_name(alloc: Global, name: &str) -> Result<String, AllocError> {
    let mut similar = String::new(alloc);
    for letter in name.chars() {
        let small = letter.to_ascii_lowercase();
        let is_valid = small.is_ascii_lowercase() || small.is_ascii_digit();
        similar.push(if is_valid { small } else { '_' })?;
    }
    Ok(similar)
}
