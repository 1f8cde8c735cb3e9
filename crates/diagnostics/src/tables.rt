//! The checks of a plan's document: its keys at the top level, its lists, and their entries.

use crate::collector::FaultCollector;
use crate::entry::{PlacedEntry, list_of, report_at};
use crate::entry_list::EntryList;
use crate::hints::article;
use crate::{bodies, names, numbers, shapes};
use job_bodies::{Part, PlanFault};
use plan_text::Places;
use std::alloc::AllocError;
use support::number::{NO_SUCH_POOL, WRONG_TYPE};
use toml::{Table, Value};

/// The lists of a plan.
#[derive(Drop)]
struct Lists<'a> {
    pools: EntryList<'a>,
    classes: EntryList<'a>,
    clients: EntryList<'a>,
}

/// Reports the faults of a plan's text, which the TOML parser has turned into `document`.
pub(crate) fn document(
    collector: &mut FaultCollector,
    document: &Table,
    places: &Places<'_>,
) -> Result<(), AllocError> {
    let plan = PlacedEntry {
        part: Part::Text,
        index: 0,
        table: document,
        places,
    };
    let is_complete = !shapes::unknown_keys(collector, &plan)?;
    let mut lists = Lists {
        pools: EntryList::new(collector.alloc, Part::Pool, is_complete),
        classes: EntryList::new(collector.alloc, Part::Class, is_complete),
        clients: EntryList::new(collector.alloc, Part::Client, is_complete),
    };
    check_lists(collector, &mut lists, &plan)
}

/// Adds the entries of the plan to the three lists, and reports the faults in the lists.
fn check_lists<'a>(
    collector: &mut FaultCollector,
    lists: &mut Lists<'a>,
    plan: &PlacedEntry<'a>,
) -> Result<(), AllocError> {
    push_list(collector, &mut lists.pools, plan)?;
    push_list(collector, &mut lists.classes, plan)?;
    push_list(collector, &mut lists.clients, plan)?;
    numbers_and_pools(collector, lists)?;
    all_bodies(collector, lists)
}

/// Reports invalid sizes and counts, and classes whose pool does not exist.
fn numbers_and_pools(collector: &mut FaultCollector, lists: &Lists<'_>) -> Result<(), AllocError> {
    let pools = &lists.pools;
    numbers_or_pools(collector, &pools.entries, pools)?;
    numbers_or_pools(collector, &lists.classes.entries, pools)?;
    numbers_or_pools(collector, &lists.clients.entries, pools)
}

fn numbers_or_pools(
    collector: &mut FaultCollector,
    entries: &[PlacedEntry<'_>],
    pools: &EntryList<'_>,
) -> Result<(), AllocError> {
    for entry in entries {
        number_or_pool(collector, entry, pools)?;
    }
    Ok(())
}

/// Reports the invalid sizes of a pool, a class whose pool does not exist, or the invalid count of a
/// client kind. `pools` has the plan's pools.
fn number_or_pool(
    collector: &mut FaultCollector,
    entry: &PlacedEntry<'_>,
    pools: &EntryList<'_>,
) -> Result<(), AllocError> {
    match entry.part {
        Part::Pool => numbers::sizes(collector, entry),
        Part::Class => pool_of(collector, entry, pools),
        Part::Client => numbers::count(collector, entry),
        Part::Text => Ok(()),
    }
}

/// Reports the faults of the bodies of classes and client kinds.
fn all_bodies(collector: &mut FaultCollector, lists: &Lists<'_>) -> Result<(), AllocError> {
    bodies_of(collector, &lists.classes.entries, &lists.classes)?;
    bodies_of(collector, &lists.clients.entries, &lists.classes)
}

fn bodies_of(
    collector: &mut FaultCollector,
    entries: &[PlacedEntry<'_>],
    classes: &EntryList<'_>,
) -> Result<(), AllocError> {
    for entry in entries {
        bodies::body(collector, entry, classes)?;
    }
    Ok(())
}

/// Adds those entries of the plan's list that are tables. Reports
///
/// - a list that is not an array,
/// - entries that are not tables, and
/// - the faults in the keys and names of the tables.
fn push_list<'a>(
    collector: &mut FaultCollector,
    list: &mut EntryList<'a>,
    plan: &PlacedEntry<'a>,
) -> Result<(), AllocError> {
    let Some(value) = plan.value(list_of(list.part)) else {
        return Ok(());
    };
    match value.as_array() {
        Some(values) => push_values(collector, list, values, plan.places),
        None => {
            list.is_complete = false;
            no_list(collector, list.part, plan.places)
        }
    }
}

fn push_values<'a>(
    collector: &mut FaultCollector,
    list: &mut EntryList<'a>,
    values: &'a [Value],
    places: &'a Places<'a>,
) -> Result<(), AllocError> {
    for (index, value) in values.iter().enumerate() {
        push_value(collector, list, index, value, places)?;
    }
    Ok(())
}

/// Adds the value to the list if it is a table. Otherwise reports it.
fn push_value<'a>(
    collector: &mut FaultCollector,
    list: &mut EntryList<'a>,
    index: usize,
    value: &'a Value,
    places: &'a Places<'a>,
) -> Result<(), AllocError> {
    let part = list.part;
    match value.as_table() {
        Some(table) => {
            let entry = PlacedEntry {
                part,
                index,
                table,
                places,
            };
            push_entry(collector, list, &entry)
        }
        None => {
            list.is_complete = false;
            no_table(collector, part, index, value.type_str(), places)
        }
    }
}

/// Reports the faults in the keys and the name of the entry, and adds the entry to the list.
fn push_entry<'a>(
    collector: &mut FaultCollector,
    list: &mut EntryList<'a>,
    entry: &PlacedEntry<'a>,
) -> Result<(), AllocError> {
    shapes::unknown_keys(collector, entry)?;
    shapes::values(collector, entry)?;
    names::name(collector, entry, &list.entries)?;
    list.push(*entry)
}

/// Reports that the value at the key of this list is not an array.
fn no_list(
    collector: &mut FaultCollector,
    part: Part,
    places: &Places<'_>,
) -> Result<(), AllocError> {
    let list = list_of(part);
    let what = format!(in collector.alloc;
        "write [[{list}]] with two brackets: {list} is an array of tables"
    );
    let fault = PlanFault::at_text(WRONG_TYPE);
    report_at(collector, fault, list, places, what)
}

/// Reports an entry that is not a table. `found` is the type of its value.
fn no_table(
    collector: &mut FaultCollector,
    part: Part,
    index: usize,
    found: &str,
    places: &Places<'_>,
) -> Result<(), AllocError> {
    let list = list_of(part);
    let an = article(found);
    let what = format!(in collector.alloc;
        "{list} must be a table, not {an} {found}: write [[{list}]]"
    );
    let fault = PlanFault::at_entry(part, index, WRONG_TYPE);
    report_at(collector, fault, list, places, what)
}

/// Reports the class if its pool does not exist. `pools` has the names of the plan's pools.
fn pool_of(
    collector: &mut FaultCollector,
    class: &PlacedEntry<'_>,
    pools: &EntryList<'_>,
) -> Result<(), AllocError> {
    let Some(pool) = class.text("pool") else {
        return Ok(());
    };
    if pools.contains(pool) {
        return Ok(());
    }
    let words = pools.unknown(collector.alloc, pool);
    class.report(collector, NO_SUCH_POOL, class.value_place("pool"), words)
}
