//! The shape of the entries in the text of a plan: each required key must be present, no key may be
//! unknown, each value must have the type that its key requires, and a body must not be too long.

ghost use Rattle.std.specs.Prelude.{◌≡◌, map};
ghost use Rattle.toml.specs.View.{view, table_view};
ghost use Rattle.support.specs.Reading as each;
ghost use Rattle.support.specs.Results.{Gives};
ghost use Rattle.plan_text.specs.Entries as spec;
ghost use Rattle.plan_text.specs.Entry.{entry_view};

use crate::document::list_at;
use crate::entry::Entry;
use crate::fault::TextError;
use crate::sizes::sizes_of;
use job_bodies::{MAX_CLASSES, MAX_CLIENT_KINDS, MAX_POOLS, Part, Pool};
use std::alloc::Global;
use std::marker::Model;
use support::read_each;
use toml::{Table, Value};

/// A class before its body is parsed. Its pool is still a name, and its actions are still texts.
#[derive(Drop)]
pub struct ClassEntry<'a> {
    pub name: &'a str,
    pub pool: &'a str,
    pub body: Vec<&'a str>,
}

impl<'a> Model for ClassEntry<'a> {
    ghost Value = { spec.ClassEntry };

    ghost view = { λ k. record { name = k.name.now; pool = k.pool.now; body = map (λ text. text.now) k.body.items } };
}

/// A client kind before its body is parsed. Its actions are still texts.
#[derive(Drop)]
pub struct ClientEntry<'a> {
    pub name: &'a str,
    pub count: u64,
    pub repeat: bool,
    pub body: Vec<&'a str>,
}

impl<'a> Model for ClientEntry<'a> {
    ghost Value = { spec.ClientEntry };

    ghost view = { λ c. record { name = c.name.now; count = c.count; repeat = c.repeat; body = map (λ text. text.now) c.body.items } };
}

/// The entries of a document, in the order of the text.
#[derive(Drop)]
pub struct Entries<'a> {
    pub pools: Vec<Pool>,
    pub classes: Vec<ClassEntry<'a>>,
    pub clients: Vec<ClientEntry<'a>>,
}

impl<'a> Model for Entries<'a> {
    ghost Value = { spec.Entries };

    ghost view = { λ e. record { pools = e.pools.items; classes = e.classes.items; clients = e.clients.items } };
}

#[tactic(auto, unfolding(crate::specs::Entries::read_pool))]
fn read_pool(alloc: Global, index: usize, value: &Value) -> Result<Pool, TextError>
    ensures { Gives (λ pool. pool) result (spec.read_pool index (view value.now)) }
{
    let keys = [
        "name",
        "core",
        "max",
        "queue",
        "prestart",
        "core_timeout",
        "may_reject",
    ];
    let entry = Entry::of(value, Part::Pool, index, &keys)?;
    let name = entry.text("name")?;
    let numbers = numbers_of(&entry)?;
    let flags = flags_of(&entry)?;
    let sizes = sizes_of(numbers.core, flags.core_timeout, numbers.max, numbers.queue);
    Ok(Pool {
        name: String::from_str(alloc, name)?,
        core: numbers.core,
        max: sizes.max,
        queue: sizes.queue,
        prestart: flags.prestart,
        may_reject: flags.may_reject,
        unbounded: sizes.unbounded,
        core_timeout: flags.core_timeout,
    })
}

/// The numbers of a pool as the text gives them. A size is `None` if it is `unbounded` in the text.
#[derive(Clone, Copy)]
struct PoolNumbers {
    core: u64,
    max: Option<u64>,
    queue: Option<u64>,
}

/// Reads the numbers of a pool. Returns a fault for the first one that is missing or has the wrong
/// type.
fn numbers_of(entry: &Entry<'_>) -> Result<PoolNumbers, TextError>
    ensures { Gives (λ numbers. numbers) result (spec.numbers_of (entry_view entry.now)) }
{
    let core = entry.number("core")?;
    let max = entry.size("max")?;
    let queue = entry.size("queue")?;
    Ok(PoolNumbers { core, max, queue })
}

/// The flags of a pool.
#[derive(Clone, Copy)]
struct PoolFlags {
    prestart: bool,
    core_timeout: bool,
    may_reject: bool,
}

/// Reads the flags of a pool. A flag that is missing is `false`. Returns a fault for the first one
/// that is not a boolean.
fn flags_of(entry: &Entry<'_>) -> Result<PoolFlags, TextError>
    ensures { Gives (λ flags. flags) result (spec.flags_of (entry_view entry.now)) }
{
    let prestart = entry.flag("prestart")?;
    let core_timeout = entry.flag("core_timeout")?;
    let may_reject = entry.flag("may_reject")?;
    Ok(PoolFlags {
        prestart,
        core_timeout,
        may_reject,
    })
}

#[tactic(auto, unfolding(crate::specs::Entries::read_class))]
fn read_class(alloc: Global, index: usize, value: &Value) -> Result<ClassEntry<'_>, TextError>
    ensures { Gives (λ class. class) result (spec.read_class index (view value.now)) }
{
    let keys = ["name", "pool", "body"];
    let entry = Entry::of(value, Part::Class, index, &keys)?;
    class_in(alloc, &entry)
}

/// Reads the values of a class.
fn class_in<'a>(alloc: Global, entry: &Entry<'a>) -> Result<ClassEntry<'a>, TextError>
    ensures { Gives (λ class. class) result (spec.class_in (entry_view entry.now)) }
{
    let name = entry.text("name")?;
    let pool = entry.text("pool")?;
    let body = entry.texts(alloc, "body")?;
    Ok(ClassEntry { name, pool, body })
}

#[tactic(auto, unfolding(crate::specs::Entries::read_client))]
fn read_client(alloc: Global, index: usize, value: &Value) -> Result<ClientEntry<'_>, TextError>
    ensures { Gives (λ client. client) result (spec.read_client index (view value.now)) }
{
    let keys = ["name", "count", "repeat", "body"];
    let entry = Entry::of(value, Part::Client, index, &keys)?;
    client_in(alloc, &entry)
}

/// Reads the values of a client kind.
fn client_in<'a>(alloc: Global, entry: &Entry<'a>) -> Result<ClientEntry<'a>, TextError>
    ensures { Gives (λ client. client) result (spec.client_in (entry_view entry.now)) }
{
    let name = entry.text("name")?;
    let count = entry.number("count")?;
    let repeat = entry.flag("repeat")?;
    let body = entry.texts(alloc, "body")?;
    Ok(ClientEntry {
        name,
        count,
        repeat,
        body,
    })
}

fn pools_of(alloc: Global, values: &[Value]) -> Result<Vec<Pool>, TextError>
    ensures { Gives (λ pools. pools.items) result
        (each.read_each spec.read_pool 0 (map view values.now)) }
{
    read_each(alloc, values, |index, value| read_pool(alloc, index, value))
}

fn class_entries_of(alloc: Global, values: &[Value]) -> Result<Vec<ClassEntry<'_>>, TextError>
    ensures { Gives (λ classes. classes.items) result
        (each.read_each spec.read_class 0 (map view values.now)) }
{
    read_each(
        alloc,
        values,
        |index, value| read_class(alloc, index, value),
    )
}

fn client_entries_of(alloc: Global, values: &[Value]) -> Result<Vec<ClientEntry<'_>>, TextError>
    ensures { Gives (λ clients. clients.items) result
        (each.read_each spec.read_client 0 (map view values.now)) }
{
    read_each(
        alloc,
        values,
        |index, value| read_client(alloc, index, value),
    )
}

/// Reads the entries of a document. First checks the length of each of the three lists, and then
/// the shape of each entry. Returns the first fault that these checks find.
#[tactic(auto, unfolding(crate::specs::Entries::entries_of))]
pub fn entries_of(alloc: Global, document: &Table) -> Result<Entries<'_>, TextError>
    ensures { Gives (λ entries. entries) result (spec.entries_of (table_view document.now)) }
{
    let pools = list_at(document, "pool", MAX_POOLS)?;
    let classes = list_at(document, "class", MAX_CLASSES)?;
    let clients = list_at(document, "client", MAX_CLIENT_KINDS)?;
    let pools = pools_of(alloc, pools)?;
    let classes = class_entries_of(alloc, classes)?;
    let clients = client_entries_of(alloc, clients)?;
    Ok(Entries {
        pools,
        classes,
        clients,
    })
}
