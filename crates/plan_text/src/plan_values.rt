//! Building of the TOML document of a plan.

ghost use Rattle.std.specs.Prelude.{◌≡◌, ◌≤◌, true, false, map, codes, IfOk, OnOk};
ghost use Rattle.toml.specs.Data.{string};
ghost use Rattle.toml.specs.View.{view, table_view};
ghost use Rattle.job_bodies.specs.declared.limits.TheConstants.{MAX_SIZE};
ghost use Rattle.job_bodies.specs.Plan.{pool_names};
ghost use Rattle.job_bodies.specs.WellFormed.{has_no_max, is_valid_pool, is_within, IsWellFormed};
ghost use Rattle.plan_text.specs.Spelling.{name_at, body_texts};
ghost use Rattle.plan_text.specs.PlanDocument as spec;

use crate::spelling::body_value;
use job_bodies::{Action, Class, Client, Plan, Pool};
use std::alloc::{AllocError, Global};
use toml::{Table, Value};

/// Stores the value at the key. Replaces the earlier value of the key, if there is one.
fn insert_value(alloc: Global, table: &mut Table, key: &str, value: Value) -> Result<(), AllocError>
    ensures { OnOk result
        (table_view table.new ≡ spec.with_member key.now (view value) (table_view table.old)) }
{
    let key = String::from_str(alloc, key)?;
    let _before = table.insert(key, value)?;
    Ok(())
}

/// Stores `true` at the key if `flag` is true. Otherwise does nothing.
fn insert_flag(alloc: Global, table: &mut Table, key: &str, flag: bool) -> Result<(), AllocError>
    ensures { OnOk result
        (table_view table.new ≡ spec.with_flag key.now flag (table_view table.old)) }
{
    if flag {
        insert_value(alloc, table, key, Value::Boolean(true))?;
    }
    Ok(())
}

fn number_value(number: u64) -> Value
    requires { number ≤ MAX_SIZE }
    ensures { view result ≡ spec.number_data number }
{
    Value::Integer(number as i64)
}

/// Returns a size as a TOML value: the string `unbounded` if `unbounded` is true, and otherwise the
/// integer `number`.
fn size_value(alloc: Global, unbounded: bool, number: u64) -> Result<Value, AllocError>
    requires { unbounded ≡ false → number ≤ MAX_SIZE }
    ensures { IfOk result (λ value. view value ≡ spec.size_data unbounded number) }
{
    if unbounded {
        Value::string(alloc, "unbounded")
    } else {
        Ok(number_value(number))
    }
}

/// Stores a size at the key: the string `unbounded` if `unbounded` is true, and otherwise the
/// integer `number`.
fn insert_size(
    alloc: Global,
    table: &mut Table,
    key: &str,
    unbounded: bool,
    number: u64,
) -> Result<(), AllocError>
    requires { unbounded ≡ false → number ≤ MAX_SIZE }
    ensures { OnOk result
        (table_view table.new
        ≡ spec.with_member key.now (spec.size_data unbounded number) (table_view table.old)) }
{
    let value = size_value(alloc, unbounded, number)?;
    insert_value(alloc, table, key, value)
}

/// Stores the string at the key.
fn insert_text(alloc: Global, table: &mut Table, key: &str, text: &str) -> Result<(), AllocError>
    ensures { OnOk result
        (table_view table.new ≡ spec.with_member key.now (string text.now) (table_view table.old)) }
{
    let value = Value::string(alloc, text)?;
    insert_value(alloc, table, key, value)
}

/// Stores a body at the key `body`, as an array with a text for each action.
fn insert_body(
    alloc: Global,
    table: &mut Table,
    classes: &[Class],
    body: &[Action],
) -> Result<(), AllocError>
    ensures { OnOk result
        (table_view table.new
        ≡ spec.with_member (codes "body")
        (spec.texts_data (body_texts (map (λ class. class.name) classes.now) body.now))
        (table_view table.old)) }
{
    let value = body_value(alloc, classes, body)?;
    insert_value(alloc, table, "body", value)
}

/// Stores the core size, the maximum and the capacity of the queue of a pool.
fn insert_sizes(alloc: Global, table: &mut Table, pool: &Pool) -> Result<(), AllocError>
    requires { is_valid_pool pool.now ≡ true }
    ensures { OnOk result
        (table_view table.new
        ≡ spec.with_member (codes "queue") (spec.size_data pool.now.unbounded pool.now.queue)
        (spec.with_member (codes "max") (spec.size_data (has_no_max pool.now) pool.now.max)
        (spec.with_member (codes "core") (spec.number_data pool.now.core) (table_view table.old)))) }
{
    insert_value(alloc, table, "core", number_value(pool.core))?;
    insert_size(alloc, table, "max", pool.has_no_max(), pool.max)?;
    insert_size(alloc, table, "queue", pool.unbounded, pool.queue)
}

/// Stores those flags of a pool that are true.
fn insert_flags(alloc: Global, table: &mut Table, pool: &Pool) -> Result<(), AllocError>
    ensures { OnOk result
        (table_view table.new
        ≡ spec.with_flag (codes "may_reject") pool.now.may_reject
        (spec.with_flag (codes "core_timeout") pool.now.core_timeout
        (spec.with_flag (codes "prestart") pool.now.prestart (table_view table.old)))) }
{
    insert_flag(alloc, table, "prestart", pool.prestart)?;
    insert_flag(alloc, table, "core_timeout", pool.core_timeout)?;
    insert_flag(alloc, table, "may_reject", pool.may_reject)
}

fn pool_value(alloc: Global, pool: &Pool) -> Result<Value, AllocError>
    requires { is_valid_pool pool.now ≡ true }
    ensures { IfOk result (λ value. view value ≡ spec.pool_data pool.now) }
{
    let mut table = Table::new(alloc);
    insert_sizes(alloc, &mut table, pool)?;
    insert_text(alloc, &mut table, "name", pool.name.as_str())?;
    insert_flags(alloc, &mut table, pool)?;
    Ok(Value::Table(table))
}

fn pool_name(pools: &[Pool], place: usize) -> &str
    ensures { result.now ≡ name_at (map (λ pool. pool.name) pools.now) place }
{
    match pools.get(place) {
        Some(pool) => pool.name.as_str(),
        None => "",
    }
}

fn class_value(
    alloc: Global,
    pools: &[Pool],
    classes: &[Class],
    class: &Class,
) -> Result<Value, AllocError>
    ensures { IfOk result (λ value.
        view value
        ≡ spec.class_data (map (λ pool. pool.name) pools.now)
        (map (λ class. class.name) classes.now) class.now) }
{
    let mut table = Table::new(alloc);
    insert_body(alloc, &mut table, classes, &class.body)?;
    insert_text(alloc, &mut table, "name", class.name.as_str())?;
    insert_text(alloc, &mut table, "pool", pool_name(pools, class.pool))?;
    Ok(Value::Table(table))
}

fn client_value(alloc: Global, classes: &[Class], client: &Client) -> Result<Value, AllocError>
    requires { is_within 1 MAX_SIZE client.now.count ≡ true }
    ensures { IfOk result (λ value.
        view value ≡ spec.client_data (map (λ class. class.name) classes.now) client.now) }
{
    let mut table = Table::new(alloc);
    insert_body(alloc, &mut table, classes, &client.body)?;
    insert_value(alloc, &mut table, "count", number_value(client.count))?;
    insert_text(alloc, &mut table, "name", client.name.as_str())?;
    insert_value(alloc, &mut table, "repeat", Value::Boolean(client.repeat))?;
    Ok(Value::Table(table))
}

fn pool_values(alloc: Global, plan: &Plan) -> Result<Value, AllocError>
    ensures { IfOk result
        (λ value. view value ≡ spec.list_data (map spec.pool_data plan.now.pools)) }
{
    let mut values = Vec::new(alloc);
    for pool in plan.pools() {
        values.push(pool_value(alloc, pool)?)?;
    }
    Ok(Value::Array(values))
}

fn class_values(alloc: Global, plan: &Plan) -> Result<Value, AllocError>
    ensures well_formed { IsWellFormed plan.now }
    ensures value { IfOk result (λ value.
        view value
        ≡ spec.list_data
        (map (spec.class_data (pool_names plan.now) (map (λ class. class.name) plan.now.classes))
        plan.now.classes)) }
{
    let pools = plan.pools();
    let classes = plan.classes();
    let mut values = Vec::new(alloc);
    for class in classes {
        values.push(class_value(alloc, pools, classes, class)?)?;
    }
    Ok(Value::Array(values))
}

fn client_values(alloc: Global, plan: &Plan) -> Result<Value, AllocError>
    ensures { IfOk result (λ value.
        view value
        ≡ spec.list_data
        (map (spec.client_data (map (λ class. class.name) plan.now.classes)) plan.now.clients)) }
{
    let classes = plan.classes();
    let mut values = Vec::new(alloc);
    for client in plan.clients() {
        values.push(client_value(alloc, classes, client)?)?;
    }
    Ok(Value::Array(values))
}

/// Builds the TOML document of a plan.
#[tactic(auto, unfolding(crate::specs::PlanDocument::plan_document))]
pub fn plan_document(alloc: Global, plan: &Plan) -> Result<Table, AllocError>
    ensures well_formed { IsWellFormed plan.now }
    ensures document { IfOk result (λ document. table_view document ≡ spec.plan_document plan.now) }
{
    let mut document = Table::new(alloc);
    insert_value(alloc, &mut document, "class", class_values(alloc, plan)?)?;
    insert_value(alloc, &mut document, "client", client_values(alloc, plan)?)?;
    insert_value(alloc, &mut document, "pool", pool_values(alloc, plan)?)?;
    Ok(document)
}
