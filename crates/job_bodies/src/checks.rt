//! The checks of one entry of a plan: a pool, a class or a client kind. Each check returns a fault
//! if the entry does not pass it.

ghost use Rattle.std.specs.Prelude.{◌≡◌, ◌<◌, ◌++◌, ◌∷◌, [], List, length, map, take, slice_index_or};
ghost use Rattle.job_bodies.specs.declared.action.Action.{Action};
ghost use Rattle.job_bodies.specs.declared.action.Action.TheVariants.{Work};
ghost use Rattle.job_bodies.specs.Plan.{no_pool, no_class, no_client, has_get_of};
ghost use Rattle.job_bodies.specs.WellFormed.{is_valid_get};
ghost use Rattle.job_bodies.specs.GetTable.{IsTableOf};
ghost use Rattle.job_bodies.specs.Checks.{check_pool, check_class, check_client, check_length, check_action, check_body};

use crate::fault::ensure;
use crate::limits::{MAX_ACTIONS, MAX_SIZE, MAX_WORK, is_within};
use crate::names::check_name;
use crate::{Action, Class, Client, Part, PlanFault, Pool, has_get_of};
use support::number::{BAD_NUMBER, NO_SUCH_CLASS, NO_SUCH_POOL, SLOT_EMPTY, TOO_MANY};

/// Checks the pool at this index. Its name must be valid, no earlier pool may have the same name,
/// and its sizes must be valid.
pub(crate) fn check_pool(pools: &[Pool], index: usize) -> Result<(), PlanFault>
    requires { index < length pools.now }
    ensures { let names = map (λ pool. pool.name) pools.now in
        result ≡ check_pool (take index names) index (slice_index_or pools.now index no_pool) }
{
    let pool = &pools[index];
    check_name(pools, Part::Pool, index, &pool.name)?;
    let valid = pool.has_valid_sizes();
    ensure(valid, PlanFault::at_entry(Part::Pool, index, BAD_NUMBER))
}

/// Checks the class at this index. Its name must be valid, and no earlier class may have the same
/// name. The index of its pool must be below `pools`, the number of the plan's pools.
pub(crate) fn check_class(pools: usize, classes: &[Class], index: usize) -> Result<(), PlanFault>
    requires { index < length classes.now }
    ensures { let names = map (λ class. class.name) classes.now in
        result ≡ check_class pools (take index names) index (slice_index_or classes.now index no_class) }
{
    let class = &classes[index];
    check_name(classes, Part::Class, index, &class.name)?;
    let found = class.pool < pools;
    ensure(found, PlanFault::at_entry(Part::Class, index, NO_SUCH_POOL))
}

/// Checks the client kind at this index. Its name must be valid, no earlier client kind may have
/// the same name, and its count must be valid.
pub(crate) fn check_client(clients: &[Client], index: usize) -> Result<(), PlanFault>
    requires { index < length clients.now }
    ensures { let names = map (λ client. client.name) clients.now in
        result ≡ check_client (take index names) index (slice_index_or clients.now index no_client) }
{
    let client = &clients[index];
    check_name(clients, Part::Client, index, &client.name)?;
    let valid = is_within(1, MAX_SIZE, client.count);
    ensure(valid, PlanFault::at_entry(Part::Client, index, BAD_NUMBER))
}

/// Checks that the body has at most [`MAX_ACTIONS`] actions. The body belongs to the entry at
/// `index` in the list for `part`. A fault names this entry.
pub(crate) fn check_length(part: Part, index: usize, body: &[Action]) -> Result<(), PlanFault>
    ensures { result ≡ check_length part index body.now }
{
    let short = body.len() <= MAX_ACTIONS;
    ensure(short, PlanFault::at_entry(part, index, TOO_MANY))
}

/// Returns true if at least one of these actions is a get of the submit at position `submit`.
///
/// `got` must be the table of these actions: `got[p]` is true if one of the actions is a get of the
/// submit at position `p`.
fn has_get_in_table(actions: &[Action], got: &[bool; MAX_ACTIONS], submit: usize) -> bool
    requires { IsTableOf actions.now got.now }
    ensures { result ≡ has_get_of actions.now submit }
{
    match got.get(submit) {
        Some(got) => *got,
        None => has_get_of(actions, submit),
    }
}

/// Adds an action to the table `got`. If the action is a get of the submit at position `p`, sets
/// `got[p]` to true.
fn add_to_table(got: &mut [bool; MAX_ACTIONS], action: Action)
    ensures { (actions : List Action)
        → IsTableOf actions got.old
        → IsTableOf (actions ++ action ∷ []) got.new }
{
    if let Action::Get(submit) = action {
        if submit < MAX_ACTIONS {
            got[submit] = true;
        }
    }
}

/// Returns true if a get is valid. The get is at `position` of the body, and it names the position
/// `submit`. It is valid if these conditions hold:
///
/// - The position `submit` is before `position`.
/// - There is a submit at this earlier position.
/// - No action before `position` is a get of the same submit.
///
/// `got` is the table of the actions before `position`.
fn is_valid_get(body: &[Action], got: &[bool; MAX_ACTIONS], position: usize, submit: usize) -> bool
    requires position { position < length body.now }
    requires table { IsTableOf (take position body.now) got.now }
    ensures { result ≡ is_valid_get body.now position submit }
{
    submit < position
        && matches!(body[submit], Action::Submit(_))
        && !has_get_in_table(&body[..position], got, submit)
}

/// Checks the action at `position` of the body.
///
/// - `classes` is the number of the plan's classes.
/// - `got` is the table of the actions before `position`.
/// - The body belongs to the entry at `index` in the list for `part`. A fault names this entry.
fn check_action(
    classes: usize,
    part: Part,
    index: usize,
    body: &[Action],
    got: &[bool; MAX_ACTIONS],
    position: usize,
) -> Result<(), PlanFault>
    requires position { position < length body.now }
    requires table { IsTableOf (take position body.now) got.now }
    ensures { let action = slice_index_or body.now position (Work 0) in
        result ≡ check_action classes part index body.now position action }
{
    let (valid, number) = match body[position] {
        Action::Work(units) => (is_within(1, MAX_WORK, u64::from(units)), BAD_NUMBER),
        Action::Submit(class) => (class < classes, NO_SUCH_CLASS),
        Action::Get(submit) => (is_valid_get(body, got, position, submit), SLOT_EMPTY),
    };
    ensure(valid, PlanFault::at_action(part, index, position, number))
}

/// Checks each action of the body, in order.
///
/// - `classes` is the number of the plan's classes.
/// - The body belongs to the entry at `index` in the list for `part`. A fault names this entry.
#[tactic(auto, using(crate::proofs::Loops::check_each_turn))]
pub(crate) fn check_body(
    classes: usize,
    part: Part,
    index: usize,
    body: &[Action],
) -> Result<(), PlanFault>
    ensures { result ≡ check_body classes part index body.now }
{
    let mut got = [false; MAX_ACTIONS];
    for position in 0..body.len() {
        check_action(classes, part, index, body, &got, position)?;
        add_to_table(&mut got, body[position]);
    }
    Ok(())
}
