//! The checks of names and numbers: each name must be valid and unique in its list, each number
//! must be in range, and the pool of each class must exist.

ghost use Rattle.std.specs.Prelude.{◌≡◌, ◌++◌, ◌∷◌, [], OnOk, length};
ghost use Rattle.support.specs.Results.{Gives};
ghost use Rattle.job_bodies.specs.Checks as checks;
ghost use Rattle.plan_text.specs.Checks as spec;

use crate::entries::{ClassEntry, ClientEntry};
use crate::fault::TextError;
use crate::names::Names;
use job_bodies::{MAX_SIZE, Part, PlanFault, Pool, is_valid_name, is_within};
use std::alloc::Global;
use support::ReadError;
use support::number::{BAD_NAME, BAD_NUMBER, DOUBLE_NAME, NO_SUCH_POOL};

/// Adds a name to `names`, which has the names of the earlier entries. The name is that of the
/// entry at `index` in the list for `part`. Returns a fault if the name is not valid, or if it is
/// already in `names`.
fn check_name<'a>(
    names: &mut Names<'a>,
    part: Part,
    index: usize,
    name: &'a str,
) -> Result<(), TextError>
    ensures check { Gives (λ _. tt) result (checks.check_name names.old part index name.now) }
    ensures names { OnOk result (names.new ≡ names.old ++ name.now ∷ []) }
{
    if !is_valid_name(name) {
        return Err(ReadError::Fault(PlanFault::at_entry(part, index, BAD_NAME)));
    }
    if !names.add(name)? {
        return Err(ReadError::Fault(PlanFault::at_entry(part, index, DOUBLE_NAME)));
    }
    Ok(())
}

fn check_pool<'a>(names: &mut Names<'a>, index: usize, pool: &'a Pool) -> Result<(), TextError>
    ensures check { Gives (λ _. tt) result (checks.check_pool names.old index pool.now) }
    ensures names { OnOk result (names.new ≡ names.old ++ pool.now.name ∷ []) }
{
    check_name(names, Part::Pool, index, &pool.name)?;
    if !pool.has_valid_sizes() {
        return Err(ReadError::Fault(PlanFault::at_entry(Part::Pool, index, BAD_NUMBER)));
    }
    Ok(())
}

fn check_class<'a>(
    pools: &Names<'a>,
    names: &mut Names<'a>,
    index: usize,
    class: &ClassEntry<'a>,
) -> Result<(), TextError>
    ensures check { Gives (λ _. tt) result
        (checks.check_class (length pools.now) names.old index
        (spec.class_head pools.now class.now)) }
    ensures names { OnOk result (names.new ≡ names.old ++ class.now.name ∷ []) }
{
    check_name(names, Part::Class, index, class.name)?;
    if pools.place(class.pool).is_none() {
        return Err(ReadError::Fault(PlanFault::at_entry(Part::Class, index, NO_SUCH_POOL)));
    }
    Ok(())
}

fn check_client<'a>(
    names: &mut Names<'a>,
    index: usize,
    client: &ClientEntry<'a>,
) -> Result<(), TextError>
    ensures check { Gives (λ _. tt) result
        (checks.check_client names.old index (spec.client_head client.now)) }
    ensures names { OnOk result (names.new ≡ names.old ++ client.now.name ∷ []) }
{
    check_name(names, Part::Client, index, client.name)?;
    if !is_within(1, MAX_SIZE, client.count) {
        return Err(ReadError::Fault(PlanFault::at_entry(Part::Client, index, BAD_NUMBER)));
    }
    Ok(())
}

/// Returns the names of the pools, in order. All names must be valid and distinct, and all sizes
/// must be valid. Otherwise returns the first fault.
#[tactic(auto, unfolding(crate::specs::Checks::check_pools))]
pub fn check_pools<'a>(alloc: Global, pools: &'a [Pool]) -> Result<Names<'a>, TextError>
    ensures { Gives (λ names. names) result (spec.check_pools pools.now) }
{
    let mut names = Names::new(alloc);
    for (index, pool) in pools.iter().enumerate() {
        check_pool(&mut names, index, pool)?;
    }
    Ok(names)
}

/// Returns the names of the classes, in order. All names must be valid and distinct, and the pool
/// of each class must be one of `pools`. Otherwise returns the first fault.
#[tactic(auto, unfolding(crate::specs::Checks::check_classes))]
pub fn check_classes<'a>(
    alloc: Global,
    pools: &Names<'a>,
    classes: &[ClassEntry<'a>],
) -> Result<Names<'a>, TextError>
    ensures { Gives (λ names. names) result (spec.check_classes pools.now classes.now) }
{
    let mut names = Names::new(alloc);
    for (index, class) in classes.iter().enumerate() {
        check_class(pools, &mut names, index, class)?;
    }
    Ok(names)
}

/// Checks the client kinds: all names must be valid and distinct, and all counts must be valid.
/// Returns the first fault, if there is one.
#[tactic(auto, unfolding(crate::specs::Checks::check_clients))]
pub fn check_clients(alloc: Global, clients: &[ClientEntry]) -> Result<(), TextError>
    ensures { Gives (λ _. tt) result (spec.check_clients clients.now) }
{
    let mut names = Names::new(alloc);
    for (index, client) in clients.iter().enumerate() {
        check_client(&mut names, index, client)?;
    }
    Ok(())
}
