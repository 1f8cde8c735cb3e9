//! The copying of plans, pools, classes and client kinds.

ghost use Rattle.std.specs.Prelude.{◌≡◌, IfOk};

use crate::{Class, Client, Plan, Pool};
use std::alloc::{AllocError, Global};

impl Pool {
    /// Returns a copy of the pool.
    ///
    /// # Errors
    ///
    /// Returns [`AllocError`] if memory runs out.
    pub fn try_clone(&self, alloc: Global) -> Result<Pool, AllocError>
        ensures { IfOk result (λ copy. copy ≡ self.now) }
    {
        Ok(Pool {
            name: String::from_str(alloc, &self.name)?,
            core: self.core,
            max: self.max,
            queue: self.queue,
            prestart: self.prestart,
            may_reject: self.may_reject,
            unbounded: self.unbounded,
            core_timeout: self.core_timeout,
        })
    }
}

impl Class {
    fn try_clone(&self, alloc: Global) -> Result<Class, AllocError>
        ensures { IfOk result (λ copy. copy ≡ self.now) }
    {
        Ok(Class {
            name: String::from_str(alloc, &self.name)?,
            pool: self.pool,
            body: Vec::from_slice(alloc, &self.body)?,
        })
    }
}

impl Client {
    fn try_clone(&self, alloc: Global) -> Result<Client, AllocError>
        ensures { IfOk result (λ copy. copy ≡ self.now) }
    {
        Ok(Client {
            name: String::from_str(alloc, &self.name)?,
            count: self.count,
            repeat: self.repeat,
            body: Vec::from_slice(alloc, &self.body)?,
        })
    }
}

impl Plan {
    /// Returns a copy of the plan.
    ///
    /// # Errors
    ///
    /// Returns [`AllocError`] if memory runs out.
    pub fn try_clone(&self, alloc: Global) -> Result<Plan, AllocError>
        ensures { IfOk result (λ copy. copy ≡ self.now) }
    {
        let pools = try_clone_pools(alloc, self.pools())?;
        let classes = try_clone_classes(alloc, self.classes())?;
        let clients = try_clone_clients(alloc, self.clients())?;
        Ok(Plan::of_well_formed(pools, classes, clients))
    }
}

fn try_clone_pools(alloc: Global, pools: &[Pool]) -> Result<Vec<Pool>, AllocError>
    ensures { IfOk result (λ copies. copies.items ≡ pools.now) }
{
    let mut copies = Vec::with_capacity(alloc, pools.len())?;
    for pool in pools {
        copies.push(pool.try_clone(alloc)?)?;
    }
    Ok(copies)
}

fn try_clone_classes(alloc: Global, classes: &[Class]) -> Result<Vec<Class>, AllocError>
    ensures { IfOk result (λ copies. copies.items ≡ classes.now) }
{
    let mut copies = Vec::with_capacity(alloc, classes.len())?;
    for class in classes {
        copies.push(class.try_clone(alloc)?)?;
    }
    Ok(copies)
}

fn try_clone_clients(alloc: Global, clients: &[Client]) -> Result<Vec<Client>, AllocError>
    ensures { IfOk result (λ copies. copies.items ≡ clients.now) }
{
    let mut copies = Vec::with_capacity(alloc, clients.len())?;
    for client in clients {
        copies.push(client.try_clone(alloc)?)?;
    }
    Ok(copies)
}
