//! A set of pool names.

ghost use Rattle.std.specs.Prelude.{◌≡◌, ◌||◌, ℕ, List, OnOk, false};
ghost use Rattle.std.specs.Str.{bytes_eq};
ghost use Rattle.conformance.specs.PoolComparison.{has_name};

use std::alloc::{AllocError, Global};
use std::collections::HashSet;

/// A set of pool names.
#[derive(Drop)]
pub(crate) struct PoolNames {
    names: HashSet<String>,
    alloc: Global,
}

impl PoolNames {
    /// Creates an empty set.
    pub(crate) fn new(alloc: Global) -> PoolNames
        ensures { (q : List ℕ) → has_name result q ≡ false }
    {
        PoolNames {
            names: HashSet::new(alloc),
            alloc,
        }
    }

    pub(crate) fn contains(&self, name: &str) -> bool
        ensures { result ≡ has_name self.now name.now }
    {
        self.names.contains(name)
    }

    /// Adds a name.
    ///
    /// # Errors
    ///
    /// Returns `AllocError` if memory runs out.
    pub(crate) fn insert(&mut self, name: &str) -> Result<(), AllocError>
        ensures { OnOk result
            ((q : List ℕ) → has_name self.new q ≡ (has_name self.old q || bytes_eq name.now q)) }
    {
        if !self.names.contains(name) {
            let name = String::from_str(self.alloc, name)?;
            self.names.insert(name)?;
        }
        Ok(())
    }
}
