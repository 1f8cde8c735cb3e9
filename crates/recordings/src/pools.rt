//! The names of the pools of a recording.

ghost use Rattle.std.specs.Prelude.{◌≡◌, ◌||◌, ℕ, List, OnOk, OnErr, false};
ghost use Rattle.std.specs.Str.{bytes_eq};
ghost use Rattle.std.specs.HashSet.{contains_text};
ghost use Rattle.std.specs.Option.{option_copied};
ghost use Rattle.recordings.specs.PoolNames.{number_of, is_name};
ghost use Rattle.recordings.specs.Pools.{has_name};

use std::alloc::{AllocError, Global};
use std::collections::HashSet;
use support::IdMap;

/// The names of the pools that have a `pool` line.
///
/// A look-up computes a cheap hash, from the first and the last byte of the name. If several names
/// have the same hash, `firsts` has the name that was added first, and `others` has the other
/// names.
#[derive(Drop)]
pub(crate) struct Pools {
    firsts: IdMap<String>,
    others: HashSet<String>,
    alloc: Global,
}

impl Pools {
    /// Creates an empty set of names.
    pub(crate) fn new(alloc: Global) -> Pools
        ensures { (q : List ℕ) → has_name result q ≡ false }
    {
        Pools {
            firsts: IdMap::new(alloc),
            others: HashSet::new(alloc),
            alloc,
        }
    }

    #[inline(never)]
    pub(crate) fn contains(&self, name: &str) -> bool
        ensures { result ≡ has_name self.now name.now }
    {
        is_name(self.firsts.get(number_of(name)), name) || contains_other(&self.others, name)
    }

    /// Adds the name of a pool.
    ///
    /// # Errors
    ///
    /// Returns `AllocError` if memory runs out. The names are then unchanged.
    pub(crate) fn insert(&mut self, name: &str) -> Result<(), AllocError>
        ensures added { OnOk result
            ((q : List ℕ) → has_name self.new q ≡ (has_name self.old q || bytes_eq name.now q)) }
        ensures same { OnErr result ((q : List ℕ) → has_name self.new q ≡ has_name self.old q) }
    {
        let kept = String::from_str(self.alloc, name)?;
        let number = number_of(name);
        if self.firsts.contains(number) {
            self.others.insert(kept)?;
        } else {
            self.firsts.insert(number, kept)?;
        }
        Ok(())
    }
}

// Returns whether the set has this name. The function is not inlined, since it is rarely called.
#[inline(never)]
fn contains_other(others: &HashSet<String>, name: &str) -> bool
    ensures { result ≡ contains_text others.now name.now }
{
    others.contains(name)
}

// Returns whether `kept` is a name that equals `name`.
fn is_name(kept: Option<&String>, name: &str) -> bool
    ensures { result ≡ is_name name.now (option_copied kept.entry) }
{
    match kept {
        Some(kept) => kept.as_str() == name,
        None => false,
    }
}

// Computes the hash of a name, from its first and last byte. Few names have the same hash.
fn number_of(name: &str) -> usize
    ensures { result ≡ number_of name.now }
{
    let bytes = name.as_bytes();
    match bytes.len() {
        0 => 0,
        len => bytes[0] as usize + 8 * bytes[len - 1] as usize,
    }
}
