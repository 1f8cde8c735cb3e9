//! The overflow map of an [`IdMap`](crate::IdMap): the entries whose slot was occupied when they
//! were inserted.

ghost use Rattle.std.specs.Prelude.{◌≡◌, ◌+◌, ℕ, None, Some, OnOk, OnErr, IfOk, IsTrue, length, if◌then◌else◌, ◌==◌, nat_eq, is_some, []};
ghost use Rattle.std.specs.Option.{option_copied, option_copied_mut};
ghost use Rattle.std.specs.List.{IsDistinct};
ghost use Rattle.std.specs.Map.{lookup};
ghost use Rattle.std.specs.Set.{is_member};
ghost use Rattle.std.specs.Borrow.{sem};

use std::alloc::{AllocError, Global};
use std::collections::HashMap;
use std::marker::Model;

/// A map from numbers to values, as a part of an [`IdMap`](crate::IdMap). It has the entries whose
/// slot was occupied when they were inserted.
///
/// Look-ups in this map are rare, so the methods that hash a number are not inlined. Most callers
/// first check whether the map is empty, because a look-up in an empty map would still hash the
/// number.
#[derive(Drop)]
pub(crate) struct OverflowMap<V> {
    map: HashMap<usize, V>,
}

impl<V> Model for OverflowMap<V> {
    ghost use Rattle.std.specs.Prelude.{List, ℕ};
    ghost use Rattle.std.specs.Coded.{coded×, coded_ℕ, coded_list};

    ghost Value = { List (ℕ × V) };

    ghost coded = { coded_list (coded× coded_ℕ V.code) };

    ghost view = { λ o. o.map.entries };
}

impl<V> OverflowMap<V> {
    ghost use Rattle.support.specs.MutOverflow.{returns_mut_overflow};

    /// Creates an empty map.
    pub(crate) fn new(alloc: Global) -> OverflowMap<V>
        ensures { result ≡ [] }
    {
        OverflowMap {
            map: HashMap::new(alloc),
        }
    }

    #[inline(always)]
    pub(crate) fn is_empty(&self) -> bool
        ensures { IsTrue result → self.now ≡ [] }
    {
        self.map.is_empty()
    }

    /// Returns the value stored for the key `number`, or `None` if there is none.
    #[inline(never)]
    pub(crate) fn get(&self, number: usize) -> Option<&V>
        ensures { option_copied result ≡ lookup (nat_eq number) self.now }
    {
        self.map.get(&number)
    }

    /// Returns a mutable reference to the value stored for the key `number`, or `None` if there is
    /// none.
    #[inline(never)]
    pub(crate) fn get_mut(&mut self, number: usize) -> Option<&mut V>
        ensures* writes_back { sem 𝓛 (returns_mut_overflow V.row self.entry number result) }
        ensures value { option_copied_mut result ≡ lookup (nat_eq number) self.old }
    {
        self.map.get_mut(&number)
    }

    /// Stores `value` for the key `number`. Replaces the earlier value of this key, if there is
    /// one.
    ///
    /// # Errors
    ///
    /// Returns `AllocError` if memory runs out. The map is then unchanged.
    #[inline(never)]
    pub(crate) fn insert(&mut self, number: usize, value: V) -> Result<(), AllocError>
    where
        V: Drop,
        ensures values { OnOk result
            ((n : ℕ)
            → lookup (nat_eq n) self.new
            ≡ (if number == n then Some value else lookup (nat_eq n) self.old)) }
        ensures len { OnOk result
            (length self.new
            ≡ length self.old + (if is_some (lookup (nat_eq number) self.old) then 0 else 1)) }
        ensures same { OnErr result (self.new ≡ self.old) }
    {
        self.map.insert(number, value)?;
        Ok(())
    }

    /// Removes the value stored for the key `number`, and returns this value. Returns `None` if
    /// there was no value for the key.
    #[inline(never)]
    pub(crate) fn remove(&mut self, number: usize) -> Option<V>
        ensures value { result ≡ lookup (nat_eq number) self.old }
        ensures values { (n : ℕ)
            → lookup (nat_eq n) self.new
            ≡ (if number == n then None else lookup (nat_eq n) self.old) }
        ensures len { length self.new + (if is_some result then 1 else 0) ≡ length self.old }
    {
        self.map.remove(&number)
    }

    /// Removes the value stored for the key `number`, if there is one.
    #[inline(always)]
    pub(crate) fn forget(&mut self, number: usize)
    where
        V: Drop,
        ensures values { (n : ℕ)
            → lookup (nat_eq n) self.new
            ≡ (if number == n then None else lookup (nat_eq n) self.old) }
        ensures len { length self.new + (if is_some (lookup (nat_eq number) self.old) then 1 else 0)
            ≡ length self.old }
    {
        if !self.is_empty() {
            self.remove(number);
        }
    }

    /// Returns the numbers that have a value, each once, in any order.
    ///
    /// # Errors
    ///
    /// Returns `AllocError` if memory runs out.
    pub(crate) fn numbers(&self, alloc: Global) -> Result<Vec<usize>, AllocError>
        ensures all { IfOk result (λ numbers.
            (n : ℕ) → is_member nat_eq numbers.items n ≡ is_some (lookup (nat_eq n) self.now)) }
        ensures once { IfOk result (λ numbers. IsDistinct nat_eq numbers.items) }
        ensures len { IfOk result (λ numbers. length numbers.items ≡ length self.now) }
    {
        self.map.keys().copied().collect(alloc)
    }
}
