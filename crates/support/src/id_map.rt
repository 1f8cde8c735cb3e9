//! A map from numbers to values.

ghost use Rattle.std.specs.Prelude.{◌≡◌, ◌+◌, ℕ, None, Some, OnOk, OnErr, IfOk, length, nat_eq, if◌then◌else◌, ◌==◌, is_some, []};
ghost use Rattle.std.specs.Option.{option_copied, option_copied_mut};
ghost use Rattle.std.specs.List.Sorted.{IsNonDecreasing, IsStrictlyIncreasing};
ghost use Rattle.std.specs.Set.{is_member};
ghost use Rattle.std.specs.Borrow.{sem};

use crate::entry::{Entry, take_value, value_in};
use crate::overflow::OverflowMap;
use crate::places::{allocate, can_store, is_in_slot, place_of, push_numbers, store};
use std::alloc::{AllocError, Global};
use std::marker::Model;

/// A map from numbers to values. It is fast if few numbers have values at the same time and most of
/// these numbers are close to each other. Most look-ups then index a table and compute no hash.
///
/// Each slot of the table has at most one entry: a number and its value. The index of a number's
/// slot is the number modulo the length of the table. If another number already occupies the slot,
/// an insertion stores the value in a second map, the overflow map. A look-up checks the slot
/// first.
#[derive(Drop)]
pub struct IdMap<V> {
    // The table of slots. Empty until the first insertion.
    slots: Vec<Option<Entry<V>>>,
    // The values of the numbers whose slot was occupied when they were inserted. No number is both
    // here and in its slot.
    overflow: OverflowMap<V>,
}

impl<V> Model for IdMap<V> {
    ghost use Rattle.support.specs.Numbered.{Numbered, numbered_code, IsTable};

    ghost Value = { Numbered V };

    ghost coded = { numbered_code V.code };

    ghost view = { λ t. record { slots = t.slots.items; overflow = t.overflow } };

    ghost invariant = { λ t. IsTable t.slots.items t.overflow };
}

impl<V> IdMap<V> {
    ghost use Rattle.support.specs.Numbered.{value_at, count_of};
    ghost use Rattle.support.specs.MutValue.{returns_mut_value};

    /// Creates an empty map.
    #[tactic(auto, unfolding(crate::specs::Numbered::value_at, crate::specs::Numbered::count_of))]
    pub fn new(alloc: Global) -> IdMap<V>
        ensures values { (n : ℕ) → value_at result n ≡ None }
        ensures count { count_of result ≡ 0 }
    {
        IdMap {
            slots: Vec::new(alloc),
            overflow: OverflowMap::new(alloc),
        }
    }

    /// Returns the value stored for the key `number`, or `None` if there is none.
    #[inline(always)]
    #[tactic(auto, unfolding(crate::specs::Numbered::value_at))]
    pub fn get(&self, number: usize) -> Option<&V>
        ensures { option_copied result ≡ value_at self.now number }
    {
        let place = place_of(number);
        if place < self.slots.len()
            && let Some(entry) = &self.slots[place]
            && entry.number == number
        {
            return Some(&entry.value);
        }
        if self.overflow.is_empty() {
            return None;
        }
        self.overflow.get(number)
    }

    /// Returns whether a value is stored for the key `number`.
    #[inline(always)]
    pub fn contains(&self, number: usize) -> bool
        ensures { result ≡ is_some (value_at self.now number) }
    {
        self.get(number).is_some()
    }

    /// Returns a mutable reference to the value stored for the key `number`, or `None` if there is
    /// none.
    #[inline(always)]
    pub fn get_mut(&mut self, number: usize) -> Option<&mut V>
        ensures* writes_back { sem 𝓛 (returns_mut_value V.row self.entry number result) }
        ensures value { option_copied_mut result ≡ value_at self.old number }
    {
        if is_in_slot(&self.slots, number) {
            return value_in(&mut self.slots[place_of(number)]);
        }
        self.overflow.get_mut(number)
    }

    /// Stores `value` for the key `number`. Replaces the earlier value of this key, if there is
    /// one.
    ///
    /// # Errors
    ///
    /// Returns `AllocError` if memory runs out. The map is then unchanged.
    #[inline(always)]
    #[tactic(auto, unfolding(crate::specs::Numbered::value_at, crate::specs::Numbered::count_of))]
    pub fn insert(&mut self, number: usize, value: V) -> Result<(), AllocError>
    where
        V: Drop,
        ensures values { OnOk result
            ((n : ℕ)
            → value_at self.new n ≡ (if number == n then Some value else value_at self.old n)) }
        ensures count { OnOk result
            (count_of self.new
            ≡ count_of self.old + (if is_some (value_at self.old number) then 0 else 1)) }
        ensures same_values { OnErr result ((n : ℕ) → value_at self.new n ≡ value_at self.old n) }
        ensures same_count { OnErr result (count_of self.new ≡ count_of self.old) }
    {
        allocate(&mut self.slots)?;
        if can_store(&self.slots, number) {
            self.overflow.forget(number);
            store(&mut self.slots, number, value);
        } else {
            self.overflow.insert(number, value)?;
        }
        Ok(())
    }

    /// Removes the value stored for the key `number`, and returns this value. Returns `None` if
    /// there was no value for the key.
    #[inline(always)]
    #[tactic(auto, unfolding(crate::specs::Numbered::value_at, crate::specs::Numbered::count_of))]
    pub fn remove(&mut self, number: usize) -> Option<V>
        ensures value { result ≡ value_at self.old number }
        ensures values { (n : ℕ)
            → value_at self.new n ≡ (if number == n then None else value_at self.old n) }
        ensures count { count_of self.new + (if is_some result then 1 else 0) ≡ count_of self.old }
    {
        if is_in_slot(&self.slots, number) {
            return take_value(&mut self.slots[place_of(number)]);
        }
        if self.overflow.is_empty() {
            return None;
        }
        self.overflow.remove(number)
    }

    /// Returns the numbers that have a value, in ascending order.
    ///
    /// # Errors
    ///
    /// Returns `AllocError` if memory runs out.
    pub fn numbers(&self, alloc: Global) -> Result<Vec<usize>, AllocError>
        ensures all { IfOk result (λ numbers.
            (n : ℕ) → is_member nat_eq numbers.items n ≡ is_some (value_at self.now n)) }
        ensures ascending { IfOk result (λ numbers. IsStrictlyIncreasing numbers.items) }
        ensures sorted { IfOk result (λ numbers. IsNonDecreasing numbers.items) }
        ensures count { IfOk result (λ numbers. length numbers.items ≡ count_of self.now) }
    {
        let mut numbers = self.overflow.numbers(alloc)?;
        push_numbers(&self.slots, &mut numbers)?;
        numbers.sort_unstable();
        Ok(numbers)
    }
}
