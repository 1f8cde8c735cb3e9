//! The table of slots of an [`IdMap`](crate::IdMap).

ghost use Rattle.std.specs.Prelude.{◌≡◌, ◌<◌, ◌+◌, ◌&&◌, ◌||◌, ℕ, nat_lt, nat_eq, true, false, IsTrue, OnOk, vec_len, length, slice_set, Some, []};
ghost use Rattle.std.specs.List.{IsDistinct};
ghost use Rattle.std.specs.Set.{is_member};
ghost use Rattle.support.specs.Entry.{has_number, is_free_for, entry_at, taken, AreFree, HasSameEntries};
ghost use Rattle.support.specs.Numbered.{place_of, AreInPlace};

use crate::entry::{Entry, has_number, is_free_for};
use std::alloc::AllocError;

// The number of slots. A power of two, so that the slot of a number needs no division.
const TABLE_LEN: usize = 256;

/// Returns the index of the slot for `number`: only there does the table of an `IdMap` store it.
#[inline(always)]
pub(crate) fn place_of(number: usize) -> usize
    ensures { result ≡ place_of number }
{
    number % TABLE_LEN
}

/// Returns whether the slot for `number` has an entry for `number`.
#[inline(always)]
pub(crate) fn is_in_slot<V>(slots: &Vec<Option<Entry<V>>>, number: usize) -> bool
    ensures in_slot { result ≡ has_number number (entry_at slots.now.items (place_of number)) }
    ensures inside { IsTrue result → place_of number < vec_len slots.now }
{
    let place = place_of(number);
    place < slots.len() && has_number(&slots[place], number)
}

/// Returns whether the slot for `number` is free or has an entry for `number`. Returns `false` if
/// there are no slots yet.
#[inline(always)]
pub(crate) fn can_store<V>(slots: &Vec<Option<Entry<V>>>, number: usize) -> bool
    ensures { result
        ≡ (nat_lt (place_of number) (length slots.now.items) && is_free_for number
        (entry_at slots.now.items (place_of number))) }
{
    let place = place_of(number);
    place < slots.len() && is_free_for(&slots[place], number)
}

/// Stores an entry with this number and value in the slot for `number`. Replaces the entry that was
/// there, if any.
#[inline(always)]
pub(crate) fn store<V: Drop>(slots: &mut Vec<Option<Entry<V>>>, number: usize, value: V)
    requires { place_of number < vec_len slots.old }
    ensures { slots.new.items
        ≡ slice_set slots.old.items (place_of number)
        (Some (record { number = number; value = value })) }
{
    slots[place_of(number)] = Some(Entry { number, value });
}

/// Allocates the table of slots if it is empty.
///
/// # Errors
///
/// Returns `AllocError` if memory runs out.
#[inline(always)]
pub(crate) fn allocate<V: Drop>(slots: &mut Vec<Option<Entry<V>>>) -> Result<(), AllocError>
    ensures { HasSameEntries slots.old.items slots.new.items }
{
    if !slots.is_empty() {
        return Ok(());
    }
    allocate_slots(slots, TABLE_LEN)
}

// Allocates `len` free slots. The table must be empty.
#[cold]
#[inline(never)]
fn allocate_slots<V: Drop>(slots: &mut Vec<Option<Entry<V>>>, len: usize) -> Result<(), AllocError>
    requires { slots.old.items ≡ [] }
    ensures { AreFree slots.new.items }
{
    slots.reserve(len)?;
    for _ in 0..len {
        slots.push(None)?;
    }
    Ok(())
}

/// Appends the numbers of all entries in the slots to the list. The list must not contain any of
/// these numbers yet.
///
/// # Errors
///
/// Returns `AllocError` if memory runs out.
pub(crate) fn push_numbers<V>(
    slots: &Vec<Option<Entry<V>>>,
    numbers: &mut Vec<usize>,
) -> Result<(), AllocError>
    requires in_place { AreInPlace slots.now.items }
    requires overflow { (n : ℕ)
        → has_number n (entry_at slots.now.items (place_of n)) ≡ true
        → is_member nat_eq numbers.old.items n ≡ false }
    requires once { IsDistinct nat_eq numbers.old.items }
    ensures all { OnOk result
        ((n : ℕ)
        → is_member nat_eq numbers.new.items n
        ≡ (is_member nat_eq numbers.old.items n || has_number n
        (entry_at slots.now.items (place_of n)))) }
    ensures once { OnOk result (IsDistinct nat_eq numbers.new.items) }
    ensures len { OnOk result
        (length numbers.new.items ≡ length numbers.old.items + taken slots.now.items) }
{
    for slot in slots {
        if let Some(entry) = slot {
            numbers.push(entry.number)?;
        }
    }
    Ok(())
}
