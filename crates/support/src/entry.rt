//! A slot of an [`IdMap`](crate::IdMap).

ghost use Rattle.std.specs.Prelude.{◌≡◌, None};
ghost use Rattle.std.specs.Option.{option_copied_mut};
ghost use Rattle.std.specs.Borrow.{sem};
ghost use Rattle.support.specs.Entry.{has_number, is_free_for, value_in};
ghost use Rattle.support.specs.MutEntry.{returns_mut_value_in};

/// An entry of an [`IdMap`](crate::IdMap): a number, which is the key, and its value.
#[derive(Drop)]
pub(crate) struct Entry<V> {
    pub(crate) number: usize,
    pub(crate) value: V,
}

/// Returns whether the slot has an entry for the key `number`.
#[inline(always)]
pub(crate) fn has_number<V>(slot: &Option<Entry<V>>, number: usize) -> bool
    ensures { result ≡ has_number number slot.now }
{
    match slot {
        Some(entry) => entry.number == number,
        None => false,
    }
}

/// Returns whether the slot is free or has an entry for the key `number`.
#[inline(always)]
pub(crate) fn is_free_for<V>(slot: &Option<Entry<V>>, number: usize) -> bool
    ensures { result ≡ is_free_for number slot.now }
{
    match slot {
        Some(entry) => entry.number == number,
        None => true,
    }
}

/// Returns a mutable reference to the value in the slot, or `None` if the slot is free.
#[inline(always)]
pub(crate) fn value_in<V>(slot: &mut Option<Entry<V>>) -> Option<&mut V>
    ensures* writes_back { sem 𝓛 (returns_mut_value_in V.row slot.entry result) }
    ensures value { option_copied_mut result ≡ value_in slot.old }
{
    match slot {
        Some(entry) => Some(&mut entry.value),
        None => None,
    }
}

/// Frees the slot and returns the value that was in it, or `None` if the slot was free.
#[inline(always)]
pub(crate) fn take_value<V>(slot: &mut Option<Entry<V>>) -> Option<V>
    ensures value { result ≡ value_in slot.old }
    ensures free { slot.new ≡ None }
{
    match slot.take() {
        Some(Entry { number: _, value }) => Some(value),
        None => None,
    }
}
