//! A map from submit calls to job numbers. A submit call consists of the number of an actor and the
//! position of a submit in the actor's body.

ghost use Rattle.std.specs.Prelude.{◌≡◌, ◌≤◌, ◌<◌, ℕ, Option, [], None, Some, OnOk, if◌then◌else◌};
ghost use Rattle.std.specs.HashMap.{spare};
ghost use Rattle.std.specs.Map.{lookup};
ghost use Rattle.interleaving.specs.SubmitMap.{same_pair, place_of, entry_at, is_for, number_or, number_at};

use std::alloc::{AllocError, Global};
use std::collections::HashMap;
use std::marker::Model;

/// A submit call: the number of an actor, and the position of a submit in the actor's body.
pub(crate) type SubmitKey = (usize, usize);

// The length of the table. It is a power of two, so that the index of a call needs no division.
const TABLE_LEN: usize = 4096;

/// A map from submit calls to job numbers. A submit call consists of the number of an actor and the
/// position of a submit in the actor's body.
///
/// Each call has an index in the vector `table`: the actor's number modulo `TABLE_LEN`. If the
/// entry at this index already belongs to another call, the call is stored in the map `others`
/// instead. A look-up reads `table` first.
#[derive(Drop)]
pub(crate) struct SubmitMap {
    // The table. It has no entries before `reserve` is called for the first time.
    table: Vec<Option<(SubmitKey, usize)>>,
    others: HashMap<SubmitKey, usize>,
}

impl Model for SubmitMap {
    ghost use Rattle.std.specs.HashMap.{spare};
    ghost use Rattle.interleaving.specs.SubmitMap.{SubmitMapView};

    ghost Value = { SubmitMapView };

    ghost view = { λ c. record { table = c.table.items; others = c.others.entries; room = spare c.others } };
}

impl SubmitMap {
    /// Creates an empty map.
    pub(crate) fn new(alloc: Global) -> SubmitMap
        ensures { (q : ℕ × ℕ) → number_at result q ≡ None }
    {
        SubmitMap {
            table: Vec::new(alloc),
            others: HashMap::new(alloc),
        }
    }

    /// Returns the job number that the map has for this call, or `None` if the map does not contain
    /// the call.
    #[inline(always)]
    pub(crate) fn get(&self, call: SubmitKey) -> Option<usize>
        ensures { result ≡ number_at self.now call }
    {
        let place = call.0 % TABLE_LEN;
        if place < self.table.len()
            && let Some((kept, number)) = self.table[place]
            && kept == call
        {
            return Some(number);
        }
        if self.others.is_empty() {
            return None;
        }
        get_other(&self.others, call)
    }

    /// Reserves memory for one more call, which [`set`](SubmitMap::set) then records.
    ///
    /// # Errors
    ///
    /// Returns `AllocError` if there is not enough memory.
    #[inline(always)]
    pub(crate) fn reserve(&mut self) -> Result<(), AllocError>
        ensures numbers { (q : ℕ × ℕ) → number_at self.new q ≡ number_at self.old q }
        ensures room { OnOk result (0 < self.new.room) }
    {
        if self.table.is_empty() {
            allocate_table(&mut self.table, TABLE_LEN)?;
        }
        self.others.reserve(1)
    }

    /// Records the number of the job that the call created. Replaces the earlier number of this
    /// call, if there is one. [`reserve`](SubmitMap::reserve) must have reserved memory.
    #[inline(always)]
    pub(crate) fn set(&mut self, call: SubmitKey, number: usize)
        requires { 0 < self.old.room }
        ensures { (q : ℕ × ℕ)
            → number_at self.new q
            ≡ (if same_pair call q then Some number else number_at self.old q) }
    {
        let place = call.0 % TABLE_LEN;
        if place < self.table.len() && is_for(&self.table[place], call) {
            self.table[place] = Some((call, number));
        } else {
            set_other(&mut self.others, call, number);
        }
    }

    /// Removes the call, if the map contains it.
    #[inline(always)]
    pub(crate) fn remove(&mut self, call: SubmitKey)
        ensures numbers { (q : ℕ × ℕ)
            → number_at self.new q ≡ (if same_pair call q then None else number_at self.old q) }
        ensures room { self.old.room ≤ self.new.room }
    {
        remove_from_table(&mut self.table, call);
        if !self.others.is_empty() {
            remove_other(&mut self.others, call);
        }
    }
}

// Returns `true` if this entry of the table is free or belongs to the call.
#[inline(always)]
fn is_for(entry: &Option<(SubmitKey, usize)>, call: SubmitKey) -> bool
    ensures { result ≡ is_for call entry.now }
{
    match entry {
        Some((kept, _)) => *kept == call,
        None => true,
    }
}

// Frees the entry of the table at the call's index, unless it belongs to another call.
#[inline(always)]
fn remove_from_table(table: &mut Vec<Option<(SubmitKey, usize)>>, call: SubmitKey)
    ensures { (q : ℕ × ℕ) (other : Option ℕ)
        → number_or q (entry_at table.new.items (place_of q)) other
        ≡ (if same_pair call q then other else number_or q (entry_at table.old.items (place_of q))
        other) }
{
    let place = call.0 % TABLE_LEN;
    if place < table.len() && is_for(&table[place], call) {
        table[place] = None;
    }
}

// Allocates `len` free entries for the empty table.
#[cold]
#[inline(never)]
fn allocate_table(table: &mut Vec<Option<(SubmitKey, usize)>>, len: usize) -> Result<(), AllocError>
    requires { table.old.items ≡ [] }
    ensures { (p : ℕ) → entry_at table.new.items p ≡ entry_at table.old.items p }
{
    table.resize(len, None)
}

// Returns the number of the job that the call created, if `others` contains the call. Not inlined,
// since such look-ups are rare. The caller checks that `others` is not empty, since even a look-up
// in an empty map computes a hash.
#[inline(never)]
fn get_other(others: &HashMap<SubmitKey, usize>, call: SubmitKey) -> Option<usize>
    ensures { result ≡ lookup (same_pair call) others.now.entries }
{
    others.get(&call).copied()
}

// Records the number of the job that the call created, in `others`. Memory must have been reserved.
#[inline(never)]
fn set_other(others: &mut HashMap<SubmitKey, usize>, call: SubmitKey, number: usize)
    requires { 0 < spare others.old }
    ensures { (q : ℕ × ℕ)
        → lookup (same_pair q) others.new.entries
        ≡ (if same_pair call q then Some number else lookup (same_pair q) others.old.entries) }
{
    if others.insert(call, number).is_err() {
        return;
    }
}

#[inline(never)]
fn remove_other(others: &mut HashMap<SubmitKey, usize>, call: SubmitKey)
    ensures numbers { (q : ℕ × ℕ)
        → lookup (same_pair q) others.new.entries
        ≡ (if same_pair call q then None else lookup (same_pair q) others.old.entries) }
    ensures spare { spare others.old ≤ spare others.new }
{
    others.remove(&call);
}
