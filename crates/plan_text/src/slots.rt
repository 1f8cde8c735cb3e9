//! The filled slots of a body. `submit CLASS as SLOT` fills a slot, and `get SLOT` empties it.

ghost use Rattle.std.specs.Prelude.{◌≡◌, List, [], ℕ, map, None, Some, if◌then◌else◌, OnOk};
ghost use Rattle.std.specs.Str.{bytes_eq};
ghost use Rattle.plan_text.specs.Slots.{position_in};

use indexmap::IndexMap;
use std::alloc::{AllocError, Global};
use std::marker::Model;

/// A map from the name of each filled slot to the position of the submit that filled it.
#[derive(Drop)]
pub struct Slots<'a> {
    positions: IndexMap<&'a str, usize>,
}

impl<'a> Model for Slots<'a> {
    ghost Value = { List (List ℕ × ℕ) };

    ghost view = { λ s. map (λ slot. (slot.0.now, slot.1)) s.positions.entries };
}

impl<'a> Slots<'a> {
    /// Creates a map without filled slots.
    pub fn new(alloc: Global) -> Slots<'a>
        ensures { result ≡ [] }
    {
        Slots {
            positions: IndexMap::new(alloc),
        }
    }

    /// Returns the position of the submit that filled the slot, or `None` if the slot is empty.
    pub fn filled(&self, slot: &str) -> Option<usize>
        ensures { result ≡ position_in self.now slot.now }
    {
        self.positions.get(slot).copied()
    }

    /// Marks the slot as filled by the submit at `position`.
    pub fn set_filled(&mut self, slot: &'a str, position: usize) -> Result<(), AllocError>
        ensures { OnOk result
            ((other : List ℕ)
            → position_in self.new other
            ≡ (if bytes_eq slot.now other then Some position else position_in self.old other)) }
    {
        self.positions.insert(slot, position)?;
        Ok(())
    }

    /// Marks the slot as empty. Does nothing if the slot is already empty.
    pub fn set_empty(&mut self, slot: &str)
        ensures { (other : List ℕ)
            → position_in self.new other
            ≡ (if bytes_eq slot.now other then None else position_in self.old other) }
    {
        let _position = self.positions.swap_remove(slot);
    }
}
