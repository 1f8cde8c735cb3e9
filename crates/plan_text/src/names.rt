//! The names of pools, classes or client kinds, with a search for the index of a name.

ghost use Rattle.std.specs.Prelude.{◌≡◌, ◌++◌, ◌∷◌, [], List, ℕ, map, not, length, if◌then◌else◌, position, IfOk};
ghost use Rattle.std.specs.List.{list_any};
ghost use Rattle.std.specs.Str.{bytes_eq};

use indexmap::IndexSet;
use std::alloc::{AllocError, Global};
use std::marker::Model;

/// A list of distinct names, in the order in which they were added, with a hash table that finds
/// the index of a name.
#[derive(Drop)]
pub struct Names<'a> {
    names: IndexSet<&'a str>,
}

impl<'a> Model for Names<'a> {
    ghost Value = { List (List ℕ) };

    ghost view = { λ n. map (λ name. name.now) n.names.keys };
}

impl<'a> Names<'a> {
    /// Creates an empty list of names.
    pub fn new(alloc: Global) -> Names<'a>
        ensures { result ≡ [] }
    {
        Names {
            names: IndexSet::new(alloc),
        }
    }

    /// Appends the name if the list does not have it. Returns true if the name was appended.
    pub fn add(&mut self, name: &'a str) -> Result<bool, AllocError>
        ensures is_new { IfOk result
            (λ is_new. is_new ≡ not (list_any (bytes_eq name.now) self.old)) }
        ensures names { IfOk result
            (λ is_new. self.new ≡ (if is_new then self.old ++ name.now ∷ [] else self.old)) }
    {
        let is_new = self.names.insert(name)?;
        Ok(is_new)
    }

    /// Returns the index of the name, or `None` if the list does not have the name.
    pub fn place(&self, name: &str) -> Option<usize>
        ensures { result ≡ position (bytes_eq name.now) self.now }
    {
        self.names.get_index_of(name)
    }

    /// Returns the number of names.
    pub fn len(&self) -> usize
        ensures { result ≡ length self.now }
    {
        self.names.len()
    }
}
