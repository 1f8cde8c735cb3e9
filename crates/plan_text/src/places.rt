//! The positions of the parts of a plan in its text.

ghost use Rattle.std.specs.Prelude.{◌≡◌, IfOk, IfSome};
ghost use Rattle.plan_text.specs.Places.{start_of, entry_start, key_start, value_start, element_start, top_start, IsPlaceOf, IsNameAt};

use crate::outline::{Part, parts_of};
use crate::part_search::{element_in, entry_in, entry_key_in, start_of, top_in, value_in};
use crate::place::{TextPlace, place_at};
use crate::tokens::tokens_of;
use std::alloc::{AllocError, Global};
use std::marker::Model;

/// An index of the positions of the parts of a plan in its text.
///
/// An index can be built for any text, even if the text is not a plan. The index can lack a part if
/// the text is not TOML, or if an entry does not have the header `[[pool]]`, `[[class]]` or
/// `[[client]]`. The methods return `None` for a part that the index lacks. The caller can then use
/// the position of a larger part: for example, the position of the entry instead of that of a key.
///
/// Contracts see an index as the text that it was built for. They state which byte of this text a
/// method finds, by definitions such as `key_start`.
#[derive(Drop)]
pub struct Places<'a> {
    text: &'a [u8],
    parts: Vec<Part>,
}

impl<'a> Model for Places<'a> {
    ghost use Rattle.std.specs.Prelude.{◌≡◌, List, ℕ};
    ghost use Rattle.plan_text.specs.Outline.{outline_of};

    ghost Value = { List ℕ };

    ghost view = { λ places. places.text.now };

    ghost invariant = { λ places. places.parts.items ≡ outline_of places.text.now };
}

impl<'a> Places<'a> {
    /// Builds the index of a text.
    ///
    /// # Errors
    ///
    /// Returns [`AllocError`] if memory runs out.
    #[tactic(auto, unfolding(crate::specs::Outline::outline_of))]
    pub fn of(alloc: Global, text: &'a [u8]) -> Result<Places<'a>, AllocError>
        ensures { IfOk result (λ places. places ≡ text.now) }
    {
        let tokens = tokens_of(alloc, text)?;
        let parts = parts_of(alloc, &tokens)?;
        Ok(Places { text, parts })
    }

    /// Returns the position of an entry's header, such as `[[pool]]`. The entry is at `index`,
    /// counted from 0, in the list named `list`. Returns `None` if no such header was found.
    #[tactic(auto, unfolding(crate::specs::Places::entry_start))]
    pub fn entry(&self, list: &str, index: usize) -> Option<TextPlace>
        ensures { IsPlaceOf self.now (entry_start self.now list.now index) result }
    {
        let parts = entry_in(self.text, &self.parts, list, index)?;
        place_of(self.text, parts)
    }

    /// Returns the position of a key in an entry. The key is named `key`, and the entry is at
    /// `index` in the list named `list`. Returns `None` if no such key was found.
    #[tactic(auto, unfolding(crate::specs::Places::key_start))]
    pub fn key(&self, list: &str, index: usize, key: &str) -> Option<TextPlace>
        ensures place { IsPlaceOf self.now (key_start self.now list.now index key.now) result }
        ensures named { IfSome result (IsNameAt self.now key.now) }
    {
        let parts = entry_key_in(self.text, &self.parts, list, index, key)?;
        place_of(self.text, parts)
    }

    /// Returns the position of a value in an entry. The key of the value is named `key`, and the
    /// entry is at `index` in the list named `list`. Returns `None` if no such key was found. If
    /// the key has no value, returns the position of the key.
    #[tactic(auto, unfolding(crate::specs::Places::value_start))]
    pub fn value(&self, list: &str, index: usize, key: &str) -> Option<TextPlace>
        ensures { IsPlaceOf self.now (value_start self.now list.now index key.now) result }
    {
        let parts = entry_key_in(self.text, &self.parts, list, index, key)?;
        place_of(self.text, value_in(parts))
    }

    /// Returns the position of an element of an array, such as an action of a body. The array is a
    /// value in an entry. The key of the array is named `key`, and the entry is at `index` in the
    /// list named `list`. `element` is the index of the element, counted from 0. Returns `None` if
    /// no such element was found.
    #[tactic(auto, unfolding(crate::specs::Places::element_start))]
    pub fn element(&self, list: &str, index: usize, key: &str, element: usize) -> Option<TextPlace>
        ensures { IsPlaceOf self.now
            (element_start self.now list.now index key.now element)
            result }
    {
        let parts = entry_key_in(self.text, &self.parts, list, index, key)?;
        place_of(self.text, element_in(parts, element)?)
    }

    /// Returns the position of the header of the first table with this name. If there is no such
    /// table, returns the position of the first key with this name before all headers. Returns
    /// `None` if there is no such key either.
    #[tactic(auto, unfolding(crate::specs::Places::top_start))]
    pub fn top(&self, name: &str) -> Option<TextPlace>
        ensures { IsPlaceOf self.now (top_start self.now name.now) result }
    {
        let parts = top_in(self.text, &self.parts, name)?;
        place_of(self.text, parts)
    }
}

/// Returns the position of the first of the parts, or `None` if there are no parts.
fn place_of(text: &[u8], parts: &[Part]) -> Option<TextPlace>
    ensures { IsPlaceOf text.now (start_of parts.now) result }
{
    Some(place_at(text, start_of(parts)?))
}
