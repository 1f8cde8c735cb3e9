//! The table of one entry (a pool, a class or a client kind), and the functions that read its
//! values and check their types.

ghost use Rattle.std.specs.Prelude.{◌≡◌, map};
ghost use Rattle.toml.specs.View.{view};
ghost use Rattle.support.specs.Reading as each;
ghost use Rattle.support.specs.Results.{Gives};
ghost use Rattle.plan_text.specs.Entry as spec;
ghost use Rattle.plan_text.specs.Entry.{entry_view};

use crate::document::{has_only, list_in, value_at};
use crate::fault::TextError;
use job_bodies::{MAX_ACTIONS, MAX_SIZE, Part, PlanFault};
use std::alloc::Global;
use support::number::{MISSING_KEY, TOO_MANY, UNKNOWN_KEY, WRONG_TYPE};
use support::{ReadError, read_each};
use toml::{Table, Value};

/// The table of one entry. The entry is at `index` in the list for `part`: the pools, the classes
/// or the client kinds.
#[derive(Drop)]
pub struct Entry<'a> {
    table: &'a Table,
    part: Part,
    index: usize,
}

/// Converts an integer of the text to an unsigned number. A negative integer becomes
/// `MAX_SIZE + 1`, which is out of range for every key of a plan.
fn count_of(number: i64) -> u64
    ensures { result ≡ spec.count_of number }
{
    if number < 0 {
        MAX_SIZE + 1
    } else {
        number as u64
    }
}

impl<'a> Entry<'a> {
    /// Creates the entry whose table is `value`. The entry is at `index` in the list for `part`,
    /// such as the list of pools. In these cases, returns a fault that names this entry:
    ///
    /// - The value is not a table.
    /// - The table has a key that is not one of `keys`.
    #[tactic(auto, unfolding(crate::specs::Entry::entry_of))]
    pub fn of(
        value: &'a Value,
        part: Part,
        index: usize,
        keys: &[&str],
    ) -> Result<Entry<'a>, TextError>
        ensures { Gives entry_view result
            (spec.entry_of part index (map (λ key. key.now) keys.now) (view value.now)) }
    {
        let Some(table) = value.as_table() else {
            return Err(ReadError::Fault(PlanFault::at_entry(part, index, WRONG_TYPE)));
        };
        if !has_only(table, keys) {
            return Err(ReadError::Fault(PlanFault::at_entry(part, index, UNKNOWN_KEY)));
        }
        Ok(Entry { table, part, index })
    }

    fn refuses(&self, number: u8) -> TextError
        ensures { result ≡ ReadError.Fault (spec.fault_at (entry_view self.now) number) }
    {
        ReadError::Fault(PlanFault::at_entry(self.part, self.index, number))
    }

    fn value(&self, key: &str) -> Result<&'a Value, TextError>
        ensures { Gives (λ value. view value.now) result
            (spec.value_at (entry_view self.now) key.now) }
    {
        value_at(self.table, key).ok_or(self.refuses(MISSING_KEY))
    }

    /// Returns the string at this key. Returns a fault if the key is absent or the value is not a
    /// string.
    #[tactic(auto, unfolding(crate::specs::Entry::text_at))]
    pub fn text(&self, key: &str) -> Result<&'a str, TextError>
        ensures { Gives (λ text. text.now) result (spec.text_at (entry_view self.now) key.now) }
    {
        let value = self.value(key)?;
        value.as_str().ok_or(self.refuses(WRONG_TYPE))
    }

    /// Returns the integer at this key. For a negative integer, returns a number that is out of
    /// range for every key. Returns a fault if the key is absent or the value is not an integer.
    #[tactic(auto, unfolding(crate::specs::Entry::number_at))]
    pub fn number(&self, key: &str) -> Result<u64, TextError>
        ensures { Gives (λ number. number) result (spec.number_at (entry_view self.now) key.now) }
    {
        let value = self.value(key)?;
        let number = value.as_integer().ok_or(self.refuses(WRONG_TYPE))?;
        Ok(count_of(number))
    }

    /// Returns the size at this key: `Some` of the integer, or `None` for the string `unbounded`.
    /// For a negative integer, returns a number that is out of range for every key. Returns a fault
    /// if the key is absent, or if the value is neither an integer nor this string.
    #[tactic(auto, unfolding(crate::specs::Entry::size_at))]
    pub fn size(&self, key: &str) -> Result<Option<u64>, TextError>
        ensures { Gives (λ size. size) result (spec.size_at (entry_view self.now) key.now) }
    {
        let value = self.value(key)?;
        if let Some(number) = value.as_integer() {
            return Ok(Some(count_of(number)));
        }
        match value.as_str() {
            Some("unbounded") => Ok(None),
            _ => Err(self.refuses(WRONG_TYPE)),
        }
    }

    /// Returns the boolean at this key, or `false` if the key is absent. Returns a fault if the
    /// value is not a boolean.
    #[tactic(auto, unfolding(crate::specs::Entry::flag_at))]
    pub fn flag(&self, key: &str) -> Result<bool, TextError>
        ensures { Gives (λ flag. flag) result (spec.flag_at (entry_view self.now) key.now) }
    {
        let Some(value) = value_at(self.table, key) else {
            return Ok(false);
        };
        value.as_bool().ok_or(self.refuses(WRONG_TYPE))
    }

    /// Returns the strings in the array at this key. Returns a fault in these cases:
    ///
    /// - The key is absent, or the value is not an array.
    /// - The array has more elements than a body may have actions.
    /// - An element is not a string.
    #[tactic(auto, unfolding(crate::specs::Entry::texts_at))]
    pub fn texts(&self, alloc: Global, key: &str) -> Result<Vec<&'a str>, TextError>
        ensures { Gives (λ texts. map (λ text. text.now) texts.items) result
            (spec.texts_at (entry_view self.now) key.now) }
    {
        let value = self.value(key)?;
        let Some(values) = list_in(value) else {
            return Err(self.refuses(WRONG_TYPE));
        };
        if values.len() > MAX_ACTIONS {
            return Err(self.refuses(TOO_MANY));
        }
        action_texts(alloc, self.part, self.index, values)
    }
}

fn action_text(part: Part, index: usize, action: usize, value: &Value) -> Result<&str, TextError>
    ensures { Gives (λ text. text.now) result
        (spec.action_text part index action (view value.now)) }
{
    value.as_str().ok_or_else(|| ReadError::Fault(PlanFault::at_action(
        part, index, action, WRONG_TYPE,
    )))
}

fn action_texts(
    alloc: Global,
    part: Part,
    index: usize,
    values: &[Value],
) -> Result<Vec<&str>, TextError>
    ensures { Gives (λ texts. map (λ text. text.now) texts.items) result
        (each.read_each (spec.action_text part index) 0 (map view values.now)) }
{
    read_each(
        alloc,
        values,
        |action, value| action_text(part, index, action, value),
    )
}
