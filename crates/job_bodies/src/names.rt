//! The checks of the names of pools, classes and client kinds: a name must be valid, and unique in
//! its list.

ghost use Rattle.std.specs.Prelude.{◌≡◌, ◌≤◌, ℕ, List, length, map, take};
ghost use Rattle.std.specs.List.{list_all, list_any};
ghost use Rattle.std.specs.Str.{bytes_eq};
ghost use Rattle.job_bodies.specs.WellFormed.{is_letter, is_name_byte, is_valid_name};
ghost use Rattle.job_bodies.specs.Checks.{check_name};

use crate::fault::ensure;
use crate::limits::{MAX_NAME_BYTES, is_within};
use crate::{Class, Client, Part, PlanFault, Pool};
use support::number::{BAD_NAME, DOUBLE_NAME};

fn is_letter(byte: u8) -> bool
    ensures { result ≡ is_letter byte }
{
    byte.is_ascii_lowercase()
}

fn is_name_byte(byte: u8) -> bool
    ensures { result ≡ is_name_byte byte }
{
    is_letter(byte) || byte.is_ascii_digit() || byte == b'_'
}

fn are_name_bytes(bytes: &[u8]) -> bool
    ensures { result ≡ list_all is_name_byte bytes.now }
{
    bytes.iter().all(|byte| is_name_byte(*byte))
}

/// Returns true if the text is a valid name. A valid name has 1 to 32 bytes. The first byte is one
/// of `a` to `z`, and each other byte is one of `a` to `z`, `0` to `9` and `_`.
pub fn is_valid_name(name: &str) -> bool
    ensures { result ≡ is_valid_name name.now }
{
    let bytes = name.as_bytes();
    is_within(1, MAX_NAME_BYTES as u64, bytes.len() as u64)
        && is_letter(bytes[0])
        && are_name_bytes(bytes)
}

/// An entry of a list in which each name must be unique.
pub(crate) trait Named {
    ghost name_of: { Self → List ℕ };

    fn name(&self) -> &str
        ensures { result.now ≡ name_of self.now };
}

impl Named for Pool {
    ghost name_of = { λ pool. pool.name };

    fn name(&self) -> &str {
        self.name.as_str()
    }
}

impl Named for Class {
    ghost name_of = { λ class. class.name };

    fn name(&self) -> &str {
        self.name.as_str()
    }
}

impl Named for Client {
    ghost name_of = { λ client. client.name };

    fn name(&self) -> &str {
        self.name.as_str()
    }
}

fn has_name<T: Named>(entries: &[T], name: &str) -> bool
    ensures { result ≡ list_any (λ entry. bytes_eq name.now (T.name_of entry)) entries.now }
{
    entries.iter().any(|entry| name == entry.name())
}

/// Checks `name`, the name of the entry at `index` in the list for `part`. The name must be valid,
/// and no earlier entry may have the same name.
#[tactic(auto, using(crate::proofs::Loops::list_any_of_names))]
pub(crate) fn check_name<T: Named>(
    entries: &[T],
    part: Part,
    index: usize,
    name: &str,
) -> Result<(), PlanFault>
    requires { index ≤ length entries.now }
    ensures { result ≡ check_name (take index (map T.name_of entries.now)) part index name.now }
{
    let valid = is_valid_name(name);
    ensure(valid, PlanFault::at_entry(part, index, BAD_NAME))?;
    let new = !has_name(&entries[..index], name);
    ensure(new, PlanFault::at_entry(part, index, DOUBLE_NAME))
}
