//! The parsing of a plan's bytes as a TOML document. It checks the number of bytes, their encoding,
//! and the top-level keys of the document.

ghost use Rattle.std.specs.Prelude.{◌≡◌, map, option_map, string_bytes};
ghost use Rattle.std.specs.BTreeMap.{keys};
ghost use Rattle.std.specs.List.{list_any, list_all};
ghost use Rattle.std.specs.Str.{bytes_eq};
ghost use Rattle.toml.specs.Data.{get_member};
ghost use Rattle.toml.specs.View.{view, table_view};
ghost use Rattle.support.specs.Results.{Gives};
ghost use Rattle.plan_text.specs.Document as spec;

use crate::fault::TextError;
use job_bodies::{MAX_PLAN_BYTES, PlanFault};
use std::alloc::Global;
use support::ReadError;
use support::number::{NOT_TOML, TOO_MANY, UNKNOWN_KEY, WRONG_TYPE};
use toml::{Table, Value};

/// Parses the bytes as a TOML document, and returns the table of the document. Returns a fault in
/// these cases:
///
/// - There are more bytes than a plan may have.
/// - The bytes are not UTF-8 or not TOML.
/// - A top-level key is none of `pool`, `class` and `client`.
#[tactic(auto, unfolding(crate::specs::Document::document_of))]
pub fn document_of(alloc: Global, bytes: &[u8]) -> Result<Table, TextError>
    ensures { Gives table_view result (spec.document_of bytes.now) }
{
    if bytes.len() > MAX_PLAN_BYTES {
        return Err(ReadError::Fault(PlanFault::at_text(TOO_MANY)));
    }
    let text = text_of(bytes)?;
    let document = table_of(alloc, text)?;
    if !has_only(&document, &["pool", "class", "client"]) {
        return Err(ReadError::Fault(PlanFault::at_text(UNKNOWN_KEY)));
    }
    Ok(document)
}

fn text_of(bytes: &[u8]) -> Result<&str, TextError>
    ensures { Gives (λ text. text.now) result (spec.text_of bytes.now) }
{
    match std::str::from_utf8(bytes) {
        Ok(text) => Ok(text),
        Err(_) => Err(ReadError::Fault(PlanFault::at_text(NOT_TOML))),
    }
}

fn table_of(alloc: Global, text: &str) -> Result<Table, TextError>
    ensures { Gives table_view result (spec.table_of text.now) }
{
    toml::table_from_str(alloc, text).map_err(|error| {
        if error.is_memory() {
            ReadError::Memory
        } else {
            ReadError::Fault(PlanFault::at_text(NOT_TOML))
        }
    })
}

/// Returns true if every key of the table is one of `keys`.
pub fn has_only(table: &Table, keys: &[&str]) -> bool
    ensures { result ≡ spec.has_only (map (λ key. key.now) keys.now) (table_view table.now) }
{
    are_among(table, keys)
}

fn are_among(table: &Table, known: &[&str]) -> bool
    ensures { result
        ≡ list_all (λ key. list_any (λ k. bytes_eq k.now (string_bytes key)) known.now)
        (keys table.now) }
{
    table.keys().all(|key| known.contains(&key.as_str()))
}

/// Returns the value at this key, or `None` if the table does not have the key.
pub fn value_at<'a>(table: &'a Table, key: &str) -> Option<&'a Value>
    ensures { option_map (λ value. view value.now) result
        ≡ get_member key.now (table_view table.now) }
{
    table.get(key)
}

/// Returns the elements of the value if it is an array, and `None` otherwise.
pub fn list_in(value: &Value) -> Option<&[Value]>
    ensures { option_map (λ values. map view values.now) result ≡ spec.as_list (view value.now) }
{
    let values = value.as_array()?;
    Some(values.as_slice())
}

/// Returns the elements of the top-level array at this key, or an empty slice if the key is absent.
/// Returns a fault if the value at the key is not an array or has more than `most` elements.
#[tactic(auto, unfolding(crate::specs::Document::list_at))]
pub fn list_at<'a>(document: &'a Table, key: &str, most: usize) -> Result<&'a [Value], TextError>
    ensures { Gives (λ values. map view values.now) result
        (spec.list_at key.now most (table_view document.now)) }
{
    let values = list_of(value_at(document, key))?;
    if values.len() > most {
        return Err(ReadError::Fault(PlanFault::at_text(TOO_MANY)));
    }
    Ok(values)
}

fn list_of(value: Option<&Value>) -> Result<&[Value], TextError>
    ensures { Gives (λ values. map view values.now) result
        (spec.list_of (option_map (λ value. view value.now) value.entry)) }
{
    let Some(value) = value else {
        return Ok(&[]);
    };
    list_in(value).ok_or_else(|| ReadError::Fault(PlanFault::at_text(WRONG_TYPE)))
}
