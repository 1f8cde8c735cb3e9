//! The JSON values in certificates: unsigned integers, lists of a known length, and objects with
//! known keys.

ghost use Rattle.std.specs.Prelude.{◌≡◌, map, option_map};
ghost use Rattle.support.specs.Results.{Gives};
ghost use Rattle.serde_json.specs.Find.{as_object};
ghost use Rattle.serde_json.specs.View.{view};
ghost use Rattle.cert_text.specs.Values as spec;

use crate::fault::{CertError, wrong_shape};
use serde_json::Value;

/// Returns the value if it is an unsigned 64-bit integer, and a fault otherwise.
pub fn number_of(value: &Value) -> Result<u64, CertError>
    ensures { Gives (λ number. number) result (spec.number_of (view value.now)) }
{
    match value.as_u64() {
        Some(number) => Ok(number),
        None => Err(wrong_shape()),
    }
}

/// Returns the elements of the value, or `None` if it is not a list.
fn list_in(value: &Value) -> Option<&[Value]>
    ensures { option_map (λ values. map view values.now) result ≡ spec.as_list (view value.now) }
{
    match value.as_array() {
        Some(values) => Some(values.as_slice()),
        None => None,
    }
}

/// Returns the elements of the value if it is a list of `count` elements, and a fault otherwise.
#[tactic(auto, unfolding(crate::specs::Values::elements_of))]
pub fn elements_of(value: &Value, count: usize) -> Result<&[Value], CertError>
    ensures { Gives (λ values. map view values.now) result
        (spec.elements_of count (view value.now)) }
{
    let Some(values) = list_in(value) else {
        return Err(wrong_shape());
    };
    if values.len() != count {
        return Err(wrong_shape());
    }
    Ok(values)
}

/// Returns the number of keys of the value, or `None` if it is not an object.
fn key_count(value: &Value) -> Option<usize>
    ensures { result ≡ option_map spec.count_members (as_object (view value.now)) }
{
    match value.as_object() {
        Some(members) => Some(members.len()),
        None => None,
    }
}

/// Returns a fault if the value is not an object with `count` keys.
#[tactic(auto, unfolding(crate::specs::Values::check_keys))]
pub fn check_keys(value: &Value, count: usize) -> Result<(), CertError>
    ensures { Gives (λ nothing. nothing) result (spec.check_keys count (view value.now)) }
{
    let Some(found) = key_count(value) else {
        return Err(wrong_shape());
    };
    if found != count {
        return Err(wrong_shape());
    }
    Ok(())
}

/// Returns the value at this key of an object, or a fault if there is no such value.
pub fn value_at<'a>(value: &'a Value, key: &str) -> Result<&'a Value, CertError>
    ensures { Gives (λ found. view found.now) result (spec.value_at key.now (view value.now)) }
{
    match value.get(key) {
        Some(found) => Ok(found),
        None => Err(wrong_shape()),
    }
}
