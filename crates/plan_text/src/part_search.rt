//! Searches in the outline of a text. Each search returns the part that it finds and all later
//! parts of the text, or `None` if there is no such part.

ghost use Rattle.std.specs.Prelude.{◌≡◌, option_map, drop};
ghost use Rattle.plan_text.specs.Places.{is_quoted, unquoted, is_named, is_entry, entry_in, key_in, value_in, element_in, header_in, top_in, entry_key_in, start_of_part, start_of};

use crate::outline::{Part, Range};

/// Finds the header of an entry, and returns the header and all later parts. The entry is at
/// `index`, counted from 0, in the list named `list`.
pub(crate) fn entry_in<'p>(
    text: &[u8],
    parts: &'p [Part],
    list: &str,
    index: usize,
) -> Option<&'p [Part]>
    ensures { option_map (λ found. found.now) result
        ≡ entry_in text.now list.now index parts.now }
{
    let mut before = index;
    for (i, part) in parts.iter().enumerate() {
        if is_entry(text, *part, list) {
            if before == 0 {
                return Some(&parts[i..]);
            }
            before -= 1;
        }
    }
    None
}

/// Returns true if the part is a header with double brackets and this name.
fn is_entry(text: &[u8], part: Part, list: &str) -> bool
    ensures { result ≡ is_entry text.now list.now part }
{
    match part {
        Part::Header(header) => header.in_list && is_named(text, header.name, list),
        Part::Key(_) | Part::Value(_) | Part::Element(_) => false,
    }
}

/// Finds the key named `key` of an entry, and returns the key and all later parts. The entry is the
/// one that [`entry_in`] finds.
pub(crate) fn entry_key_in<'p>(
    text: &[u8],
    parts: &'p [Part],
    list: &str,
    index: usize,
    key: &str,
) -> Option<&'p [Part]>
    ensures { option_map (λ found. found.now) result
        ≡ entry_key_in text.now list.now index key.now parts.now }
{
    let entry = entry_in(text, parts, list, index)?;
    key_in(text, after_first(entry), key)
}

/// Finds the first key with this name, and returns the key and all later parts. Searches only up to
/// the first header in `parts`.
fn key_in<'p>(text: &[u8], parts: &'p [Part], name: &str) -> Option<&'p [Part]>
    ensures { option_map (λ found. found.now) result ≡ key_in text.now name.now parts.now }
{
    for (i, part) in parts.iter().enumerate() {
        match *part {
            Part::Header(_) => return None,
            Part::Key(key) => {
                if is_named(text, key, name) {
                    return Some(&parts[i..]);
                }
            }
            Part::Value(_) | Part::Element(_) => {}
        }
    }
    None
}

/// Returns the value of a key, and all later parts. `parts` begins with the key. If the key has no
/// value, returns `parts` unchanged.
pub(crate) fn value_in(parts: &[Part]) -> &[Part]
    ensures { result.now ≡ value_in parts.now }
{
    match parts {
        [_, Part::Value(_), ..] => after_first(parts),
        _ => parts,
    }
}

/// Finds an element of an array, and returns the element and all later parts. The first of `parts`
/// is the array's key, and `index` is the index of the element, counted from 0.
pub(crate) fn element_in(parts: &[Part], index: usize) -> Option<&[Part]>
    ensures { option_map (λ found. found.now) result ≡ element_in index (drop 1 parts.now) }
{
    let values = after_first(parts);
    let mut before = index;
    for (i, part) in values.iter().enumerate() {
        match *part {
            Part::Header(_) | Part::Key(_) => return None,
            Part::Value(_) => {}
            Part::Element(_) => {
                if before == 0 {
                    return Some(&values[i..]);
                }
                before -= 1;
            }
        }
    }
    None
}

/// Finds the first header with this name, and returns the header and all later parts. If there is
/// no such header, finds the first key with this name before all headers instead.
pub(crate) fn top_in<'p>(text: &[u8], parts: &'p [Part], name: &str) -> Option<&'p [Part]>
    ensures { option_map (λ found. found.now) result ≡ top_in text.now name.now parts.now }
{
    match header_in(text, parts, name) {
        Some(found) => Some(found),
        None => key_in(text, parts, name),
    }
}

fn header_in<'p>(text: &[u8], parts: &'p [Part], name: &str) -> Option<&'p [Part]>
    ensures { option_map (λ found. found.now) result ≡ header_in text.now name.now parts.now }
{
    for (i, part) in parts.iter().enumerate() {
        if let Part::Header(header) = *part {
            if is_named(text, header.name, name) {
                return Some(&parts[i..]);
            }
        }
    }
    None
}

fn after_first(parts: &[Part]) -> &[Part]
    ensures { result.now ≡ drop 1 parts.now }
{
    match parts {
        [_, rest @ ..] => rest,
        [] => parts,
    }
}

/// Returns the offset at which the first of the parts begins, or `None` if there are no parts.
pub(crate) fn start_of(parts: &[Part]) -> Option<usize>
    ensures { result ≡ start_of parts.now }
{
    let first = parts.first()?;
    Some(start_of_part(*first))
}

fn start_of_part(part: Part) -> usize
    ensures { result ≡ start_of_part part }
{
    match part {
        Part::Header(header) => header.start,
        Part::Key(key) => key.start,
        Part::Value(start) | Part::Element(start) => start,
    }
}

/// Returns true if this range of the text is the name, with or without quotes.
#[tactic(auto, unfolding(crate::specs::Places::is_named))]
fn is_named(text: &[u8], range: Range, name: &str) -> bool
    ensures { result ≡ is_named text.now range name.now }
{
    match text.get(range.start..range.end) {
        Some(found) => unquoted(found) == name.as_bytes(),
        None => false,
    }
}

#[tactic(auto, unfolding(crate::specs::Places::unquoted))]
fn unquoted(name: &[u8]) -> &[u8]
    ensures { result.now ≡ unquoted name.now }
{
    if is_quoted(name) {
        &name[1..name.len() - 1]
    } else {
        name
    }
}

fn is_quoted(name: &[u8]) -> bool
    ensures { result ≡ is_quoted name.now }
{
    name.len() >= 2 && matches!(name[0], b'"' | b'\'') && name[name.len() - 1] == name[0]
}
