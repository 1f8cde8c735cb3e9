//! The replacement of `$1` and `$(NAME)` in the texts of rows.

use crate::files::certs::sample_cert;
use crate::files::plans::sample_plan;
use crate::files::repeat::repeated;
use crate::files::rows::Row;
use std::alloc::{AllocError, Global};

// The names of the columns, one character each.
const COLUMNS: &str = "123456789";

/// Returns the text with the first column in place of `$1`, the second column in place of `$2`, and
/// so on. A `$` that names no column is not replaced.
pub fn with_columns(alloc: Global, text: &str, columns: &[&str]) -> Result<String, AllocError> {
    let mut filled = String::new(alloc);
    for (number, piece) in text.split('$').enumerate() {
        if number == 0 {
            filled.push_str(piece)?;
        } else {
            push_column(&mut filled, piece, columns)?;
        }
    }
    Ok(filled)
}

// Appends `piece`, which is the text after a `$`. If it begins with the name of a column, appends
// the column in place of the `$` and the name.
fn push_column(filled: &mut String, piece: &str, columns: &[&str]) -> Result<(), AllocError> {
    for (name, column) in COLUMNS.chars().zip(columns) {
        if let Some(behind) = piece.strip_prefix(name) {
            filled.push_str(column)?;
            return filled.push_str(behind);
        }
    }
    filled.push('$')?;
    filled.push_str(piece)
}

/// Returns the text with a replacement for each `$(NAME)`. The replacement is the first of these
/// texts that exists:
///
/// - the text of the row's part `let NAME`,
/// - the sample certificate with this name, and
/// - the sample plan with this name.
pub fn with_names(alloc: Global, text: &str, row: &Row) -> Result<String, AllocError> {
    let mut filled = String::new(alloc);
    for (number, piece) in text.split("$(").enumerate() {
        if number == 0 {
            filled.push_str(piece)?;
        } else {
            let (name, behind) = piece.split_once(')').unwrap_or((piece, ""));
            filled.push_str(&named(alloc, name, row)?)?;
            filled.push_str(behind)?;
        }
    }
    Ok(filled)
}

// Returns the text of the row's part `let NAME`. If there is none, returns the sample certificate
// or the sample plan with this name.
fn named(alloc: Global, name: &str, row: &Row) -> Result<String, AllocError> {
    let head = format!(in alloc; "let {name}")?;
    if let Some(text) = row.part(&head) {
        return repeated(alloc, text);
    }
    match sample_cert(alloc, name)? {
        Some(text) => Ok(text),
        None => sample_plan(alloc, name),
    }
}
