//! The expansion of `^<N TEXT^>` in the texts of rows.

use crate::files::spelling::spelled;
use std::alloc::{AllocError, Global};

/// Returns the text with its repetitions written out. A repetition has one of two forms:
///
/// - `^<N TEXT^>` is replaced by N copies of TEXT.
/// - `^<to N TEXT^>` is also replaced by copies of TEXT. Their number is N minus the number of
///   bytes before the repetition.
///
/// In TEXT, `^#` is the number of the copy, counted from 0, and `^+` is the number of the copy,
/// counted from 1.
pub fn repeated(alloc: Global, text: &str) -> Result<String, AllocError> {
    let mut whole = String::new(alloc);
    for (number, piece) in text.split("^<").enumerate() {
        if number == 0 {
            whole.push_str(piece)?;
        } else {
            let (inner, behind) = piece.split_once("^>").unwrap_or((piece, ""));
            push_repeated(alloc, &mut whole, inner)?;
            whole.push_str(behind)?;
        }
    }
    Ok(whole)
}

// Appends TEXT N times if `inner` is `N TEXT`. If `inner` is `to N TEXT`, subtracts the bytes that
// `whole` already has from N.
fn push_repeated(alloc: Global, whole: &mut String, inner: &str) -> Result<(), AllocError> {
    let (bytes, inner) = match inner.strip_prefix("to ") {
        Some(inner) => (spelled(alloc, whole)?.len(), inner),
        None => (0, inner),
    };
    let (count, piece) = inner.split_once(' ').unwrap_or((inner, ""));
    let count = count.parse::<usize>().unwrap_or(0).saturating_sub(bytes);
    if !piece.contains("^#") && !piece.contains("^+") {
        return push_copies(alloc, whole, piece, count);
    }
    for number in 0..count {
        push_numbered(whole, piece, number)?;
    }
    Ok(())
}

// The number of copies that are appended in one call.
const BLOCK: usize = 1_000;

// Appends this number of copies of the piece.
fn push_copies(
    alloc: Global,
    whole: &mut String,
    piece: &str,
    count: usize,
) -> Result<(), AllocError> {
    let mut block = String::new(alloc);
    for _ in 0..BLOCK.min(count) {
        block.push_str(piece)?;
    }
    for _ in 0..count / BLOCK {
        whole.push_str(&block)?;
    }
    for _ in 0..count % BLOCK {
        whole.push_str(piece)?;
    }
    Ok(())
}

// Appends the piece with its number in place of `^#`, and its number plus 1 in place of `^+`.
fn push_numbered(whole: &mut String, piece: &str, number: usize) -> Result<(), AllocError> {
    let next = number.saturating_add(1);
    for (place, part) in piece.split("^#").enumerate() {
        if place > 0 {
            write!(whole, "{number}")?;
        }
        for (place, part) in part.split("^+").enumerate() {
            if place > 0 {
                write!(whole, "{next}")?;
            }
            whole.push_str(part)?;
        }
    }
    Ok(())
}
