//! The escaped bytes in the texts of rows.

use std::alloc::{AllocError, Global};

/// Returns the bytes of the text, with each escape, such as `^n`, replaced by its byte.
pub fn spelled(alloc: Global, text: &str) -> Result<Vec<u8>, AllocError> {
    let mut bytes = Vec::new(alloc);
    for (number, piece) in text.split('^').enumerate() {
        if number == 0 {
            bytes.extend_from_slice(piece.as_bytes())?;
        } else {
            push_spelled(&mut bytes, piece.as_bytes())?;
        }
    }
    Ok(bytes)
}

// Appends `piece`, which is the text after a `^`, with the escape at its start replaced by its
// byte.
fn push_spelled(bytes: &mut Vec<u8>, piece: &[u8]) -> Result<(), AllocError> {
    let (byte, behind) = match piece {
        [b'n', behind @ ..] => (b'\n', behind),
        [b'r', behind @ ..] => (b'\r', behind),
        [b't', behind @ ..] => (b'\t', behind),
        [b's', behind @ ..] => (b' ', behind),
        [b'x', high, low, behind @ ..] => (digit(*high) << 4 | digit(*low), behind),
        _ => (b'^', piece),
    };
    bytes.push(byte)?;
    bytes.extend_from_slice(behind)
}

// Returns the value of a hexadecimal digit, or 0 for another byte.
fn digit(letter: u8) -> u8 {
    match letter {
        b'0'..=b'9' => letter - b'0',
        b'a'..=b'f' => letter - b'a' + 10,
        _ => 0,
    }
}
