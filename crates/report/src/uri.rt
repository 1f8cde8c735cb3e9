//! The names of files as URI references.

ghost use Rattle.std.specs.Prelude.{◌≡◌, ◌<◌, ◌∷◌, [], IfOk, IsTrue, string_bytes};
ghost use Rattle.support.specs.Pushed.{Pushes};
ghost use Rattle.report.specs.Uri as spec;

use std::alloc::{AllocError, Global};

/// Returns a URI reference to the file with this name. RFC 3986 defines URI references.
pub(crate) fn uri_of(alloc: Global, name: &str) -> Result<String, AllocError>
    ensures { IfOk result (λ uri. string_bytes uri ≡ spec.uri_text name.now) }
{
    let mut uri = String::new(alloc);
    uri.push_str(path_start(name.as_bytes()))?;
    push_path(&mut uri, name.as_bytes())?;
    Ok(uri)
}

/// Returns the prefix that keeps the start of the name from being read as a host or a scheme:
///
/// - `/.` if the name starts with two slashes,
/// - `./` if the name has a colon before its first slash, and
/// - an empty text otherwise.
fn path_start(name: &[u8]) -> &'static str
    ensures { result.now ≡ spec.path_start name.now }
{
    if has_two_slashes(name) {
        "/."
    } else if has_early_colon(name) {
        "./"
    } else {
        ""
    }
}

fn has_two_slashes(name: &[u8]) -> bool
    ensures { result ≡ spec.has_two_slashes name.now }
{
    name.starts_with(b"//")
}

/// Returns whether the name has a colon before its first slash.
fn has_early_colon(mut name: &[u8]) -> bool
    ensures { result ≡ spec.has_early_colon name.entry.now }
{
    while let Some((byte, rest)) = name.split_first() {
        if *byte == b':' {
            return true;
        }
        if *byte == b'/' {
            return false;
        }
        name = rest;
    }
    false
}

/// Appends the name. Replaces each byte that a path may not have by its escape, such as `%20`.
fn push_path(text: &mut String, mut name: &[u8]) -> Result<(), AllocError>
    ensures { Pushes result text.old text.new (spec.path_text name.entry.now) }
{
    while let Some((byte, rest)) = name.split_first() {
        push_path_byte(text, *byte)?;
        name = rest;
    }
    Ok(())
}

fn push_path_byte(text: &mut String, byte: u8) -> Result<(), AllocError>
    ensures { Pushes result text.old text.new (spec.path_byte byte) }
{
    if is_path_byte(byte) {
        push_ascii(text, byte)
    } else {
        push_escape(text, byte)
    }
}

/// Returns whether a path may have the byte without an escape.
fn is_path_byte(byte: u8) -> bool
    ensures is { result ≡ spec.is_path_byte byte }
    ensures ascii { IsTrue result → byte < 128 }
{
    byte.is_ascii_alphanumeric() || b"-._~!$&'()*+,;=:@/".contains(&byte)
}

fn push_ascii(text: &mut String, byte: u8) -> Result<(), AllocError>
    requires { byte < 128 }
    ensures { Pushes result text.old text.new (byte ∷ []) }
{
    text.push(char::from(byte))
}

/// Appends the byte as `%` and two hexadecimal digits.
fn push_escape(text: &mut String, byte: u8) -> Result<(), AllocError>
    ensures { Pushes result text.old text.new (spec.escape byte) }
{
    text.push('%')?;
    push_ascii(text, hex_digit(byte / 16))?;
    push_ascii(text, hex_digit(byte % 16))
}

/// Returns the hexadecimal digit of a number from 0 to 15, in upper case.
fn hex_digit(n: u8) -> u8
    requires { n < 16 }
    ensures is { result ≡ spec.hex_digit n }
    ensures ascii { result < 128 }
{
    if n < 10 { b'0' + n } else { b'A' - 10 + n }
}
