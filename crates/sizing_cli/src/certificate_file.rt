//! The file to which a certificate is written.

ghost use Rattle.std.specs.Prelude.{◌≡◌, IfOk, IfErr, IfSome, is_ok, is_some, option_map, true, false};
ghost use Rattle.serde_json.specs.Find.{as_object};
ghost use Rattle.serde_json.specs.Read.{read};
ghost use Rattle.serde_json.specs.View.{view};
ghost use Rattle.cert_text.specs.Values.{count_members};
ghost use Rattle.support.specs.declared.number.TheConstants.{READ_FAILED};
ghost use Rattle.sizing_cli.specs.FileWrites.{AppendsWrites, file_writes};
ghost use Rattle.sizing_cli.specs.SavedCertificate as spec;
ghost use Rattle.sizing_cli.specs.CliError.{IsOccupied, IsOfContent, IsOfReplacing, IsOfText, IsUnreadable, IsUnwritten, is_fault, is_of_sink, is_unwritten};

use crate::fault::CliError;
use crate::named_texts::STANDARD_INPUT;
use crate::text_files::TextFiles;
use byte_streams::InputError;
use job_bodies::MAX_CERT_BYTES;
use serde_json::Value;
use std::alloc::{AllocError, Global};

/// Checks that a certificate may be written to the file `name`. This keeps a misplaced argument
/// from overwriting another text. There is no error if `name` is `None`, because then no
/// certificate is to be written.
///
/// # Errors
///
/// Returns an error in these cases:
///
/// - The name is `-`, or is the name of a directory.
/// - A regular file of this name cannot be read.
/// - A regular file of this name has a text that a certificate may not replace (see
///   [`is_replaceable`]).
/// - Memory runs out.
pub(crate) fn ensure_replaceable<'a, F: TextFiles>(
    alloc: Global,
    files: &F,
    name: Option<&'a str>,
) -> Result<(), CliError<'a>>
    ensures replaceable { IfOk result
        (λ _. spec.IsReplaceable (F.content files.now) (F.directory files.now) (option_map (λ name. name.now) name.entry)) }
    ensures occupied { IfErr result (IsOccupied (F.content files.now) (F.directory files.now)) }
    ensures fault { IfErr result (IsOfReplacing (option_map (λ name. name.now) name.entry)) }
    ensures before { IfErr result (λ fault. is_of_sink fault ≡ false) }
    ensures read { IfErr result (λ fault. is_fault READ_FAILED fault ≡ false) }
    ensures unread { IfErr result (IsUnreadable (F.content files.now)) }
{
    let Some(name) = name else {
        return Ok(());
    };
    if name == STANDARD_INPUT {
        return Err(CliError::CertificateNeedsFile);
    }
    if files.is_directory(name) {
        return Err(CliError::Directory(name));
    }
    ensure_certificate(alloc, files, name)
}

/// Returns an error if a regular file of this name cannot be read, or if a certificate may not
/// replace it.
fn ensure_certificate<'a, F: TextFiles>(
    alloc: Global,
    files: &F,
    name: &'a str,
) -> Result<(), CliError<'a>>
    ensures replaceable { IfOk result (λ _.
        IfSome (F.content files.now name.now) (λ text. spec.is_replaceable text ≡ true)) }
    ensures fault { IfErr result (IsOfContent (F.content files.now name.now) name.now) }
{
    match files.read_stored(alloc, name, MAX_CERT_BYTES + 1) {
        Ok(Some(text)) => ensure_replaceable_text(alloc, name, &text),
        Ok(None) => Ok(()),
        Err(InputError::Fault) => Err(CliError::Unread(name)),
        Err(InputError::Memory) => Err(CliError::from(AllocError)),
    }
}

/// Returns an error if a certificate may not replace `text`, which is the content of the file
/// `name`.
fn ensure_replaceable_text<'a>(
    alloc: Global,
    name: &'a str,
    text: &[u8],
) -> Result<(), CliError<'a>>
    ensures replaceable { IfOk result (λ _. spec.is_replaceable text.now ≡ true) }
    ensures fault { IfErr result (IsOfText name.now text.now) }
{
    if is_replaceable(alloc, text)? {
        Ok(())
    } else {
        Err(CliError::Occupied(name))
    }
}

/// Returns true if a certificate may replace this text. The text must be empty, or a JSON object
/// with the keys of a certificate. The object must not be longer than a certificate may be. The
/// values of its keys are not checked, because they may be for an older version of the plan.
fn is_replaceable(alloc: Global, text: &[u8]) -> Result<bool, AllocError>
    ensures { IfOk result (λ replaceable. replaceable ≡ spec.is_replaceable text.now) }
{
    if text.is_empty() {
        Ok(true)
    } else {
        is_certificate(alloc, text)
    }
}

fn is_certificate(alloc: Global, text: &[u8]) -> Result<bool, AllocError>
    ensures { IfOk result (λ is. is ≡ spec.is_certificate text.now) }
{
    if text.len() > MAX_CERT_BYTES {
        Ok(false)
    } else {
        is_object_text(alloc, text)
    }
}

fn is_object_text(alloc: Global, bytes: &[u8]) -> Result<bool, AllocError>
    ensures { IfOk result (λ is. is ≡ spec.is_object_text bytes.now) }
{
    match str::from_utf8(bytes) {
        Ok(text) => has_certificate_keys(alloc, text),
        Err(_) => Ok(false),
    }
}

fn has_certificate_keys(alloc: Global, text: &str) -> Result<bool, AllocError>
    ensures { IfOk result (λ has. has ≡ spec.has_certificate_keys (read text.now)) }
{
    match Value::from_str(alloc, text) {
        Ok(value) => Ok(has_keys(&value)),
        Err(error) => {
            if error.is_memory() {
                Err(AllocError)
            } else {
                Ok(false)
            }
        }
    }
}

fn has_keys(value: &Value) -> bool
    ensures { result ≡ spec.has_keys (view value.now) }
{
    has_three_members(value)
        && value.get("pools").is_some()
        && value.get("ranks").is_some()
        && value.get("version").is_some()
}

fn has_three_members(value: &Value) -> bool
    ensures { result ≡ spec.is_three (option_map count_members (as_object (view value.now))) }
{
    match member_count(value) {
        Some(count) => count == 3,
        None => false,
    }
}

/// Returns the number of members of the value, or `None` if the value is not an object.
fn member_count(value: &Value) -> Option<usize>
    ensures { result ≡ option_map count_members (as_object (view value.now)) }
{
    match value.as_object() {
        Some(members) => Some(members.len()),
        None => None,
    }
}

/// Writes the certificate's text `found` to the file `name`. Does nothing if `found` or `name` is
/// `None`. Returns [`CliError::Unwritten`] if the file cannot be written.
#[tactic(auto, using(crate::proofs::SavedTexts::no_writes))]
pub(crate) fn write_certificate<'a, F: TextFiles>(
    files: &mut F,
    name: Option<&'a str>,
    found: &Option<Vec<u8>>,
) -> Result<(), CliError<'a>>
    ensures kept { AppendsWrites (F.writes files.old) (F.writes files.new)
        (file_writes (option_map (λ text. text.items) found.now) (option_map (λ name. name.now) name.entry) (is_ok result)) }
    ensures fault { IfErr result (IsUnwritten (option_map (λ name. name.now) name.entry)) }
    ensures behind { IfErr result (λ fault. is_unwritten fault ≡ true) }
    ensures tried { IfErr result (λ _. is_some (option_map (λ text. text.items) found.now) ≡ true) }
{
    let Some(text) = found else {
        return Ok(());
    };
    let Some(name) = name else {
        return Ok(());
    };
    match files.write(name, text) {
        Ok(()) => Ok(()),
        Err(_) => Err(CliError::Unwritten(name)),
    }
}
