//! The JSON value of the text of a certificate.

ghost use Rattle.support.specs.Results.{Gives};
ghost use Rattle.serde_json.specs.View.{view};
ghost use Rattle.cert_text.specs.CertOf as spec;

use crate::fault::{CertError, fault};
use job_bodies::MAX_CERT_BYTES;
use serde_json::Value;
use std::alloc::Global;
use support::ReadError;
use support::number::{CERT_TOO_LONG, NOT_JSON};

/// Parses the bytes as JSON. Returns a fault if there are more bytes than a certificate may have,
/// or if the bytes are not UTF-8 or not JSON.
#[tactic(auto, unfolding(crate::specs::CertOf::document_of))]
pub fn document_of(alloc: Global, bytes: &[u8]) -> Result<Value, CertError>
    ensures { Gives view result (spec.document_of bytes.now) }
{
    if bytes.len() > MAX_CERT_BYTES {
        return Err(fault(CERT_TOO_LONG));
    }
    let text = text_of(bytes)?;
    json_of(alloc, text)
}

fn text_of(bytes: &[u8]) -> Result<&str, CertError>
    ensures { Gives (λ text. text.now) result (spec.text_of bytes.now) }
{
    match std::str::from_utf8(bytes) {
        Ok(text) => Ok(text),
        Err(_) => Err(fault(NOT_JSON)),
    }
}

fn json_of(alloc: Global, text: &str) -> Result<Value, CertError>
    ensures { Gives view result (spec.json_of text.now) }
{
    match Value::from_str(alloc, text) {
        Ok(value) => Ok(value),
        Err(error) => {
            if error.is_memory() {
                Err(ReadError::Memory)
            } else {
                Err(fault(NOT_JSON))
            }
        }
    }
}
