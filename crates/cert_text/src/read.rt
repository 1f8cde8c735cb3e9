//! Parsing of certificates.

ghost use Rattle.std.specs.Prelude.{◌≡◌, ◌≢◌, IfOk, IfErr, IsTrue, Ok, Err};
ghost use Rattle.support.specs.Results.{Gives};
ghost use Rattle.cert_text.specs.Cert.{cert_fits};
ghost use Rattle.serde_json.specs.View.{view};
ghost use Rattle.cert_text.specs.CertOf as spec;

use crate::Cert;
use crate::canonical::parse_canonical_cert;
use crate::document::document_of;
use crate::fault::{CertError, CertFault, fault};
use crate::shape::shape_of;
use crate::sizes::has_small_numbers;
use crate::version::version_of;
use job_bodies::Plan;
use serde_json::Value;
use std::alloc::Global;
use support::ReadError;
use support::number::{MEMORY, WEIGHT_TOO_LARGE};

/// Parses the text of a certificate that fits the plan.
///
/// # Errors
///
/// Returns the first fault of the text. If memory runs out, returns a fault with the number
/// [`MEMORY`], which says nothing about the text. The faults are checked in this order:
///
/// 1. Fault 34: the text has more than [`MAX_CERT_BYTES`](job_bodies::MAX_CERT_BYTES) bytes.
/// 2. Fault 30: the text is not UTF-8 or not JSON.
/// 3. Fault 31: the value is not an object with an unsigned integer at the key `version`.
/// 4. Fault 33: the version is neither 1 nor 2.
/// 5. Fault 31: a key is missing or unknown, the length of a list does not match the plan, or a
///    value is not an unsigned 64-bit integer.
/// 6. Fault 32: a number is above 1,000,000,000.
pub fn read_cert(alloc: Global, bytes: &[u8], plan: &Plan) -> Result<Cert, CertFault>
    ensures cert { IfOk result (λ cert. spec.cert_of bytes.now plan.now ≡ Ok cert) }
    ensures fault { IfErr result
        (λ fault. fault.number ≢ MEMORY → spec.cert_of bytes.now plan.now ≡ Err fault) }
    ensures fits { IfOk result (λ cert. IsTrue (cert_fits plan.now cert)) }
{
    match cert_of(alloc, bytes, plan) {
        Ok(cert) => Ok(cert),
        Err(ReadError::Memory) => Err(CertFault { number: MEMORY }),
        Err(ReadError::Fault(fault)) => Err(fault),
    }
}

/// Parses the text of a certificate. Builds no JSON tree if the certificate fits the plan and its
/// text is in the canonical form, which is the form that [`write_cert`](crate::write_cert) writes.
#[tactic(auto, using(crate::proofs::CanonicalTexts::canonical_back))]
fn cert_of(alloc: Global, bytes: &[u8], plan: &Plan) -> Result<Cert, CertError>
    ensures { Gives (λ cert. cert) result (spec.cert_of bytes.now plan.now) }
{
    match parse_canonical_cert(alloc, bytes, plan) {
        Ok(cert) => Ok(cert),
        Err(ReadError::Memory) => Err(ReadError::Memory),
        Err(ReadError::Fault(_)) => cert_of_json(alloc, bytes, plan),
    }
}

#[tactic(auto, unfolding(crate::specs::CertOf::cert_of))]
fn cert_of_json(alloc: Global, bytes: &[u8], plan: &Plan) -> Result<Cert, CertError>
    ensures { Gives (λ cert. cert) result (spec.cert_of bytes.now plan.now) }
{
    let value = document_of(alloc, bytes)?;
    cert_of_value(alloc, &value, plan)
}

#[tactic(auto, unfolding(crate::specs::CertOf::cert_of_value))]
fn cert_of_value(alloc: Global, value: &Value, plan: &Plan) -> Result<Cert, CertError>
    ensures { Gives (λ cert. cert) result (spec.cert_of_value (view value.now) plan.now) }
{
    let version = version_of(value)?;
    let cert = shape_of(alloc, version, plan, value)?;
    if !has_small_numbers(&cert) {
        return Err(fault(WEIGHT_TOO_LARGE));
    }
    Ok(cert)
}
