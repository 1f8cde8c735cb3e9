//! A fast parser of certificates in *canonical form*: exactly the form that
//! [`write_cert`](crate::write_cert) writes. It builds no JSON tree. The part of a certificate for
//! a pool begins with the blocked vector, which bounds the pool's jobs that wait for other jobs.
//! The bound of the pool's queue follows. It can be absent if the pool may reject jobs or its queue
//! is unbounded.
//!
//! A text that is not in this form is an error here, and so is a text whose certificate does not
//! fit the plan. The caller then parses the text as JSON.

ghost use Rattle.std.specs.Prelude.{◌≡◌, ◌++◌, IfOk, IsTrue, length, map};
ghost use Rattle.std.specs.List.{list_all, enumerate_from};
ghost use Rattle.json.specs.Word.{is_space};
ghost use Rattle.weights.specs.Ranks.{ranks_fit};
ghost use Rattle.cert_text.specs.Cert.{bound_fits, pool_cert_fits, cert_fits};
ghost use Rattle.cert_text.specs.CertText as spec;
ghost use Rattle.cert_text.specs.Canonical.{BeginsAs, bound_text, version_text, IsCanonical};

use crate::canonical_numbers::{
    CanonicalError, NonCanonical, list_with_capacity, parse_numbers, strip_byte, strip_bytes,
    strip_comma,
};
use crate::canonical_vectors::parse_vector;
use crate::cert::needs_no_bound;
use crate::version::version_number;
use crate::{Cert, PoolCert};
use job_bodies::{MAX_CERT_BYTES, Plan};
use std::alloc::Global;
use support::ReadError;
use weights::{Bound, Ranks};

/// Parses the bound of the pool with this index, and returns the bound and the rest of the text.
/// `text` begins directly after the pool's blocked vector. If the text has no bound and the pool
/// needs none, the bound is `None`.
fn parse_bound<'a>(
    alloc: Global,
    plan: &Plan,
    pool: usize,
    text: &'a [u8],
) -> Result<(Option<Bound>, &'a [u8]), CanonicalError>
    ensures text { IfOk result (λ read. text.now ≡ bound_text read.0 ++ read.1.now) }
    ensures fits { IfOk result (λ read. IsTrue (bound_fits plan.now pool read.0)) }
{
    if let Ok(rest) = strip_bytes(text, b",\"standing\":") {
        let (vector, rest) = parse_vector(alloc, plan, rest)?;
        return Ok((Some(Bound::Standing(vector)), rest));
    }
    if let Ok(rest) = strip_bytes(text, b",\"lifetime\":") {
        let (vector, rest) = parse_vector(alloc, plan, rest)?;
        return Ok((Some(Bound::Lifetime(vector)), rest));
    }
    if !needs_no_bound(plan, pool) {
        return Err(ReadError::Fault(NonCanonical));
    }
    Ok((None, text))
}

/// Parses the part of the certificate for the pool with this index, at the start of the text.
/// Returns the part and the rest of the text.
fn parse_pool<'a>(
    alloc: Global,
    plan: &Plan,
    pool: usize,
    text: &'a [u8],
) -> Result<(PoolCert, &'a [u8]), CanonicalError>
    ensures text { IfOk result (λ read. BeginsAs text.now (spec.pool_data read.0) read.1.now) }
    ensures fits { IfOk result (λ read. IsTrue (pool_cert_fits plan.now pool read.0)) }
{
    let rest = strip_bytes(text, b"{\"blocked\":")?;
    let (blocked, rest) = parse_vector(alloc, plan, rest)?;
    let (bound, rest) = parse_bound(alloc, plan, pool, rest)?;
    let rest = strip_byte(rest, b'}')?;
    Ok((PoolCert { bound, blocked }, rest))
}

fn parse_pools<'a>(
    alloc: Global,
    plan: &Plan,
    text: &'a [u8],
) -> Result<(Vec<PoolCert>, &'a [u8]), CanonicalError>
    ensures text { IfOk result
        (λ read. BeginsAs text.now (spec.list_data (map spec.pool_data read.0.items)) read.1.now) }
    ensures count { IfOk result (λ read. length read.0.items ≡ length plan.now.pools) }
    ensures fit { IfOk result (λ read.
        IsTrue (list_all (λ entry. pool_cert_fits plan.now entry.0 entry.1)
        (enumerate_from 0 read.0.items))) }
{
    let count = plan.pools().len();
    let mut pools = list_with_capacity(alloc, count, text)?;
    let mut rest = strip_byte(text, b'[')?;
    for place in 0..count {
        let element = strip_comma(rest, place)?;
        let (pool, remaining) = parse_pool(alloc, plan, place, element)?;
        pools.push(pool)?;
        rest = remaining;
    }
    Ok((pools, strip_byte(rest, b']')?))
}

fn parse_ranks<'a>(
    alloc: Global,
    plan: &Plan,
    text: &'a [u8],
) -> Result<(Ranks, &'a [u8]), CanonicalError>
    ensures text { IfOk result (λ read. BeginsAs text.now (spec.ranks_data read.0) read.1.now) }
    ensures fit { IfOk result (λ read. IsTrue (ranks_fit plan.now read.0)) }
{
    let rest = strip_bytes(text, b"{\"levels\":")?;
    let (levels, rest) = parse_numbers(alloc, plan.classes().len(), rest)?;
    let rest = strip_bytes(rest, b",\"pools\":")?;
    let (pools, rest) = parse_numbers(alloc, plan.pools().len(), rest)?;
    let rest = strip_bytes(rest, b",\"reach\":")?;
    let (reach, rest) = parse_numbers(alloc, plan.classes().len(), rest)?;
    let rest = strip_byte(rest, b'}')?;
    let ranks = Ranks {
        pools,
        reach,
        levels,
    };
    Ok((ranks, rest))
}

/// Strips the key `version`, the version of `cert` and the closing brace from the start of `text`,
/// and returns the rest. The text of a certificate ends with these parts.
fn strip_version<'a>(cert: &Cert, text: &'a [u8]) -> Result<&'a [u8], CanonicalError>
    ensures { IfOk result (λ rest. text.now ≡ version_text cert.now ++ rest.now) }
{
    if version_number(cert) == 2 {
        strip_bytes(text, b",\"version\":2}")
    } else {
        strip_bytes(text, b",\"version\":1}")
    }
}

/// Parses the certificate at the start of a text, and returns the certificate and the rest of the
/// text.
fn parse_cert<'a>(
    alloc: Global,
    plan: &Plan,
    text: &'a [u8],
) -> Result<(Cert, &'a [u8]), CanonicalError>
    ensures text { IfOk result (λ read. BeginsAs text.now (spec.cert_data read.0) read.1.now) }
    ensures fits { IfOk result (λ read. IsTrue (cert_fits plan.now read.0)) }
{
    let rest = strip_bytes(text, b"{\"pools\":")?;
    let (pools, rest) = parse_pools(alloc, plan, rest)?;
    let rest = strip_bytes(rest, b",\"ranks\":")?;
    let (ranks, rest) = parse_ranks(alloc, plan, rest)?;
    let cert = Cert { pools, ranks };
    let rest = strip_version(&cert, rest)?;
    Ok((cert, rest))
}

fn is_space(byte: u8) -> bool
    ensures { result ≡ is_space byte }
{
    byte == b' ' || byte == b'\t' || byte == b'\n' || byte == b'\r'
}

fn is_blank(text: &[u8]) -> bool
    ensures { result ≡ list_all is_space text.now }
{
    text.iter().all(|byte| is_space(*byte))
}

/// Parses the text of a certificate that fits the plan. White space may follow the certificate.
/// Returns an error if the text is too long or not in canonical form, or if its certificate does
/// not fit the plan.
pub fn parse_canonical_cert(alloc: Global, text: &[u8], plan: &Plan) -> Result<Cert, CanonicalError>
    ensures { IfOk result (IsCanonical plan.now text.now) }
{
    if text.len() > MAX_CERT_BYTES {
        return Err(ReadError::Fault(NonCanonical));
    }
    let (cert, rest) = parse_cert(alloc, plan, text)?;
    if !is_blank(rest) {
        return Err(ReadError::Fault(NonCanonical));
    }
    Ok(cert)
}
