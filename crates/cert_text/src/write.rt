//! A writer of certificates.

ghost use Rattle.std.specs.Prelude.{◌≡◌, ◌<◌, ◌≤◌, ◌∷◌, ◌++◌, [], false, length, IfOk, IsTrue, Ok};
ghost use Rattle.job_bodies.specs.Plan.{Plan};
ghost use Rattle.cert_text.specs.Cert.{cert_fits};
ghost use Rattle.job_bodies.specs.declared.limits.TheConstants.{MAX_CERT_BYTES};
ghost use Rattle.cert_text.specs.CertOf.{cert_of};
ghost use Rattle.support.specs.Pushed.{Pushes};
ghost use Rattle.cert_text.specs.CertText as spec;
ghost use Rattle.cert_text.specs.Canonical.{version_text};

use crate::Cert;
use crate::parts::{push_pools, push_ranks};
use crate::version::version_number;
use std::alloc::{AllocError, Global};
use support::push_number;

/// Writes a certificate as compact JSON. The keys of each object are in ascending order, and the
/// text has no newline. The version is 1 if each pool has a standing vector, and otherwise 2.
///
/// If the certificate fits a plan and the text has at most
/// [`MAX_CERT_BYTES`](job_bodies::MAX_CERT_BYTES) bytes, [`read_cert`](crate::read_cert) parses the
/// text as this certificate. The same holds for the text with a newline appended. The newline then
/// counts as one of the bytes.
///
/// The text never contains a `%`. So none of its lines is `%%`, which separates the plan from the
/// certificate in a text that has both.
///
/// # Errors
///
/// Returns [`AllocError`] if memory runs out.
pub fn write_cert(alloc: Global, cert: &Cert) -> Result<Vec<u8>, AllocError>
    ensures text { IfOk result (λ text. text.items ≡ spec.cert_text cert.now) }
    ensures reads_back { IfOk result (λ text.
        (plan : Plan)
        → IsTrue (cert_fits plan cert.now)
        → length text.items ≤ MAX_CERT_BYTES
        → cert_of text.items plan ≡ Ok cert.now) }
    ensures line_reads_back { IfOk result (λ text.
        (plan : Plan)
        → IsTrue (cert_fits plan cert.now)
        → length text.items < MAX_CERT_BYTES
        → cert_of (text.items ++ 10 ∷ []) plan ≡ Ok cert.now) }
    ensures no_separator { IfOk result (λ text. spec.has_percent text.items ≡ false) }
{
    let mut text = String::new(alloc);
    push_cert(&mut text, cert)?;
    Ok(text.into_bytes())
}

fn push_cert(text: &mut String, cert: &Cert) -> Result<(), AllocError>
    ensures { Pushes result text.old text.new (spec.cert_text cert.now) }
{
    text.push_str("{\"pools\":")?;
    push_pools(text, &cert.pools)?;
    text.push_str(",\"ranks\":")?;
    push_ranks(text, &cert.ranks)?;
    push_version(text, cert)
}

/// Appends the end of the text, which follows the ranks: the key `version`, the lowest version that
/// can represent the certificate, and the closing brace.
fn push_version(text: &mut String, cert: &Cert) -> Result<(), AllocError>
    ensures { Pushes result text.old text.new (version_text cert.now) }
{
    text.push_str(",\"version\":")?;
    push_number(text, version_number(cert))?;
    text.push('}')
}
