//! The version of the text of a certificate.

ghost use Rattle.std.specs.Prelude.{◌≡◌};
ghost use Rattle.std.specs.List.{list_all};
ghost use Rattle.support.specs.Results.{Gives};
ghost use Rattle.serde_json.specs.View.{view};
ghost use Rattle.cert_text.specs.CertText.{is_standing, version_number};
ghost use Rattle.cert_text.specs.Version as spec;

use crate::fault::{CertError, fault};
use crate::values::{number_of, value_at};
use crate::{Cert, PoolCert};
use serde_json::Value;
use support::number::VERSION;
use weights::Bound;

/// A supported version of the text of a certificate.
#[derive(Clone, Copy)]
pub enum Version {
    /// Each pool has a standing vector, which bounds the number of its queued jobs.
    One,
    /// Each pool has a standing or a lifetime vector. A pool that may reject jobs or has an
    /// unbounded queue can also have neither. A lifetime vector bounds the number of all jobs that
    /// are ever submitted to the pool.
    Two,
}

fn version_numbered(number: u64) -> Result<Version, CertError>
    ensures { Gives (λ version. version) result (spec.version_numbered number) }
{
    match number {
        1 => Ok(Version::One),
        2 => Ok(Version::Two),
        _ => Err(fault(VERSION)),
    }
}

/// Reads the version of the JSON value of a certificate. Returns a fault if the value has no
/// unsigned integer at the key `version`, or if that integer is neither 1 nor 2.
#[tactic(auto, unfolding(crate::specs::Version::version_of))]
pub fn version_of(value: &Value) -> Result<Version, CertError>
    ensures { Gives (λ version. version) result (spec.version_of (view value.now)) }
{
    let version = value_at(value, "version")?;
    let number = number_of(version)?;
    version_numbered(number)
}

fn is_standing(bound: &Option<Bound>) -> bool
    ensures { result ≡ is_standing bound.now }
{
    matches!(bound, Some(Bound::Standing(_)))
}

fn all_are_standing(pools: &[PoolCert]) -> bool
    ensures { result ≡ list_all (λ pool. is_standing pool.bound) pools.now }
{
    pools.iter().all(|pool| is_standing(&pool.bound))
}

/// Returns the lowest version of the text format that can represent the certificate: 1 if the
/// bound of each pool is a standing vector, and otherwise 2.
pub fn version_number(cert: &Cert) -> u64
    ensures { result ≡ version_number cert.now }
{
    if all_are_standing(&cert.pools) { 1 } else { 2 }
}
