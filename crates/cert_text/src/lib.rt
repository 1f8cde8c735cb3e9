//! Certificates and their texts. A text is a JSON object, of version 1 or 2.
//!
//! A [`Cert`] has vectors of numbers for each pool, and the [`Ranks`](weights::Ranks) of pools and
//! classes. The blocked vector of a pool bounds the pool's jobs that wait for other jobs. The
//! *bound* of a pool is a vector that bounds the pool's queue. A pool that may reject jobs or has
//! an unbounded queue needs no bound. [`read_cert`] parses a certificate that fits a plan, or
//! returns the first fault. [`write_cert`] writes a text that `read_cert` parses as the same
//! certificate, if the text is not too long.
#![tactic(auto)]

mod canonical;
mod canonical_numbers;
mod canonical_vectors;
mod cert;
mod document;
mod fault;
mod parts;
mod read;
mod shape;
mod sizes;
mod values;
mod vectors;
mod version;
mod write;

pub use cert::{Cert, PoolCert};
pub use fault::CertFault;
pub use read::read_cert;
pub use write::write_cert;
