//! The check of a certificate against a plan. If the certificate accepts the plan, no submit is
//! ever refused, and jobs never wait only for each other.
//!
//! [`check`] reads the bytes of a plan and of a certificate, and returns a verdict. The clause
//! `safe` of its contract states what a `yes` means for every state that any list of events
//! reaches. Nothing is assumed about the certificate or its author.
#![tactic(auto)]

mod acceptance;
mod answer;
mod certified;
mod from_bytes;
mod judge;
mod on_threads;
mod parse;
mod pool_gate;
mod text;

pub use acceptance::{accepts, accepts_standing};
pub use answer::{BoundTotal, PoolLine, Verdict};
pub use certified::Certified;
pub use from_bytes::{CheckFault, check};
pub use judge::verdict;
pub use on_threads::check_on;
pub use pool_gate::PoolGate;
pub use text::push_verdict;

// The parts of a certificate, and its text format.
pub use cert_text::{Cert, CertFault, PoolCert, read_cert, write_cert};
pub use soundness::{Note, Section};
pub use weights::{Bound, Ranks, Vector};
