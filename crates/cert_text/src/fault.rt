//! The faults of the text of a certificate.

ghost use Rattle.std.specs.Prelude.{◌≡◌, Some};
ghost use Rattle.support.specs.Name.{head};
ghost use Rattle.support.specs.declared.read_error.ReadError.TheVariants.{Fault};
ghost use Rattle.cert_text.specs.Values as spec;

use std::fmt;
use support::number::WRONG_SHAPE;
use support::{FaultHead, ReadError};

/// A fault of the text of a certificate.
#[derive(Clone, Copy, Debug, PartialEq, Eq)]
pub struct CertFault {
    /// The number of the fault: 30 to 34, or 20 if memory ran out.
    pub number: u8,
}

/// Formats the number and name of the fault, such as `fault 31 WrongShape`.
impl fmt::Display for CertFault {
    ghost output = { λ fault. Some (head fault.number) };

    fn fmt<W: fmt::Write>(&self, f: &mut fmt::Formatter<W>) -> fmt::Result {
        let head = FaultHead(self.number);
        write!(f, "{head}")
    }
}

impl std::error::Error for CertFault {}

/// The error of a function that reads the text of a certificate: out of memory, or the first fault.
pub type CertError = ReadError<CertFault>;

/// Returns the fault with this number, as an error.
pub fn fault(number: u8) -> CertError
    ensures { result ≡ Fault (spec.fault number) }
{
    ReadError::Fault(CertFault { number })
}

/// Returns the fault `WRONG_SHAPE`, as an error.
pub fn wrong_shape() -> CertError
    ensures { result ≡ Fault spec.wrong_shape }
{
    fault(WRONG_SHAPE)
}
