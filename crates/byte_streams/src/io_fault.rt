//! The failure of one call of a source or a sink.
ghost use Rattle.std.specs.Prelude.{Some, codes};

use std::error::Error;
use std::fmt;

/// The failure of a read from a source or of a write to a sink. It has no information about the
/// reason.
#[derive(Clone, Copy, Debug, PartialEq, Eq)]
pub struct IoFault;

impl fmt::Display for IoFault {
    ghost output = { λ _. Some (codes "input or output failed") };

    fn fmt<W: fmt::Write>(&self, f: &mut fmt::Formatter<W>) -> fmt::Result {
        write!(f, "input or output failed")
    }
}

impl Error for IoFault {}
