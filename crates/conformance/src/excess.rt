//! The excess of a client kind: more rounds than its `count` in the plan.

ghost use Rattle.std.specs.Prelude.{Some};
ghost use Rattle.conformance.specs.Excess as spec;

use std::fmt;

/// The excess of a client kind that has more rounds than its `count` in the plan. A round is one
/// pass of a client through its body.
///
/// The excess formats as a short phrase without the kind's name, such as `31 at once, count is 30`.
#[derive(Clone, Copy)]
pub enum Excess {
    /// `rounds` rounds are open at once, which is more than `count`.
    Concurrent { rounds: u64, count: u64 },
    /// `rounds` rounds began in all, which is more than `count`, and the kind does not repeat.
    InAll { rounds: u64, count: u64 },
}

impl fmt::Display for Excess {
    ghost output = { λ excess. Some (spec.excess_text excess) };

    fn fmt<W: fmt::Write>(&self, f: &mut fmt::Formatter<W>) -> fmt::Result {
        match *self {
            Excess::Concurrent { rounds, count } => write!(f, "{rounds} at once, count is {count}"),
            Excess::InAll { rounds, count } => {
                write!(
                    f,
                    "{rounds} in all, count is {count} and it does not repeat"
                )
            }
        }
    }
}
