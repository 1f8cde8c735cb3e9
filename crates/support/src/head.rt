//! The start of the text of a fault.

ghost use Rattle.std.specs.Prelude.{Some};
ghost use Rattle.support.specs.Name as spec;

use crate::name_of;
use std::fmt;

/// The start of the text of a fault: the number and the name of the fault, such as
/// `fault 6 BadName`. The field is the number. In the whole text, the position of the fault can
/// follow.
#[derive(Clone, Copy)]
pub struct FaultHead(pub u8);

impl fmt::Display for FaultHead {
    ghost output = { λ head. Some (spec.head head.0) };

    fn fmt<W: fmt::Write>(&self, f: &mut fmt::Formatter<W>) -> fmt::Result {
        let number = self.0;
        let name = name_of(number);
        write!(f, "fault {number} {name}")
    }
}
