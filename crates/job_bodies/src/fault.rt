//! The faults of a plan, with their positions.

ghost use Rattle.std.specs.Prelude.{◌≡◌};
ghost use Rattle.support.specs.Reading.{ensure};
ghost use Rattle.job_bodies.specs.Checks.{at_text, at_entry, at_action};

/// The part of a plan to which a fault belongs.
#[derive(Clone, Copy, Debug, PartialEq, Eq)]
pub enum Part {
    /// The text, or the plan as a whole.
    Text,
    Pool,
    Class,
    /// A client kind.
    Client,
}

/// A fault of a plan: its number, the entry that has it, and the action that has it.
#[derive(Clone, Copy, Debug, PartialEq, Eq)]
pub struct PlanFault {
    /// The number of the fault, as in `support::number`: 1 to 13, or 20 if memory ran out.
    pub number: u8,
    /// The part of the plan that has the fault.
    pub part: Part,
    /// The index of the pool, class or client kind in its list, counted from 0. If `part` is
    /// `Text`, the index is 0.
    pub index: usize,
    /// The position of the action that has the fault, counted from 0 in its body. It is `None` if
    /// no action has the fault.
    pub action: Option<usize>,
}

impl PlanFault {
    /// Creates a fault with this number that belongs to the text or to the plan as a whole.
    pub fn at_text(number: u8) -> PlanFault
        ensures { result ≡ at_text number }
    {
        PlanFault {
            number,
            part: Part::Text,
            index: 0,
            action: None,
        }
    }

    /// Creates a fault with this number that belongs to an entry. The entry is at `index` in the
    /// list for `part`, such as the list of pools.
    pub fn at_entry(part: Part, index: usize, number: u8) -> PlanFault
        ensures { result ≡ at_entry part index number }
    {
        PlanFault {
            number,
            part,
            index,
            action: None,
        }
    }

    /// Creates a fault with this number that belongs to an action. The action is at position
    /// `action` in the body of an entry. This entry is at `index` in the list for `part`.
    pub fn at_action(part: Part, index: usize, action: usize, number: u8) -> PlanFault
        ensures { result ≡ at_action part index action number }
    {
        PlanFault {
            number,
            part,
            index,
            action: Some(action),
        }
    }
}

/// Returns `Ok` if `holds` is true, and `fault` as the error otherwise.
pub(crate) fn ensure(holds: bool, fault: PlanFault) -> Result<(), PlanFault>
    ensures { result ≡ ensure holds fault }
{
    if holds { Ok(()) } else { Err(fault) }
}
