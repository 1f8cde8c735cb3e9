//! The text of a fault of a plan.

ghost use Rattle.std.specs.Prelude.{Some};
ghost use Rattle.job_bodies.specs.FaultText.{part_text, action_text, fault_line};

use crate::{Part, PlanFault};
use std::fmt;
use support::FaultHead;

/// The entry that has a fault. It formats as ` at pool 0`, for example, or as an empty text if the
/// part is `Text`.
#[derive(Clone, Copy)]
struct FaultEntry {
    part: Part,
    index: usize,
}

impl fmt::Display for FaultEntry {
    ghost output = { λ at. Some (part_text at.part at.index) };

    fn fmt<W: fmt::Write>(&self, f: &mut fmt::Formatter<W>) -> fmt::Result {
        match self.part {
            Part::Text => Ok(()),
            Part::Pool => write!(f, " at pool {}", self.index),
            Part::Class => write!(f, " at class {}", self.index),
            Part::Client => write!(f, " at client {}", self.index),
        }
    }
}

/// The position of the action that has a fault. It formats as ` action 2`, for example, or as an
/// empty text if no action has the fault.
#[derive(Clone, Copy)]
struct Position(Option<usize>);

impl fmt::Display for Position {
    ghost output = { λ position. Some (action_text position.0) };

    fn fmt<W: fmt::Write>(&self, f: &mut fmt::Formatter<W>) -> fmt::Result {
        match self.0 {
            None => Ok(()),
            Some(action) => write!(f, " action {action}"),
        }
    }
}

/// Formats the number and the name of the fault, and the entry and the action that have the fault.
/// An example is `fault 13 SlotEmpty at client 0 action 2`.
impl fmt::Display for PlanFault {
    ghost output = { λ fault. Some (fault_line fault) };

    fn fmt<W: fmt::Write>(&self, f: &mut fmt::Formatter<W>) -> fmt::Result {
        let head = FaultHead(self.number);
        let entry = FaultEntry {
            part: self.part,
            index: self.index,
        };
        let position = Position(self.action);
        write!(f, "{head}{entry}{position}")
    }
}

impl std::error::Error for PlanFault {}
