//! The collector of faults. The checks of a plan's text add the faults that they find.

ghost use Rattle.std.specs.Prelude.{◌≡◌, ◌<◌, ◌≤◌, length};

use crate::diagnostic::Diagnostic;
use job_bodies::PlanFault;
use std::alloc::{AllocError, Global};

/// The maximum number of faults that are listed besides the one that the plan parser reports.
const MAX_OTHERS: usize = 99;

/// The faults that were found so far: the fault that the plan parser reports, the first 99 other
/// faults, and the number of faults beyond these 100.
#[derive(Drop)]
pub(crate) struct FaultCollector {
    pub(crate) alloc: Global,
    /// The fault that the plan parser reports.
    pub(crate) wanted: PlanFault,
    /// The first diagnostic that was found for the fault `wanted`.
    pub(crate) first: Option<Diagnostic>,
    pub(crate) others: Vec<Diagnostic>,
    pub(crate) omitted: usize,
    ghost within: { length others.items ≤ 99 },
    ghost full: { 0 < omitted → length others.items ≡ 99 },
}

impl FaultCollector {
    pub(crate) fn new(alloc: Global, wanted: PlanFault) -> FaultCollector {
        FaultCollector {
            alloc,
            wanted,
            first: None,
            others: Vec::new(alloc),
            omitted: 0,
        }
    }

    /// Adds a fault. `first` stores the first fault that equals `wanted`. `others` stores the other
    /// faults, up to 99 of them. `omitted` counts the faults beyond these.
    pub(crate) fn push(&mut self, found: Diagnostic) -> Result<(), AllocError> {
        if self.first.is_none() && found.fault == self.wanted {
            self.first = Some(found);
        } else if self.others.len() < MAX_OTHERS {
            self.others.push(found)?;
        } else {
            self.omitted = self.omitted.saturating_add(1);
        }
        Ok(())
    }
}
