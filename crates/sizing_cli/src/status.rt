//! The status and the faults with which a command ends.

ghost use Rattle.std.specs.Prelude.{◌≡◌, Some};
ghost use Rattle.support.specs.Name.{head};
ghost use Rattle.support.specs.declared.number.TheConstants.{MEMORY, WRITE_FAILED};
ghost use Rattle.sizing_cli.specs.Answer.{code, yes_or_no};
ghost use Rattle.sizing_cli.specs.ServeFault.{fault_of_input, fault_of_search};

use byte_streams::{InputError, IoFault};
use cert_search::SearchFault;
use std::alloc::AllocError;
use std::error::Error;
use std::fmt;
use support::FaultHead;
use support::number::{GATE, MEMORY, MIXED, READ_FAILED, WRITE_FAILED};

/// The outcome of a command that gave an answer.
#[derive(Clone, Copy, PartialEq, Eq)]
pub enum Status {
    /// Yes, or the command did what it was asked to do.
    Done,
    /// The answer is no. For example:
    ///
    /// - The plan is not safe.
    /// - A submit was refused, an event was impossible, or jobs are stuck.
    /// - A condition of the certificate fails.
    /// - `certify` found no certificate, or `fit` found no sizes.
    /// - `fit` lists a size that differs from the declared size.
    /// - A recording differs from the plan.
    Refused,
    /// The input has a fault, which the answer reports.
    BadText,
    /// Nothing was decided: neither a certificate nor a witness was found, or the comparison of a
    /// recording with a plan has no complete result.
    Undecided,
}

impl Status {
    /// Returns [`Status::Done`] if `yes` is true, and [`Status::Refused`] otherwise.
    pub(crate) fn of_question(yes: bool) -> Status
        ensures { result ≡ yes_or_no yes }
    {
        if yes { Status::Done } else { Status::Refused }
    }

    /// Returns the program's exit status:
    ///
    /// - 0 for a yes;
    /// - 1 for a no;
    /// - 2 for a fault of the input;
    /// - 4 if nothing was decided.
    pub fn code(self) -> u8
        ensures { result ≡ code self }
    {
        match self {
            Status::Done => 0,
            Status::Refused => 1,
            Status::BadText => 2,
            Status::Undecided => 4,
        }
    }
}

/// The fault of a command that gave no complete answer. The number of the fault is one of these:
///
/// - 20 (`Memory`): memory ran out, or a thread could not be started.
/// - 41 (`Strange`): the receipts of a run's threads were wrong (see
///   [`RunFault`](locked_runner::RunFault)).
/// - 42 (`Mixed`): the history of a run or the results of a search's threads were inconsistent (see
///   also [`SearchFault`]), or a check rejected what a search found.
/// - 43 (`Gate`): the gate stopped a search or a check, or failed in a run. The gate is a hook of
///   searches, checks and runs.
/// - 60 (`ReadFailed`): the source failed.
/// - 61 (`WriteFailed`): the sink failed.
///
/// After fault 61, a prefix of the answer was written. After any other fault, nothing was written.
#[derive(Clone, Copy, Debug, PartialEq, Eq)]
pub struct ServeFault {
    pub number: u8,
}

impl From<AllocError> for ServeFault {
    ghost from_gives = { λ _ fault. fault.number ≡ MEMORY };

    fn from(_error: AllocError) -> ServeFault {
        ServeFault { number: MEMORY }
    }
}

impl From<SearchFault> for ServeFault {
    ghost from_gives = { λ error fault. fault.number ≡ fault_of_search error };

    fn from(error: SearchFault) -> ServeFault {
        let number = match error {
            SearchFault::Memory => MEMORY,
            SearchFault::Mixed => MIXED,
            SearchFault::Gate => GATE,
        };
        ServeFault { number }
    }
}

impl From<InputError> for ServeFault {
    ghost from_gives = { λ error fault. fault.number ≡ fault_of_input error };

    fn from(error: InputError) -> ServeFault {
        let number = match error {
            InputError::Memory => MEMORY,
            InputError::Fault => READ_FAILED,
        };
        ServeFault { number }
    }
}

impl From<IoFault> for ServeFault {
    ghost from_gives = { λ _ fault. fault.number ≡ WRITE_FAILED };

    fn from(_fault: IoFault) -> ServeFault {
        ServeFault {
            number: WRITE_FAILED,
        }
    }
}

impl fmt::Display for ServeFault {
    ghost output = { λ fault. Some (head fault.number) };

    fn fmt<W: fmt::Write>(&self, f: &mut fmt::Formatter<W>) -> fmt::Result {
        write!(f, "{}", FaultHead(self.number))
    }
}

impl Error for ServeFault {}
