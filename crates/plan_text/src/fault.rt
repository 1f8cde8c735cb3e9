//! The error of the functions that read the text of a plan.

use job_bodies::PlanFault;
use support::ReadError;

/// The error of a function that reads the text of a plan: either the first fault of the text, or
/// that memory ran out.
pub type TextError = ReadError<PlanFault>;
