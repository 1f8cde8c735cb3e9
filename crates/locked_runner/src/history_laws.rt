//! Laws of three *quantities* of a run: the numbers of its jobs, its units of work and its events.
//! Each law is the contract of a function with an empty body.
//!
//! The ranks of a certificate are numbers that it gives to pools and classes. One of them is the
//! level of a class, which must be above the levels of the classes that it submits. The laws assume
//! that the conditions on the ranks hold.

ghost use Rattle.locked_runner.specs.RunNumbers.{TotalsAddUp, NumbersAreOfThePlan};

/// States that the total quantity of a job is its own quantity plus the total quantities of the
/// jobs that its body submits. A quantity is a number of jobs, of units of work or of events. A
/// total quantity includes all jobs that the job submits, directly or through other jobs. The law
/// assumes that the certificate's conditions on its ranks hold.
pub fn totals_add_up()
    ensures { TotalsAddUp }
{}

/// States that three numbers of a run do not depend on the certificate: the number of jobs, the
/// number of units of work, and the upper bound of the number of events. Each of them is the same
/// for all ranks whose conditions hold.
pub fn numbers_are_of_the_plan()
    ensures { NumbersAreOfThePlan }
{}
