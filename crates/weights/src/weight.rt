//! The least weight at a position of a body, computed from the end of the body to its start.

ghost use Rattle.std.specs.Prelude.{◌≡◌, ◌≤◌};

/// The least weight of an actor at a position of its body.
#[derive(Clone, Copy)]
pub(crate) struct Weight {
    /// The least weight at this position. It depends on the weight that the actor has at the end of
    /// the body, which was passed to [`Weight::at_end`].
    pub(crate) number: u64,
    /// How much the weight at the end of the body may increase while the weight at this position
    /// stays the same.
    pub(crate) slack: u64,
}

impl Weight {
    /// Creates the weight at the end of a body, where the actor weighs `number`.
    pub(crate) fn at_end(number: u64) -> Weight
        ensures { result.number ≡ number }
    {
        Weight { number, slack: 0 }
    }

    /// Returns this weight, raised to `need` if it is smaller.
    pub(crate) fn at_least(self, need: u64) -> Weight
        ensures { need ≤ result.number }
    {
        let missing = need.saturating_sub(self.number);
        Weight {
            number: self.number.max(need),
            slack: self.slack.saturating_add(missing),
        }
    }

    /// Returns the weight before a submit, given this weight after the submit. `job` is the weight
    /// of the queued job.
    pub(crate) fn plus(self, job: u64) -> Weight
        ensures { self.number ≤ result.number }
    {
        Weight {
            number: self.number.saturating_add(job),
            slack: self.slack,
        }
    }

    /// Returns the weight before an event that gives the weight `back` to the actor, given this
    /// weight after the event. The event is a get, or the start of a job by a worker that has
    /// weight. The result is 0 if `back` is larger than this weight.
    pub(crate) fn less(self, back: u64) -> Weight
        ensures { result.number ≤ self.number }
    {
        let missing = back.saturating_sub(self.number);
        Weight {
            number: self.number.saturating_sub(back),
            slack: self.slack.saturating_add(missing),
        }
    }
}
