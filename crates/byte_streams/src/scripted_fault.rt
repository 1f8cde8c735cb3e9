//! A planned failure of a stream in memory, for tests.
ghost use Rattle.std.specs.Prelude.{◌≡◌, ◌-◌, None, Some, IsTrue, ◌↔◌};
ghost use Rattle.byte_streams.specs.ScriptedFault.{calls_after};

/// The failure that a test plans for a stream. `calls_before` is the number of calls that are still
/// to come before the call that must fail. It is `None` if no later call must fail.
#[derive(Clone, Copy)]
pub(crate) struct ScriptedFault {
    pub(crate) calls_before: Option<u64>,
}

impl ScriptedFault {
    pub(crate) const fn never() -> ScriptedFault
        ensures { result.calls_before ≡ None }
    {
        ScriptedFault { calls_before: None }
    }

    pub(crate) const fn after(calls: u64) -> ScriptedFault
        ensures { result.calls_before ≡ Some calls }
    {
        ScriptedFault {
            calls_before: Some(calls),
        }
    }

    /// Counts one call of the stream, and returns whether this call must fail. Returns `true` at
    /// most once.
    pub(crate) fn is_due(&mut self) -> bool
        ensures due { IsTrue result ↔ (self.old.calls_before ≡ Some 0) }
        ensures left { self.new.calls_before ≡ calls_after self.old.calls_before }
    {
        match self.calls_before {
            None => false,
            Some(0) => {
                self.calls_before = None;
                true
            }
            Some(calls) => {
                self.calls_before = Some(calls - 1);
                false
            }
        }
    }
}
