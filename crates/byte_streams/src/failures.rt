//! A counter of the failed calls of a stream.
ghost use Rattle.std.specs.Prelude.{◌≡◌, ℕ, ◌+◌, ◌-◌, ◌^◌, min};
ghost use Rattle.std.specs.Borrow.{ftrue};

use std::marker::Model;

/// A natural number that exists only in contracts, so it takes no memory and never overflows. In
/// [`Failures`], it is the exact number of failed calls.
#[derive(Drop)]
pub(crate) struct GhostCount {
    pub ghost value: { ℕ },
}

impl Model for GhostCount {
    ghost also_owns = { λ _. ftrue };
}

impl GhostCount {
    pub(crate) fn zero() -> GhostCount
        ensures { result.value ≡ 0 }
    {
        GhostCount {}
    }

    pub(crate) fn next(&self) -> GhostCount
        ensures { result.value ≡ self.now.value + 1 }
    {
        GhostCount {}
    }
}

/// The number of failed calls of a stream. Contracts use the exact number. The program stores this
/// number, or `u64::MAX` if the number is larger.
#[derive(Drop)]
pub(crate) struct Failures {
    pub(crate) exact: GhostCount,
    seen: u64,
    ghost agree: { seen ≡ min exact.value (2 ^ 64 - 1) },
}

impl Failures {
    pub(crate) fn none() -> Failures
        ensures { result.exact.value ≡ 0 }
    {
        Failures {
            exact: GhostCount::zero(),
            seen: 0,
        }
    }

    pub(crate) fn count_failure(&mut self)
        ensures { self.new.exact.value ≡ self.old.exact.value + 1 }
    {
        self.exact = self.exact.next();
        self.seen = self.seen.saturating_add(1);
    }

    pub(crate) fn seen(&self) -> u64
        ensures { result ≡ min self.now.exact.value (2 ^ 64 - 1) }
    {
        self.seen
    }
}
