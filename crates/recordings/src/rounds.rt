//! The rounds of a recording, as the rule check stores them.

ghost use Rattle.std.specs.Prelude.{◌≡◌, ◌+◌, ℕ, OnOk, OnErr, None, Some, is_some, if◌then◌else◌, ◌==◌};
ghost use Rattle.std.specs.Option.{option_map};
ghost use Rattle.recordings.specs.StoredState.{round_at, last_submit_of_round};

use std::alloc::{AllocError, Global};
use support::IdMap;

/// The rounds in the lines read so far. A round is open if it has begun and has not ended.
///
/// - `begun` is the number of rounds that have begun.
/// - `open` has, for each open round, the job that the last line of the round submits. The job is
///   `None` if that line is not a submit. `refused` lines are ignored.
#[derive(Drop)]
pub(crate) struct Rounds {
    pub(crate) begun: usize,
    open: IdMap<Option<usize>>,
}

impl Rounds {
    /// Creates an empty set of rounds.
    pub(crate) fn new(alloc: Global) -> Rounds
        ensures begun { result.begun ≡ 0 }
        ensures going { (r : ℕ) → round_at result r ≡ None }
    {
        Rounds {
            begun: 0,
            open: IdMap::new(alloc),
        }
    }

    /// Returns true if the round has begun and has not ended.
    pub(crate) fn is_open(&self, round: usize) -> bool
        ensures { result ≡ is_some (round_at self.now round) }
    {
        self.open.contains(round)
    }

    /// Returns the job that the last line of the round submits. Ignores `refused` lines. Returns
    /// `None` if the last line is not a submit, or if the round is not open.
    pub(crate) fn last_submit(&self, round: usize) -> Option<usize>
        ensures { result ≡ last_submit_of_round (round_at self.now round) }
    {
        *self.open.get(round)?
    }

    /// Adds an open round.
    ///
    /// # Errors
    ///
    /// Returns `AllocError` if memory runs out, or if the number of rounds would overflow. The
    /// rounds are then unchanged.
    pub(crate) fn begin(&mut self, round: usize) -> Result<(), AllocError>
        ensures begun { OnOk result (self.new.begun ≡ self.old.begun + 1) }
        ensures going { OnOk result
            ((r : ℕ)
            → round_at self.new r ≡ (if round == r then Some None else round_at self.old r)) }
        ensures same_begun { OnErr result (self.new.begun ≡ self.old.begun) }
        ensures same_open { OnErr result ((r : ℕ) → round_at self.new r ≡ round_at self.old r) }
    {
        let begun = self.begun.checked_add(1).ok_or(AllocError)?;
        self.open.insert(round, None)?;
        self.begun = begun;
        Ok(())
    }

    /// Removes a round that has ended.
    pub(crate) fn end(&mut self, round: usize)
        ensures begun { self.new.begun ≡ self.old.begun }
        ensures going { (r : ℕ)
            → round_at self.new r ≡ (if round == r then None else round_at self.old r) }
    {
        self.open.remove(round);
    }

    /// Stores the job that the last line of the round submits, or `None` if that line is not a
    /// submit. Does nothing if the round is not open.
    pub(crate) fn set_last_submit(&mut self, round: usize, last_submit: Option<usize>)
        ensures begun { self.new.begun ≡ self.old.begun }
        ensures going { (r : ℕ)
            → round_at self.new r
            ≡ (if round == r then option_map (λ _. last_submit) (round_at self.old r) else round_at
            self.old r) }
    {
        if let Some(there) = self.open.get_mut(round) {
            *there = last_submit;
        }
    }
}
