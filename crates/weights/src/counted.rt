//! The rule that decides which gets are counted. A counted get can block a thread that other jobs
//! need.

ghost use Rattle.std.specs.Prelude.{◌≡◌, ℕ, Bool};

/// A rule that decides which gets are counted, such as [`RanksOf`](crate::RanksOf). A counted get
/// can block a thread that other jobs need. A get need not be counted if its job depends only on
/// pools of lower ranks.
///
/// In the blocked vector of a pool, a job of the pool weighs at least 1 at each counted get. So the
/// vector bounds the number of the pool's jobs that wait at counted gets.
pub trait Counted {
    // Whether the rule has an answer for this position of this class.
    ghost Answers: { Self → ℕ → ℕ → Type 0 };

    // Whether the action at this position of this class is a counted get.
    ghost is_counted: { Self → ℕ → ℕ → Bool };

    /// Returns whether the action at `position` of the class's body is a counted get.
    fn counted(&self, class: usize, position: usize) -> bool
        requires { Answers self.now class position }
        ensures { result ≡ is_counted self.now class position };
}
