//! The limits of plans, certificates, texts, searches and runs. Parsers, checks and messages share
//! them.
//!
//! A *counterexample* is a list of events after which a plan refuses a job, or after which some
//! jobs wait only for each other. A *run* executes a plan on real threads.

ghost use Rattle.std.specs.Prelude.{◌≡◌};
ghost use Rattle.job_bodies.specs.WellFormed.{is_within};

/// The maximum number of pools of a plan.
pub const MAX_POOLS: usize = 64;
/// The maximum number of classes of a plan.
pub const MAX_CLASSES: usize = 256;
/// The maximum number of client kinds of a plan.
pub const MAX_CLIENT_KINDS: usize = 256;
/// The maximum number of actions of a body. The minimum is 0.
pub const MAX_ACTIONS: usize = 256;
/// The maximum of each of these numbers: the core size, the maximum and the queue capacity of a
/// pool, and the count of a client kind. The minimum is 1. A queue capacity can also be 0 if the
/// pool may reject jobs.
pub const MAX_SIZE: u64 = 1_000_000;
/// The `max` of a pool for which the plan sets no maximum: 2^28 - 1. The queue of such a pool is
/// unbounded, and its core threads may time out. No system has room for that many threads. Java's
/// `ThreadPoolExecutor` allows up to 2^29 - 1.
pub const MAX_THREADS: u64 = 268_435_455;
/// The maximum number of units of a `Work` action. The minimum is 1.
pub const MAX_WORK: u64 = 1_000_000;
/// The maximum length of a name, in bytes. The minimum is 1.
pub const MAX_NAME_BYTES: usize = 32;

/// The maximum of each number in a certificate: a weight, a rank, a reach or a level. The minimum
/// is 0.
pub const MAX_WEIGHT: u64 = 1_000_000_000;

/// The maximum length of a plan's text, in bytes.
pub const MAX_PLAN_BYTES: usize = 1_048_576;
/// The maximum length of a certificate's text, in bytes.
pub const MAX_CERT_BYTES: usize = 1_048_576;
/// The maximum length of all event lines of a replay together, in bytes.
pub const MAX_EVENT_BYTES: usize = 1_048_576;
/// The maximum length of a whole input, in bytes. An input has a plan, a separator line, and either
/// event lines or a certificate. The program reads at most one byte more, to detect an input that
/// is too long.
pub const MAX_INPUT_BYTES: usize = 2_097_155;
/// The maximum length of a whole input that contains a recording, in bytes.
pub const MAX_RECORDED_BYTES: usize = 268_435_456;
/// The maximum number of rounds in a recording. A round is one pass of a client through its body.
/// Rounds are numbered from 0 to [`MAX_LINE_NUMBER`](support::MAX_LINE_NUMBER).
pub const MAX_RECORDED_ROUNDS: u64 = 1_000_000_001;

/// The maximum number of threads of a search or a check. The minimum is 1.
pub const MAX_WORKERS: u64 = 64;
/// The default number of threads of a search or a check.
pub const DEFAULT_WORKERS: u64 = 4;
/// The maximum number of states that a search for a counterexample may visit. The minimum is 1.
pub const MAX_STATES: u64 = 10_000_000;
/// The default number of states that a search for a counterexample may visit.
pub const DEFAULT_STATES: u64 = 100_000;

/// The maximum number of rounds of each repeating client, when a plan is executed on real threads.
/// A round is one pass of the client through its body. The minimum is 1.
pub const MAX_ROUNDS: u64 = 1_000_000;
/// The maximum number of clients of a plan that is executed on real threads.
pub const MAX_RUN_CLIENTS: u64 = 64;
/// The maximum number of threads that all pools may have together, when a plan is executed on real
/// threads.
pub const MAX_RUN_CARRIERS: u64 = 64;
/// The maximum number of events, when a plan is executed on real threads. Before the execution
/// starts, an upper bound of the number of events is computed from the plan and compared with this
/// limit.
pub const MAX_RUN_EVENTS: u64 = 1_000_000;

/// Returns true if `n` is from `low` to `high`, both included.
pub fn is_within(low: u64, high: u64, n: u64) -> bool
    ensures { result ≡ is_within low high n }
{
    low <= n && n <= high
}
