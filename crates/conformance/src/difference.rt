//! Differences between a recorded pool and the plan's pool, and their texts.

ghost use Rattle.std.specs.Prelude.{◌≡◌, Some};
ghost use Rattle.recordings.specs.LineText.{queue_word};
ghost use Rattle.conformance.specs.Difference as spec;

use recordings::QueueKind;
use std::fmt;

/// A difference between a recorded pool and the pool of the plan with the same name.
///
/// It formats as a short phrase without the pool's name, such as `max 20, plan 10`.
#[derive(Clone, Copy, PartialEq, Eq, Hash)]
pub enum Difference {
    /// The core pool size, in threads.
    Core { recorded: u64, planned: u64 },
    /// The maximum pool size, in threads.
    Max { recorded: u64, planned: u64 },
    /// The recorded pool has this maximum size, in threads, but the plan gives no maximum.
    BoundedMax { recorded: u64 },
    /// The kind of the recorded queue, if it is not the kind of the plan's queue. In a plan, an
    /// unbounded queue is linked, and a queue with capacity 0 is synchronous. Any other queue is an
    /// array queue or a linked queue.
    KindOfQueue(QueueKind),
    /// The capacity of the queue, in jobs.
    Capacity { recorded: u64, planned: u64 },
    /// The recorded queue has this capacity, in jobs, but the plan's queue is unbounded.
    BoundedQueue { recorded: u64 },
    /// The recorded core threads may time out, but those of the plan's pool never do.
    CoreTimeout,
    /// The recorded core threads never time out, but those of the plan's pool may.
    NoCoreTimeout,
    /// The number of threads that the pool had when its recording began. The planned number is the
    /// core size for a pool with `prestart`, and 0 for any other pool.
    Prestarted { recorded: u64, planned: u64 },
}

impl fmt::Display for Difference {
    ghost output = { λ difference. Some (spec.difference_text difference) };

    fn fmt<W: fmt::Write>(&self, f: &mut fmt::Formatter<W>) -> fmt::Result {
        match *self {
            Difference::Core { recorded, planned } => {
                write!(f, "core {recorded}, plan {planned}")
            }
            Difference::Max { recorded, planned } => { write!(f, "max {recorded}, plan {planned}") }
            Difference::BoundedMax { recorded } => write!(f, "max {recorded}, plan unbounded"),
            Difference::KindOfQueue(kind) => {
                let word = kind_word(kind);
                write!(f, "queue of another kind ({word})")
            }
            Difference::Capacity { recorded, planned } => {
                write!(f, "queue {recorded}, plan {planned}")
            }
            Difference::BoundedQueue { recorded } => write!(f, "queue {recorded}, plan unbounded"),
            Difference::CoreTimeout => write!(f, "core threads may time out"),
            Difference::NoCoreTimeout => {
                write!(f, "core threads never time out, plan core_timeout = true")
            }
            Difference::Prestarted { recorded, planned } => {
                write!(f, "{recorded} threads prestarted, plan {planned}")
            }
        }
    }
}

/// Returns the word for this kind of queue in a `pool` line.
fn kind_word(kind: QueueKind) -> &'static str
    ensures { result.now ≡ queue_word kind }
{
    match kind {
        QueueKind::Array => "array",
        QueueKind::Linked => "linked",
        QueueKind::Synchronous => "synchronous",
        QueueKind::Priority => "priority",
        QueueKind::Other => "other",
    }
}
