//! Laws of submits that take the separate steps of Java's `execute`, each as the contract of an
//! empty function.

ghost use Rattle.soundness.specs.JavaSafe.{AtomicStatesAreReached};
ghost use Rattle.soundness.specs.WithRoom.{RefusedWithRoom, StartedWithRoom};

/// Proves that Java's steps reach every state that atomic submits reach. An atomic submit is one
/// event, while a submit in Java's steps is up to three. In the reached state, no call of `execute`
/// is in progress, and no look at a pool is due. In a look, Java checks whether the pool needs a
/// thread.
///
/// The reason is that the steps of a submit can follow each other directly, and so can the end of a
/// thread and the look at its pool. If core threads of a pool may time out, the plan must be
/// well-formed.
pub fn atomic_states_are_reached()
    ensures { AtomicStatesAreReached }
{}

/// States that Java can refuse a submit while the queue has room and a thread is idle. This happens
/// if the queue was full when the call of `execute` offered its job, and the pool has its maximum
/// of threads when the call then requests a thread.
pub fn java_may_refuse_with_room()
    ensures { RefusedWithRoom }
{}

/// States that Java can start a thread above core while the queue has room and a thread is idle.
/// This happens if the queue was full when the call of `execute` offered its job.
pub fn java_may_start_with_room()
    ensures { StartedWithRoom }
{}
