//! The hook that a check or a search on threads calls before it works on a pool.

/// A hook that a check or a search on threads calls before it works on a pool. A check tests the
/// conditions for the pool, and a search looks for the pool's vectors. With the hook, a test can
/// observe which pools are processed concurrently, and a service can stop the check or the search.
/// No lock is held during the call.
pub trait PoolGate: Sync {
    /// Returns whether the check or the search may continue with the pool at this index. If the
    /// result is `false` for any pool, a check ends with
    /// [`CheckFault::Gate`](crate::CheckFault::Gate), and a search with a fault of its own.
    fn begin(&self, pool: usize) -> bool;
}
