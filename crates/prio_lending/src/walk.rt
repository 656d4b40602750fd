//! Where a thread's lending walk stands.

use lock_model::{LockNo, ThreadNo};

/// Where a thread's walk stands.
#[derive(Clone, Copy, Debug, PartialEq, Eq)]
pub enum Walk {
    /// No walk is under way, or it has ended.
    None,
    /// At a lock, whose owner is still to be lent to.
    AtLock(LockNo),
    /// At a thread, which is still to be sorted anew among those who wait for the same lock.
    AtThread(ThreadNo),
}
