//! What a part of a call answers.

use lock_floor::{ReleaseAt, TakeAt};
use lock_model::{Reversal, ThreadNo};

/// What the caller is to do next.
#[derive(Clone, Copy, Debug, PartialEq, Eq)]
pub enum Next {
    /// Nothing: the call is done, and the pass is at rest.
    Done,
    /// Go on with the call, maybe after a pause.
    Again,
    /// Sleep until the own wait word says that the thread was woken, or for a while, and then go on with the call.
    Sleep,
    /// End the sleep of that thread, which was marked, and then go on with the call.
    Wake(ThreadNo),
    /// Nothing: the order of locks refused the take. That is noted, the pass is at rest, and nothing is owed.
    Reversed(Reversal),
    /// Nothing: the take's sleep was ended by an abort, and the lock wasn't gained. That is noted, the pass is at rest,
    /// and nothing is owed. It comes of an sx lock alone.
    Halted,
}

/// Where a take stands behind a part of it.
#[derive(Clone, Copy, Debug, PartialEq, Eq)]
pub enum TakeNext {
    /// Nowhere: the lock is gained, which is still to be noted.
    Gained,
    /// There.
    At(TakeAt),
    /// There, and the sleep of that thread is to be ended, which was woken.
    Wake(ThreadNo, TakeAt),
}

/// Where a release stands behind a part of it.
#[derive(Clone, Copy, Debug, PartialEq, Eq)]
pub enum ReleaseNext {
    /// Nowhere: it is done.
    Done,
    /// There.
    At(ReleaseAt),
    /// Where it wakes, and the sleep of that thread is to be ended, which was marked.
    Wake(ThreadNo),
}
