//! The call of a lock that a thread is in the middle of. Its parts never wait: where one can't go on at once, the call
//! stands where it is and is gone on with later, as a thread of a kernel that blocks leaves a continuation. What it
//! needs then is here. The crate of those calls says what each place of a call means.

use crate::queues::HaltAt;
use lock_model::{LockNo, Mode};
use prio_lending::Walk;

/// Which call of a lock is under way, and where in it the thread is.
#[derive(Clone, Copy, Debug, PartialEq, Eq)]
pub enum Call {
    /// None.
    None,
    /// A take of a lock in a mode.
    Take {
        l: LockNo,
        mode: Mode,
        at: TakeAt,
    },
    /// A try of a lock in a mode.
    Try {
        l: LockNo,
        mode: Mode,
        at: TryAt,
    },
    /// A release of a lock that was held in a mode.
    Release {
        l: LockNo,
        mode: Mode,
        at: ReleaseAt,
    },
}

/// Where in a take the thread is.
#[derive(Clone, Copy, Debug, PartialEq, Eq)]
pub enum TakeAt {
    /// Its first exchange missed, or the thread holds a lock: it takes the class graph, checks its lock's order, and
    /// gives the graph back.
    Checks,
    /// In an acquiring round: so many more times it looks, and tries where it sees the lock admit it; then it takes the
    /// lock's chain.
    Spins(u32),
    /// It has the lock's chain out, and takes its own record.
    ComesIn,
    /// It has both out and is ready for the lock's queue, and saw this word last: it gains the lock, or comes to stand
    /// on the queue.
    Contends(u64),
    /// It stands on the queue, and its walk is there: it makes the next hop, or where the walk has ended counts itself
    /// out.
    Walks(Walk),
    /// The same within that hop: it has the chain of turnstiles out.
    Hops(Walk),
    /// It has counted itself out, and that left nobody awake: it halts others.
    Halts(HaltAt),
    /// It has counted itself out: it runs again, if it was woken.
    Sleeps,
}

/// Where in a try the thread is: its first exchange missed, and found a word that admits the mode.
#[derive(Clone, Copy, Debug, PartialEq, Eq)]
pub enum TryAt {
    /// In its round: so many more times it looks, and tries where it sees the lock admit it; then it takes the lock's
    /// chain.
    Tries(u32),
    /// It has the lock's chain out, and takes its own record.
    ComesIn,
    /// It has both out, and saw this word last: it gains the lock, or finds it busy.
    Decides(u64),
}

/// Where in a release, which is noted already, the thread is.
#[derive(Clone, Copy, Debug, PartialEq, Eq)]
pub enum ReleaseAt {
    /// Of a shared hold: an exchange missed, and found this word, from which it may still be put down by one.
    Drops(u64),
    /// An exchange missed, and the lock may have to be opened: it takes the lock's chain.
    ComesTo,
    /// It has the lock's chain out, and takes its own record.
    ComesIn,
    /// It has both out, and saw this word last: it makes the lock free.
    Frees(u64),
    /// The lock is free: it wakes those whom it took off the queue.
    Wakes,
}
