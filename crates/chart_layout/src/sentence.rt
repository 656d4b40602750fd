//! What is said below a chart: one sentence for each turn that changes who waits or who has lent, and one for the end.
//! A sentence is its kind and the numbers of those it speaks of; a form makes words of it.

use lock_model::{ChanNo, ClassNo, LockNo, Prio, QueueName, Sequence, ThreadNo};

/// What happened in a turn.
///
/// ```
/// let sentence = Sentence {
///     turn: 5,
///     thread: ThreadNo(2),
///     saying: Saying::Sorts { other: ThreadNo(1), lock: LockNo(0) },
/// };
/// ```
#[derive(Drop, Debug)]
pub struct Sentence {
    pub turn: u32,
    /// Whose turn it was.
    pub thread: ThreadNo,
    pub saying: Saying,
}

/// What is said of a thread's turn.
///
/// ```
/// let sorts = Saying::Sorts { other: ThreadNo(1), lock: LockNo(0) };
/// ```
#[derive(Drop, Debug)]
pub enum Saying {
    /// It waits for a lock, which these hold. Where it would share a lock that readers hold, a writer came first.
    Waits {
        lock: LockNo,
        holders: Sequence<ThreadNo>,
        behind: Option<ThreadNo>,
    },
    /// Its walk lent to the owner of the lock, which ran as `before` and runs as `prio` now; the walk goes on or is
    /// over.
    Lends {
        to: ThreadNo,
        lock: LockNo,
        before: Prio,
        prio: Prio,
        goes_on: bool,
    },
    /// Its walk sorted a thread anew among the waiters of the lock.
    Sorts {
        other: ThreadNo,
        lock: LockNo,
    },
    /// It gained the lock with those who wait, and they lend to it: it ran as `before` and runs as `prio` now.
    Claims {
        lock: LockNo,
        before: Prio,
        prio: Prio,
    },
    /// It freed the lock and took these off its queue. It ran as `before` and runs as `prio` now.
    Frees {
        lock: LockNo,
        before: Prio,
        prio: Prio,
        takes_off: Sequence<ThreadNo>,
    },
    /// It goes to sleep, and gives the lock up.
    Sleeps {
        chan: ChanNo,
        lock: LockNo,
    },
    /// It took these sleepers off the condition variable or channel, or found none.
    Wakes {
        chan: ChanNo,
        takes_off: Sequence<ThreadNo>,
    },
    /// It may not take the lock, by the class `held`, of which it holds `holds`.
    Refused {
        lock: LockNo,
        held: ClassNo,
        holds: Option<LockNo>,
    },
}

/// How a run ended.
///
/// ```
/// let end = End::TooLong;
/// ```
#[derive(Drop, Debug)]
pub enum End {
    /// All threads came to their end, and no take was refused.
    Done,
    /// Nobody could go on: these wait, each on a queue.
    Stuck {
        waits: Sequence<(ThreadNo, QueueName)>,
    },
    /// All threads came to their end, but a take was refused.
    Reversed,
    /// The turns were used up.
    TooLong,
}
