//! What a run leaves to be printed.

use crate::history::History;
use crate::tables::Tables;
use lock_model::{Prio, QueueName, Sequence, ThreadNo};

/// How a run ended. It is the last line of the text.
///
/// ```
/// let last = Last::Stuck;
/// ```
#[derive(Clone, Copy, Debug, PartialEq, Eq)]
pub enum Last {
    /// Every thread has ended, and no take was refused: `ok`.
    Done,
    /// Nobody could go on: `stuck`.
    Stuck,
    /// Every thread has ended, but a take was refused for its order: `reversed`.
    Reversed,
    /// The turns were used up: `toolong`.
    TooLong,
}

/// A queue that isn't empty in the end.
///
/// ```
/// let line = QueueLine {
///     q: QueueName::Lock(LockNo(0)),
///     slot: 0,
///     head: ThreadNo(1),
///     free: Sequence::from_vec(Vec::new(alloc)),
///     excl: Sequence::from_vec(vec![in alloc; (ThreadNo(1), Prio(50))]?),
///     shared: Sequence::from_vec(Vec::new(alloc)),
/// };
/// ```
#[derive(Drop, Debug)]
pub struct QueueLine {
    /// What the queue belongs to.
    pub q: QueueName,
    /// The slot of its chain.
    pub slot: u32,
    /// The thread whose object is the head.
    pub head: ThreadNo,
    /// Those whose objects are on the free list, the first of it first.
    pub free: Sequence<ThreadNo>,
    /// The exclusive waiters from the front, with the priorities that are kept for them.
    pub excl: Sequence<(ThreadNo, Prio)>,
    /// The shared waiters, likewise.
    pub shared: Sequence<(ThreadNo, Prio)>,
}

/// What a run leaves.
///
/// ```
/// let text = print(alloc, &plan, &outcome)?;
/// ```
#[derive(Drop, Debug)]
pub struct Outcome {
    /// The entries that the threads made.
    pub history: History,
    /// The queues that aren't empty: those of locks by number, and then those of channels.
    pub queues: Sequence<QueueLine>,
    /// Each thread's base and effective priority, in order of declaration.
    pub finals: Sequence<(Prio, Prio)>,
    /// The tables of the locks.
    pub tables: Tables,
    /// How the run ended.
    pub last: Last,
}
