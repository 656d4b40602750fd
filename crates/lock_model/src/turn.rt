//! What a turn of the scheduled run answers.

/// What a turn did.
///
/// ```
/// let kind = StepKind::Gain;
/// ```
#[derive(Clone, Copy, Debug, PartialEq, Eq, Hash)]
pub enum StepKind {
    /// Gained a lock whose word admits the thread.
    Gain,
    /// Gained a free mutex or reader-writer lock that shows waiters. The thread owns their turnstile then, and
    /// they lend it their best priority.
    Claim,
    /// Released a lock that shows no waiters, or that another thread shares.
    Drop,
    /// Blocked on a lock: the thread lent its turnstile or sleep queue to the lock's queue and stands in it.
    Enter,
    /// Released a lock that shows waiters, and took those of one side off its queue, to be woken one by one.
    OpenUp,
    /// Woke the first of the waiters that the thread took off, which got an object back.
    Mark,
    /// Runs again after having been woken.
    Resume,
    /// Lent the best waiting priority to the owner of the lock at which the thread's walk stood.
    Lend,
    /// Sorted the thread at which the walk stood anew among the waiters of its queue.
    Shift,
    /// Ended a walk that had nothing to lend or to sort.
    WalkEnd,
    /// Went to sleep on a condition variable or channel.
    Add,
    /// Took sleepers off a condition variable or channel, to be woken one by one.
    Wake,
    /// Made an entry, and changed no lock and no queue.
    Note,
}

/// What became of a turn.
///
/// ```
/// let turn = Turn::Did(StepKind::Gain);
/// ```
#[derive(Clone, Copy, Debug, PartialEq, Eq, Hash)]
pub enum Turn {
    /// The thread made a step.
    Did(StepKind),
    /// The thread stands on a queue and owes nothing, and nothing changed.
    Idle,
    /// The thread has ended: its operations are done, it owes nothing and it holds nothing. Nothing changed.
    Ended,
}
