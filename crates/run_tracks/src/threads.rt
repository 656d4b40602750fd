//! What a thread was between turns.

use crate::track::{Noted, Track};
use lock_model::{Mode, Prio, QueueName, Sequence};
use lock_objects::Wait;
use prio_lending::Walk;

/// What a thread was in a row, but for what it held.
#[derive(Clone, Copy, Debug, PartialEq, Eq)]
pub struct ThreadRow {
    /// Its base priority.
    pub base: Prio,
    /// Its effective priority: the better of the base and all that was lent.
    pub effective: Prio,
    /// Whether it ran, was queued or was woken.
    pub wait: Wait,
    /// The queue that its record named.
    pub blocked_on: Option<QueueName>,
    /// The queue in whose lists it stood.
    pub stands_on: Option<QueueName>,
    /// Where its lending walk stood.
    pub walk: Walk,
    /// Whether it had come to its end.
    pub ended: bool,
}

impl Noted for ThreadRow {
    fn is(self, other: ThreadRow) -> bool {
        self.base.is(other.base)
            && self.effective.is(other.effective)
            && self.wait.is(other.wait)
            && self.blocked_on.is(other.blocked_on)
            && self.stands_on.is(other.stands_on)
            && self.walk.is(other.walk)
            && self.ended == other.ended
    }
}

/// What a thread was in each row.
#[derive(Drop)]
pub struct ThreadRows {
    /// All but what it held.
    pub row: Track<ThreadRow>,
    /// By lock: the mode in which it held the lock.
    pub held: Sequence<Track<Option<Mode>>>,
}
