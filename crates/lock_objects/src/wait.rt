//! The wait word of a thread.

use lock_model::QueueName;

/// Whether a thread runs, stands on a queue or is about to be taken off it, or was woken from one.
#[derive(Clone, Copy, Debug, PartialEq, Eq)]
pub enum Wait {
    Running,
    Queued,
    Woken(QueueName),
}
