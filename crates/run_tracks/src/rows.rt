//! The rows of a run: each turn with who had it and what it answered, and the tracks of all that changes.

use crate::threads::ThreadRows;
use crate::track::Track;
use lock_history::{Outcome, QueueLine};
use lock_model::{Entry, Sequence, ThreadNo, Turn};

/// A turn of the run.
///
/// ```
/// let turn = TurnRow { who: ThreadNo(0), answer: Turn::Idle, entry: None };
/// ```
#[derive(Clone, Copy, Debug, PartialEq, Eq)]
pub struct TurnRow {
    /// Who had it.
    pub who: ThreadNo,
    /// What it answered.
    pub answer: Turn,
    /// The entry that it made, if it made one.
    pub entry: Option<Entry>,
}

/// The queues that weren't empty, by the row from which on they hold: those of the locks by number, and then those of
/// the channels.
pub type QueueRows = Track<Sequence<QueueLine>>;

/// A run, row by row. Row 0 is the begin, and row n is behind the first n turns.
#[derive(Drop)]
pub struct Rows {
    /// The turns in order: the n-th, from 0, lies between the rows n and n + 1.
    pub turns: Sequence<TurnRow>,
    /// By thread: what it was.
    pub threads: Sequence<ThreadRows>,
    /// By lock: its word.
    pub words: Sequence<Track<u64>>,
    /// The queues that weren't empty.
    pub queues: QueueRows,
    /// What the run left.
    pub outcome: Outcome,
}
