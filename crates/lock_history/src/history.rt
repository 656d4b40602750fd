//! The history of a run: its entries, in order of their tickets.
ghost use Rattle.std.specs.Prelude.{◌≡◌, ◌^◌, ◌<◌, ◌==◌, length, slice_get, vec_len};
ghost use Rattle.lock_history.specs.Tickets.{InOrder};

use crate::log::Log;
use lock_model::Entry;
use std::marker::Model;

/// A history, fewer than 2^32 entries long.
///
/// ```
/// let history = History::of_log(log);
/// for entry in history.as_slice() {
///     tables.edit(entry.event)?;
/// }
/// ```
#[derive(Drop, Debug)]
pub struct History {
    entries: Vec<Entry>,
}

impl Model for History {
    ghost use Rattle.std.specs.Prelude.{List, ◌^◌, ◌<◌, vec_len};
    ghost use Rattle.lock_model.specs.declared.event.Entry.{Entry};

    ghost Value = { List Entry };

    ghost view = { λ h. h.entries.items };

    ghost invariant = { λ h. vec_len h.entries < 2 ^ 32 };
}

impl History {
    pub(crate) fn from_vec(entries: Vec<Entry>) -> History
        requires { vec_len entries < 2 ^ 32 }
        ensures { result ≡ entries.items }
    {
        History { entries }
    }

    /// The history of a run that keeps one log for all threads, in order of the tickets, which run from 0. It
    /// takes the log's memory over, and copies nothing. `merge` makes the history of many logs.
    pub fn of_log(log: Log) -> History
        requires { InOrder log.entries }
        ensures { result ≡ log.entries }
    {
        History::from_vec(log.into_entries())
    }

    /// How many entries it has.
    pub fn len(&self) -> u32
        ensures len { result ≡ length self.now }
        ensures bound { length self.now < 2 ^ 32 }
    {
        self.entries.len() as u32
    }

    /// Whether it has none.
    pub fn is_empty(&self) -> bool
        ensures { result ≡ (length self.now == 0) }
    {
        self.entries.is_empty()
    }

    /// The entry at a place, counted from 0. There is none exactly past the end.
    pub fn at(&self, i: u32) -> Option<Entry>
        ensures { result ≡ slice_get self.now i }
    {
        self.entries.get(i as usize).copied()
    }

    /// The entries, in order of their tickets.
    pub fn as_slice(&self) -> &[Entry]
        ensures { result.now ≡ self.now }
    {
        &self.entries
    }
}
