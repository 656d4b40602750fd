//! A log of entries whose memory was taken when it was made, so that an entry is added without taking any.
ghost use Rattle.std.specs.Prelude.{◌≡◌, ◌+◌, ◌-◌, ◌^◌, ◌<◌, ◌≤◌, ◌==◌, ◌++◌, ◌∷◌, [], length, vec_len, IfOk};

use lock_model::{Entry, Event, Prio, ThreadNo};
use std::alloc::{AllocError, Global};
use std::marker::Model;

// What stands in a place that no entry was put in yet. It isn't all zeros: memory that is only to be zero, the system
// gives when it is first used.
const UNSEEN: Entry = Entry {
    ticket: u32::MAX,
    thread: ThreadNo(0),
    event: Event::Base { prio: Prio(0) },
};

/// A log of entries, with room for so many more.
///
/// ```
/// let mut log = Log::make(alloc, 1)?;
/// log.put(Entry { ticket: 0, thread: ThreadNo(0), event: Event::Base { prio: Prio(50) } });
/// assert_eq!(rt; (log.len(), log.spare()), (1, 0));
/// ```
#[derive(Drop, Debug)]
pub struct Log {
    entries: Vec<Entry>,
    spare: u32,
}

impl Model for Log {
    ghost use Rattle.std.specs.Prelude.{◌+◌, ◌^◌, ◌<◌, ◌≤◌, vec_len, vec_capacity};
    ghost use Rattle.lock_history.specs.Books.{Book};

    ghost Value = { Book };

    ghost view = { λ g. record {
      entries = g.entries.items;
      spare = g.spare;
    } };

    ghost invariant = { λ g. (vec_len g.entries + g.spare ≤ vec_capacity g.entries)
        × (vec_len g.entries + g.spare < 2 ^ 32) };
}

impl Log {
    /// An empty log with room for so many entries. It fails where memory runs out.
    pub fn make(alloc: Global, room: u32) -> Result<Log, AllocError>
        ensures { IfOk result (λ log. log ≡ record {
          entries = [];
          spare = room;
        }) }
    {
        Ok(Log {
            entries: Vec::with_capacity(alloc, room as usize)?,
            spare: room,
        })
    }

    /// Writes to all places that it has room for, so that the system has given their memory before the first entry
    /// comes: else the entry that is the first of a page pays for the page. No entry changes.
    pub fn touch(&mut self)
        ensures { self.new ≡ self.old }
    {
        let len = self.entries.len();
        self.entries
            .resize(len + self.spare as usize, UNSEEN)
            .unwrap();
        self.entries.truncate(len);
    }

    /// Adds an entry behind the others. It takes no memory, and needs room.
    pub fn put(&mut self, e: Entry)
        requires { 1 ≤ self.old.spare }
        ensures { self.new ≡ record {
          entries = self.old.entries ++ e ∷ [];
          spare = self.old.spare - 1;
        } }
    {
        self.entries.push(e).unwrap();
        self.spare -= 1;
    }

    /// How many entries it has room for.
    pub fn spare(&self) -> u32
        ensures { result ≡ self.now.spare }
    {
        self.spare
    }

    /// How many entries it has. Together with those that it has room for they are fewer than 2^32.
    pub fn len(&self) -> u32
        ensures len { result ≡ length self.now.entries }
        ensures bound { length self.now.entries + self.now.spare < 2 ^ 32 }
    {
        let _spare = self.spare;
        self.entries.len() as u32
    }

    /// Whether it has none.
    pub fn is_empty(&self) -> bool
        ensures { result ≡ (length self.now.entries == 0) }
    {
        self.entries.is_empty()
    }

    /// The entries, in the order in which they were added.
    pub fn as_slice(&self) -> &[Entry]
        ensures { result.now ≡ self.now.entries }
    {
        &self.entries
    }

    // The entries, in the memory that was taken for them.
    pub(crate) fn into_entries(self) -> Vec<Entry>
        ensures entries { result.items ≡ self.entries }
        ensures bound { vec_len result < 2 ^ 32 }
    {
        let _spare = self.spare;
        self.entries
    }
}
