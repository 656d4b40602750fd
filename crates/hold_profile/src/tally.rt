//! What is counted of one lock: its line, of the sections that have ended, and those that are open.
ghost use Rattle.std.specs.Prelude.{◌≡◌, ℕ, ◌+◌, ◌^◌, ◌<◌, ◌≤◌, [], ◌∷◌, ◌++◌, max, not, length, filter, sum_by, OnOk, slice_index_or, ◌≢◌};
ghost use Rattle.std.specs.List.{All};
ghost use Rattle.hold_profile.specs.Profiles.{greatest_by};
ghost use Rattle.hold_profile.specs.Counting.{no_line, lasted, lasted_by, is_by, with_lengths, line_after, open_after, Fits};

use crate::events::AtLock;
use crate::lines::LockLine;
use lock_model::{LockNo, ThreadNo};
use std::alloc::{AllocError, Global};

/// A section that is open: its thread, and the ticket of the entry that began it.
#[derive(Clone, Copy)]
pub struct OpenSection {
    pub thread: ThreadNo,
    pub since: u32,
}

/// What was counted of a lock so far.
#[derive(Drop)]
pub struct Tally {
    /// Its line, with the lengths of the sections that have ended.
    pub line: LockLine,
    /// Those that are open, in the order in which they began.
    pub sections: Vec<OpenSection>,
}

impl Tally {
    /// Nothing yet.
    pub fn none(alloc: Global) -> Tally
        ensures line { result.line ≡ no_line }
        ensures sections { result.sections.items ≡ [] }
    {
        Tally {
            line: LockLine {
                holds: 0,
                total: 0,
                longest: 0,
                together: 0,
                busy: 0,
                waits: 0,
                halted: 0,
            },
            sections: Vec::new(alloc),
        }
    }

    /// Counts an entry of a thread.
    pub fn note(&mut self, what: AtLock, thread: ThreadNo, ticket: u32) -> Result<(), AllocError>
        requires since { All (λ o. o.since ≤ ticket) self.old.sections.items }
        requires fits { Fits
            (line_after what thread.0 ticket self.old.sections.items self.old.line) }
        requires room { length self.old.sections.items + 1 < 2 ^ 32 }
        ensures line { OnOk result (self.new.line
            ≡ line_after what thread.0 ticket self.old.sections.items self.old.line) }
        ensures sections { OnOk result (self.new.sections.items
            ≡ open_after what thread.0 ticket self.old.sections.items) }
    {
        match what {
            AtLock::Begins => self.begin(thread, ticket),
            AtLock::Ends => {
                self.end(thread, ticket);
                Ok(())
            }
            AtLock::Leaves => {
                self.end(thread, ticket);
                self.line.waits += 1;
                Ok(())
            }
            AtLock::FindsBusy => {
                self.line.busy += 1;
                Ok(())
            }
            AtLock::IsHalted => {
                self.line.halted += 1;
                Ok(())
            }
        }
    }

    // A section of a thread begins, with the entry of that ticket.
    fn begin(&mut self, thread: ThreadNo, ticket: u32) -> Result<(), AllocError>
        requires holds { self.old.line.holds + 1 < 2 ^ 32 }
        requires room { length self.old.sections.items + 1 < 2 ^ 32 }
        ensures line { OnOk result (self.new.line ≡ record self.old.line {
          holds = self.old.line.holds + 1;
          together = max self.old.line.together (length self.old.sections.items + 1);
        }) }
        ensures sections { OnOk result (self.new.sections.items
            ≡ self.old.sections.items ++ record { thread = thread; since = ticket } ∷ []) }
    {
        self.sections.push(OpenSection {
            thread,
            since: ticket,
        })?;
        self.line.holds += 1;
        self.line.together = self.line.together.max(self.sections.len() as u32);
        Ok(())
    }

    // The sections of a thread end, with the entry of that ticket.
    fn end(&mut self, thread: ThreadNo, ticket: u32)
        requires since { All (λ o. o.since ≤ ticket) self.old.sections.items }
        requires total { self.old.line.total
            + sum_by (lasted_by thread.0 ticket) self.old.sections.items < 2 ^ 64 }
        ensures line { self.new.line
            ≡ with_lengths (lasted_by thread.0 ticket) self.old.sections.items self.old.line }
        ensures sections { self.new.sections.items
            ≡ filter (λ o. not (is_by thread.0 o)) self.old.sections.items }
    {
        end_sections(&mut self.line, self.sections.as_slice(), thread, ticket);
        self.sections.retain(|o| thread.0 != o.thread.0);
    }

    /// The line, with the lengths of the sections that don't end, where the history has so many entries.
    pub fn finish(&self, entries: u32) -> LockLine
        requires since { All (λ o. o.since ≤ entries) self.now.sections.items }
        requires total { self.now.line.total
            + sum_by (lasted entries) self.now.sections.items < 2 ^ 64 }
        ensures { result ≡ with_lengths (lasted entries) self.now.sections.items self.now.line }
    {
        let mut line = self.line;
        for o in &self.sections {
            add_length(&mut line, entries - o.since);
        }
        line
    }
}

// Adds the lengths of a thread's open sections, which end with the entry of that ticket.
fn end_sections(line: &mut LockLine, sections: &[OpenSection], thread: ThreadNo, ticket: u32)
    requires since { All (λ o. o.since ≤ ticket) sections.now }
    requires total { line.old.total + sum_by (lasted_by thread.0 ticket) sections.now < 2 ^ 64 }
    ensures { line.new ≡ with_lengths (lasted_by thread.0 ticket) sections.now line.old }
{
    for o in sections {
        add_length(line, lasted_by(*o, thread, ticket));
    }
}

// How long a section has lasted when the entry of that ticket comes, if it is the thread's, and else 0.
fn lasted_by(o: OpenSection, thread: ThreadNo, ticket: u32) -> u32
    requires { o.since ≤ ticket }
    ensures { result ≡ lasted_by thread.0 ticket o }
{
    if thread == o.thread {
        ticket - o.since
    } else {
        0
    }
}

// Adds the length of a section that has ended.
fn add_length(line: &mut LockLine, length: u32)
    requires { line.old.total + length < 2 ^ 64 }
    ensures { line.new ≡ record line.old {
      total = line.old.total + length;
      longest = max line.old.longest length;
    } }
{
    line.total += u64::from(length);
    line.longest = line.longest.max(length);
}

/// Counts an entry of a thread, of a lock, in the lock's tally, if there is one.
pub fn note_lock(
    tallies: &mut Vec<Tally>,
    l: LockNo,
    what: AtLock,
    thread: ThreadNo,
    ticket: u32,
) -> Result<(), AllocError>
    requires since { (d : _) → l.0 < length tallies.old.items
        → All (λ o. o.since ≤ ticket) (slice_index_or tallies.old.items l.0 d).sections.items }
    requires fits { (d : _) → l.0 < length tallies.old.items
        → Fits (line_after what thread.0 ticket
        (slice_index_or tallies.old.items l.0 d).sections.items
        (slice_index_or tallies.old.items l.0 d).line) }
    requires room { (d : _) → l.0 < length tallies.old.items
        → length (slice_index_or tallies.old.items l.0 d).sections.items + 1 < 2 ^ 32 }
    ensures len { length tallies.new.items ≡ length tallies.old.items }
    ensures others { (k : ℕ) (d : _) → k ≢ l.0
        → slice_index_or tallies.new.items k d ≡ slice_index_or tallies.old.items k d }
    ensures line { OnOk result ((d : _) → l.0 < length tallies.old.items
        → (slice_index_or tallies.new.items l.0 d).line
        ≡ line_after what thread.0 ticket (slice_index_or tallies.old.items l.0 d).sections.items
        (slice_index_or tallies.old.items l.0 d).line) }
    ensures sections { OnOk result ((d : _) → l.0 < length tallies.old.items
        → (slice_index_or tallies.new.items l.0 d).sections.items
        ≡ open_after what thread.0 ticket (slice_index_or tallies.old.items l.0 d).sections.items) }
{
    match tallies.get_mut(usize::from(l.0)) {
        Some(tally) => tally.note(what, thread, ticket),
        None => Ok(()),
    }
}
