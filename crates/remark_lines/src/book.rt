//! What the lines above a fault have made known. They have no fault, so they are read here without tests: a line is
//! taken for what its first word says.

use crate::places::word_at;
use crate::verbs::{Role, Sort, verb_of};
use lock_model::Mode;
use std::alloc::{AllocError, Global};
use std::fmt;

/// A declared name.
#[derive(Clone, Copy)]
pub struct Named<'a> {
    pub name: &'a str,
    pub sort: Sort,
    pub line: u32,
    /// Of a lock its class, and of a condition or a channel its lock.
    pub goes_with: &'a str,
}

/// A lock that a thread holds.
#[derive(Clone, Copy)]
pub struct HeldSince<'a> {
    pub name: &'a str,
    pub mode: Mode,
    pub by_try: bool,
    pub line: u32,
}

/// The names of held locks, in order.
#[derive(Clone, Copy)]
pub struct Names<'a>(pub &'a [HeldSince<'a>]);

impl fmt::Display for Names<'_> {
    fn fmt<W: fmt::Write>(&self, f: &mut fmt::Formatter<W>) -> fmt::Result {
        for (i, held) in self.0.iter().enumerate() {
            f.write_str(if i > 0 { ", " } else { "" })?;
            f.write_str(held.name)?;
        }
        Ok(())
    }
}

/// How a lock is held, where these are held.
pub fn held_in<'a>(held: &[HeldSince<'a>], lock: &str) -> Option<HeldSince<'a>> {
    held.iter().find(|h| h.name == lock).copied()
}

/// A block that is open: where it began, and what was held before its try.
#[derive(Drop)]
pub struct Block<'a> {
    pub line: u32,
    pub before: Vec<HeldSince<'a>>,
}

/// A name and a line.
#[derive(Clone, Copy)]
pub struct At<'a> {
    pub name: &'a str,
    pub line: u32,
}

/// What is known behind some lines.
#[derive(Drop)]
pub struct Book<'a> {
    alloc: Global,
    pub ticks: bool,
    pub names: Vec<Named<'a>>,
    /// The thread that is open, and the one that ended last.
    pub open: Option<At<'a>>,
    pub ended: Option<At<'a>>,
    /// Of the open thread: what it holds in order of acquisition, what it has released, and its open blocks.
    pub held: Vec<HeldSince<'a>>,
    pub released: Vec<At<'a>>,
    pub blocks: Vec<Block<'a>>,
    /// How many operations, or events of a script of ticks, there are, and the line of the first event.
    pub operations: usize,
    pub first_event: Option<u32>,
    /// How many turns the schedule lines have.
    pub turns: usize,
    /// The line of `done`.
    pub done: Option<u32>,
}

impl<'a> Book<'a> {
    /// Nothing is known.
    pub fn new(alloc: Global, ticks: bool) -> Book<'a> {
        Book {
            alloc,
            ticks,
            names: Vec::new(alloc),
            open: None,
            ended: None,
            held: Vec::new(alloc),
            released: Vec::new(alloc),
            blocks: Vec::new(alloc),
            operations: 0,
            first_event: None,
            turns: 0,
            done: None,
        }
    }

    /// What is declared under a name.
    pub fn declared(&self, name: &str) -> Option<Named<'a>> {
        self.names.iter().find(|n| n.name == name).copied()
    }

    /// How many locks are declared.
    pub fn locks(&self) -> usize {
        self.names.iter().filter(|n| n.sort.is_lock()).count()
    }

    /// How many conditions and channels.
    pub fn channels(&self) -> usize {
        self.names.iter().filter(|n| n.sort.is_slept_on()).count()
    }

    /// How many of a sort.
    pub fn count(&self, sort: Sort) -> usize {
        self.names.iter().filter(|n| n.sort == sort).count()
    }

    /// The first of a sort.
    pub fn first(&self, sort: Sort) -> Option<Named<'a>> {
        self.names.iter().find(|n| n.sort == sort).copied()
    }

    /// How the open thread holds a lock.
    pub fn held(&self, lock: &str) -> Option<HeldSince<'a>> {
        held_in(&self.held, lock)
    }

    /// The line in which the open thread released a lock last.
    pub fn released(&self, lock: &str) -> Option<u32> {
        let mut last = None;
        for r in &self.released {
            if r.name == lock {
                last = Some(r.line);
            }
        }
        last
    }

    /// Learns a line behind the header. What an empty line or a comment begins with is no first word.
    pub fn learn(&mut self, number: u32, line: &'a str) -> Result<(), AllocError> {
        let at = At {
            name: word_at(line, 1),
            line: number,
        };
        match verb_of(self.ticks, word_at(line, 0)) {
            Some(verb) => self.learn_role(verb.role(), at, line),
            None => Ok(()),
        }
    }

    fn learn_role(&mut self, role: Role, at: At<'a>, line: &'a str) -> Result<(), AllocError> {
        if role.is_operation() || role.is_event() {
            self.operations = self.operations.saturating_add(1);
        }
        match role {
            Role::Declares(sort) => self.name(at, sort, word_at(line, 2)),
            Role::Begins => self.begin(at),
            Role::Takes(_, mode) => self.gain(at, mode, false),
            Role::Tries(_, mode) => self.try_gain(at, mode),
            Role::Releases(_, _) => self.release(at),
            Role::Ends => {
                self.end(at.line);
                Ok(())
            }
            Role::Schedules => {
                let turns = line.split(' ').count().saturating_sub(1);
                self.turns = self.turns.saturating_add(turns);
                Ok(())
            }
            Role::Finishes => {
                self.done = Some(at.line);
                Ok(())
            }
            Role::EndsTry => {
                let _ = self.blocks.pop();
                Ok(())
            }
            Role::Sleeps | Role::WakesKey | Role::Posts | Role::Passes => {
                self.first_event = Some(self.first_event.unwrap_or(at.line));
                Ok(())
            }
            Role::Edits
            | Role::Reads
            | Role::SetsPriority
            | Role::Shows
            | Role::Waits(_)
            | Role::Wakes(_) => Ok(()),
        }
    }

    // A thread begins, and is open.
    fn begin(&mut self, at: At<'a>) -> Result<(), AllocError> {
        self.open = Some(at);
        self.name(at, Sort::Thread, "")
    }

    fn name(&mut self, at: At<'a>, sort: Sort, goes_with: &'a str) -> Result<(), AllocError> {
        self.names.push(Named {
            name: at.name,
            sort,
            line: at.line,
            goes_with,
        })?;
        Ok(())
    }

    // The open thread ends.
    fn end(&mut self, line: u32) {
        self.ended = self.open.map(|thread| At {
            name: thread.name,
            line,
        });
        self.open = None;
        self.held.clear();
        self.released.clear();
        self.blocks.clear();
    }

    // The open thread gains a lock.
    fn gain(&mut self, at: At<'a>, mode: Mode, by_try: bool) -> Result<(), AllocError> {
        self.held.push(HeldSince {
            name: at.name,
            mode,
            by_try,
            line: at.line,
        })?;
        Ok(())
    }

    // A try opens a block, and gains its lock.
    fn try_gain(&mut self, at: At<'a>, mode: Mode) -> Result<(), AllocError> {
        let before = Vec::from_slice(self.alloc, self.held.as_slice())?;
        self.blocks.push(Block {
            line: at.line,
            before,
        })?;
        self.gain(at, mode, true)
    }

    // The open thread releases a lock.
    fn release(&mut self, at: At<'a>) -> Result<(), AllocError> {
        if let Some(place) = self.held.iter().position(|h| h.name == at.name) {
            self.held.remove(place);
        }
        self.released.push(at)?;
        Ok(())
    }
}
