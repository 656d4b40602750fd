//! A thread of a run that is made again from its history: what it has yet to do, and what it holds.

use crate::book::HeldSince;
use crate::places::word_at;
use crate::verbs::Role;
use std::alloc::{AllocError, Global};

/// An operation of a thread, with its line.
#[derive(Clone, Copy)]
pub struct Operation<'a> {
    pub line: u32,
    pub text: &'a str,
    pub role: Role,
}

impl<'a> Operation<'a> {
    /// The lock, or what is slept on.
    pub fn name(self) -> &'a str {
        word_at(self.text, 1)
    }
}

/// A lock that a thread holds, and the ticket of the entry that says that it gained it.
#[derive(Clone, Copy)]
pub struct Hold<'a> {
    pub lock: &'a str,
    pub line: u32,
    pub ticket: u64,
}

/// A sleep that a halt ended.
#[derive(Clone, Copy)]
pub struct Halt<'a> {
    /// The wait, or the take of an sx lock.
    pub operation: Operation<'a>,
    /// The ticket of the thread's entry before: of a wait that is the one that says that it sleeps.
    pub since: Option<u64>,
    /// That of the entry that says that it was halted.
    pub ticket: u64,
}

/// A thread.
#[derive(Drop)]
pub struct Actor<'a> {
    pub name: &'a str,
    // What it has yet to do, the next at the end.
    left: Vec<Operation<'a>>,
    pub holds: Vec<Hold<'a>>,
    /// The ticket of its last entry.
    pub last: Option<u64>,
    /// The wait in which it is, and whether it was woken from that.
    pub asleep: Option<Operation<'a>>,
    pub is_woken: bool,
    /// It was refused a lock or halted, and makes no operation more.
    pub is_cut: bool,
    pub halted: Option<Halt<'a>>,
}

impl<'a> Actor<'a> {
    /// A thread with nothing to do yet.
    pub fn new(alloc: Global, name: &'a str) -> Actor<'a> {
        Actor {
            name,
            left: Vec::new(alloc),
            holds: Vec::new(alloc),
            last: None,
            asleep: None,
            is_woken: false,
            is_cut: false,
            halted: None,
        }
    }

    /// An operation more, behind those before it.
    pub fn add(&mut self, operation: Operation<'a>) -> Result<(), AllocError> {
        self.left.push(operation)?;
        Ok(())
    }

    /// All operations are known.
    pub fn begin(&mut self) {
        self.left.reverse();
    }

    /// The operation that comes next. The end of a block takes no turn, so none is.
    pub fn coming(&self) -> Option<Operation<'a>> {
        self.left
            .iter()
            .rev()
            .find(|o| o.role != Role::EndsTry)
            .copied()
    }

    /// The same, which is made.
    pub fn go_on(&mut self) -> Option<Operation<'a>> {
        for _ in 0..self.left.len() {
            let operation = self.left.pop()?;
            if operation.role != Role::EndsTry {
                return Some(operation);
            }
        }
        None
    }

    /// A try that found its lock busy: it goes on behind the block.
    pub fn skip_block(&mut self) {
        let _ = self.go_on();
        let mut open: usize = 1;
        for _ in 0..self.left.len() {
            let Some(operation) = self.left.pop() else {
                return;
            };
            match operation.role {
                Role::Tries(_, _) => open = open.saturating_add(1),
                Role::EndsTry => open = open.saturating_sub(1),
                Role::Declares(_)
                | Role::Begins
                | Role::Ends
                | Role::Schedules
                | Role::Finishes
                | Role::Takes(_, _)
                | Role::Releases(_, _)
                | Role::Edits
                | Role::Reads
                | Role::SetsPriority
                | Role::Shows
                | Role::Waits(_)
                | Role::Wakes(_)
                | Role::Sleeps
                | Role::WakesKey
                | Role::Posts
                | Role::Passes => {}
            }
            if open == 0 {
                return;
            }
        }
    }

    /// It was halted in its sleep, by the entry of that ticket, and is cut.
    pub fn halt(&mut self, operation: Operation<'a>, ticket: u64) {
        let since = self.last;
        self.asleep = None;
        self.is_cut = true;
        self.halted = Some(Halt {
            operation,
            since,
            ticket,
        });
    }

    /// It has gained a lock.
    pub fn gain(&mut self, hold: Hold<'a>) -> Result<(), AllocError> {
        self.holds.push(hold)?;
        Ok(())
    }

    /// It has released one.
    pub fn release(&mut self, lock: &str) {
        if let Some(place) = self.holds.iter().position(|h| h.lock == lock) {
            self.holds.remove(place);
        }
    }
}
