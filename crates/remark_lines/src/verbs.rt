//! The first words of lines: what a line does that begins with one, and its form. There is a table for each sort of
//! script. What a word says for a run is the business of the readers of scripts; here it is looked up for a sentence.

use crate::places::word_at;
use lock_model::{Kind, Mode};

/// What is declared under a name.
#[derive(Clone, Copy, PartialEq, Eq)]
pub enum Sort {
    Lock(Kind),
    Condition,
    Channel,
    Thread,
    Sleeper,
}

impl Sort {
    /// With its article.
    pub fn told(self) -> &'static str {
        match self {
            Sort::Lock(Kind::Mtx) => "a mutex",
            Sort::Lock(Kind::Rw) => "an rw lock",
            Sort::Lock(Kind::Sx) => "an sx lock",
            Sort::Condition => "a condition",
            Sort::Channel => "a channel",
            Sort::Thread => "a thread",
            Sort::Sleeper => "a sleeper",
        }
    }

    /// Of several.
    pub fn plural(self) -> &'static str {
        match self {
            Sort::Lock(Kind::Mtx) => "mutexes",
            Sort::Lock(Kind::Rw) => "rw locks",
            Sort::Lock(Kind::Sx) => "sx locks",
            Sort::Condition => "conditions",
            Sort::Channel => "channels",
            Sort::Thread => "threads",
            Sort::Sleeper => "sleepers",
        }
    }

    /// Whether it is a lock.
    pub fn is_lock(self) -> bool {
        match self {
            Sort::Lock(_) => true,
            Sort::Condition | Sort::Channel | Sort::Thread | Sort::Sleeper => false,
        }
    }

    /// Whether threads sleep on it by name.
    pub fn is_slept_on(self) -> bool {
        match self {
            Sort::Condition | Sort::Channel => true,
            Sort::Lock(_) | Sort::Thread | Sort::Sleeper => false,
        }
    }
}

/// What a line does.
#[derive(Clone, Copy, PartialEq, Eq)]
pub enum Role {
    Declares(Sort),
    Begins,
    Ends,
    Schedules,
    Finishes,
    Takes(Kind, Mode),
    Tries(Kind, Mode),
    Releases(Kind, Mode),
    EndsTry,
    Edits,
    Reads,
    SetsPriority,
    Shows,
    Waits(Sort),
    Wakes(Sort),
    /// The events of a script of ticks.
    Sleeps,
    WakesKey,
    Posts,
    Passes,
}

impl Role {
    /// Whether it is an operation of a thread.
    pub fn is_operation(self) -> bool {
        match self {
            Role::Takes(_, _)
            | Role::Tries(_, _)
            | Role::Releases(_, _)
            | Role::EndsTry
            | Role::Edits
            | Role::Reads
            | Role::SetsPriority
            | Role::Shows
            | Role::Waits(_)
            | Role::Wakes(_) => true,
            Role::Declares(_)
            | Role::Begins
            | Role::Ends
            | Role::Schedules
            | Role::Finishes
            | Role::Sleeps
            | Role::WakesKey
            | Role::Posts
            | Role::Passes => false,
        }
    }

    /// Whether it is an event of a script of ticks.
    pub fn is_event(self) -> bool {
        match self {
            Role::Sleeps | Role::WakesKey | Role::Posts | Role::Passes => true,
            Role::Declares(_)
            | Role::Begins
            | Role::Ends
            | Role::Schedules
            | Role::Finishes
            | Role::Takes(_, _)
            | Role::Tries(_, _)
            | Role::Releases(_, _)
            | Role::EndsTry
            | Role::Edits
            | Role::Reads
            | Role::SetsPriority
            | Role::Shows
            | Role::Waits(_)
            | Role::Wakes(_) => false,
        }
    }
}

/// The form of a line, which begins with its first word, and what the line does. In a form words in square brackets may
/// be left out, and `..` stands for more words like the last.
#[derive(Clone, Copy)]
pub struct Verb(&'static str, Role);

impl Verb {
    pub fn form(self) -> &'static str {
        self.0
    }

    pub fn word(self) -> &'static str {
        word_at(self.0, 0)
    }

    pub fn role(self) -> Role {
        self.1
    }
}

/// The first words of a script of threads and locks.
pub const LOCK_VERBS: [Verb; 36] = [
    Verb("mutex NAME CLASS", Role::Declares(Sort::Lock(Kind::Mtx))),
    Verb("rw NAME CLASS", Role::Declares(Sort::Lock(Kind::Rw))),
    Verb("sx NAME CLASS", Role::Declares(Sort::Lock(Kind::Sx))),
    Verb("cond NAME LOCK", Role::Declares(Sort::Condition)),
    Verb("chan NAME LOCK", Role::Declares(Sort::Channel)),
    Verb("thread NAME PRIO", Role::Begins),
    Verb("end", Role::Ends),
    Verb("schedule NAME ..", Role::Schedules),
    Verb("done", Role::Finishes),
    Verb("lock L", Role::Takes(Kind::Mtx, Mode::Excl)),
    Verb("unlock L", Role::Releases(Kind::Mtx, Mode::Excl)),
    Verb("rlock L", Role::Takes(Kind::Rw, Mode::Shared)),
    Verb("wlock L", Role::Takes(Kind::Rw, Mode::Excl)),
    Verb("runlock L", Role::Releases(Kind::Rw, Mode::Shared)),
    Verb("wunlock L", Role::Releases(Kind::Rw, Mode::Excl)),
    Verb("slock L", Role::Takes(Kind::Sx, Mode::Shared)),
    Verb("xlock L", Role::Takes(Kind::Sx, Mode::Excl)),
    Verb("sunlock L", Role::Releases(Kind::Sx, Mode::Shared)),
    Verb("xunlock L", Role::Releases(Kind::Sx, Mode::Excl)),
    Verb("trylock L", Role::Tries(Kind::Mtx, Mode::Excl)),
    Verb("tryrlock L", Role::Tries(Kind::Rw, Mode::Shared)),
    Verb("trywlock L", Role::Tries(Kind::Rw, Mode::Excl)),
    Verb("tryslock L", Role::Tries(Kind::Sx, Mode::Shared)),
    Verb("tryxlock L", Role::Tries(Kind::Sx, Mode::Excl)),
    Verb("endtry", Role::EndsTry),
    Verb("set L KEY VALUE", Role::Edits),
    Verb("add L KEY AMOUNT", Role::Edits),
    Verb("get L KEY", Role::Reads),
    Verb("prio PRIO", Role::SetsPriority),
    Verb("show", Role::Shows),
    Verb("wait C", Role::Waits(Sort::Condition)),
    Verb("signal C", Role::Wakes(Sort::Condition)),
    Verb("broadcast C", Role::Wakes(Sort::Condition)),
    Verb("msleep C", Role::Waits(Sort::Channel)),
    Verb("wakeup_one C", Role::Wakes(Sort::Channel)),
    Verb("wakeup C", Role::Wakes(Sort::Channel)),
];

/// The first words of a script of ticks.
pub const TICK_VERBS: [Verb; 8] = [
    Verb("sleeper NAME PRIO", Role::Declares(Sort::Sleeper)),
    Verb("sleep NAME KEY [TICKS]", Role::Sleeps),
    Verb("sleepsig NAME KEY [TICKS]", Role::Sleeps),
    Verb("wakeone KEY", Role::WakesKey),
    Verb("wakeup KEY", Role::WakesKey),
    Verb("signal NAME", Role::Posts),
    Verb("tick TICKS", Role::Passes),
    Verb("done", Role::Finishes),
];

/// Those of scripts of ticks, or of threads and locks.
pub fn verbs(ticks: bool) -> &'static [Verb] {
    if ticks { &TICK_VERBS } else { &LOCK_VERBS }
}

/// The first word that is this one.
pub fn verb_of(ticks: bool, word: &str) -> Option<Verb> {
    verbs(ticks)
        .iter()
        .find(|verb| verb.word() == word)
        .copied()
}

/// The first word of lines that do this.
pub fn word_for(role: Role) -> Option<&'static str> {
    let verb = LOCK_VERBS.iter().find(|verb| verb.role() == role)?;
    Some(verb.word())
}

/// How a lock is held.
pub fn told_mode(mode: Mode) -> &'static str {
    match mode {
        Mode::Excl => "exclusively",
        Mode::Shared => "shared",
    }
}
