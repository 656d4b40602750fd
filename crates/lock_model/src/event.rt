//! What happened in a run: events, and entries of the history with their tickets; what a thread holds;
//! and the refusals of the calls that take locks.

ghost use Rattle.std.specs.Prelude.{◌≡◌, ◌==◌, option_map};
ghost use Rattle.std.specs.List.{position};
ghost use Rattle.lock_model.specs.Events.{facets, lock_facet, new_base, of_sleep, fell_asleep, woken_chan, wakes_nobody};
ghost use Rattle.lock_model.specs.Law.{is_halt};
ghost use Rattle.lock_model.specs.Takes.{is_reversal, refused};

use crate::numbers::{ChanNo, ClassNo, LockNo, Prio, ThreadNo};
use crate::plan::Mode;

/// What a thread did, or what was answered to it. A section of a lock begins where the thread gains it, and
/// ends where the thread releases it or sleeps with it.
///
/// ```
/// let event = Event::Set { l: LockNo(0), key: 7, value: 1 };
/// ```
#[derive(Clone, Copy, Debug, PartialEq, Eq, Hash)]
pub enum Event {
    /// The thread gained the lock that it asked for, and its section begins.
    Locked {
        l: LockNo,
        mode: Mode,
    },
    /// The thread's try gained the lock, and its section begins.
    Tried {
        l: LockNo,
        mode: Mode,
    },
    /// The thread's try failed: it saw the lock word `seen`, which doesn't admit it.
    Busy {
        l: LockNo,
        seen: u64,
    },
    /// The thread released the lock, which it held in that mode, and its section ends.
    Unlocked {
        l: LockNo,
        mode: Mode,
    },
    /// The thread set a key of the lock's table.
    Set {
        l: LockNo,
        key: u64,
        value: u64,
    },
    /// The thread added an amount to the value at a key of the lock's table, modulo 2^64.
    Added {
        l: LockNo,
        key: u64,
        amount: u64,
    },
    /// The thread read a key of the lock's table, and found the value or none.
    Got {
        l: LockNo,
        key: u64,
        found: Option<u64>,
    },
    /// The thread's base priority was set.
    Base {
        prio: Prio,
    },
    /// The thread was told its base and its effective priority.
    Shown {
        base: Prio,
        eff: Prio,
    },
    /// The thread went to sleep on a condition variable or channel, and its section of that one's lock ends.
    Sleeps {
        c: ChanNo,
    },
    /// The thread was woken from its sleep and holds the lock again, in the mode that it slept with.
    Woke {
        c: ChanNo,
    },
    /// The thread's sleep on a condition variable or channel was ended because every live thread slept. It
    /// holds the lock again, in the mode that it slept with.
    HaltedChan {
        c: ChanNo,
    },
    /// The thread's sleep for a lock of sx(9) was ended because every live thread slept. It doesn't hold the
    /// lock.
    HaltedLock {
        l: LockNo,
    },
    /// The thread woke the most important of those that slept on a condition variable or channel: in `woken`
    /// that thread's bit alone is set, and none where nobody slept.
    WokeOne {
        c: ChanNo,
        woken: u64,
    },
    /// The thread woke all that slept on a condition variable or channel: bit t of `woken` is set exactly for
    /// each thread t that was taken off its queue.
    WokeAll {
        c: ChanNo,
        woken: u64,
    },
    /// The order of locks forbids the lock that the thread asked for: it holds one of class `held`. It doesn't
    /// get the lock, and releases those that it holds.
    Reversed {
        l: LockNo,
        held: ClassNo,
    },
}

/// What an event does at a key of a lock's table.
///
/// ```
/// let done = OfTable::SetsTo { l: LockNo(0), key: 7, value: 1 };
/// ```
#[derive(Clone, Copy, Debug, PartialEq, Eq, Hash)]
pub enum OfTable {
    /// It is about no table.
    NoTable,
    /// It sets the value.
    SetsTo {
        l: LockNo,
        key: u64,
        value: u64,
    },
    /// It adds to the value, modulo 2^64.
    AddsTo {
        l: LockNo,
        key: u64,
        amount: u64,
    },
    /// It reads the value, and found that or none.
    Reads {
        l: LockNo,
        key: u64,
        found: Option<u64>,
    },
}

/// What an event says of a lock: which section of its thread begins or ends, or how a take of it failed.
///
/// ```
/// let said = LockFacet::Begins { l: LockNo(0), mode: Mode::Excl };
/// ```
#[derive(Clone, Copy, Debug, PartialEq, Eq, Hash)]
pub enum LockFacet {
    /// Nothing.
    NoLock,
    /// The thread gained the lock, and its section begins.
    Begins { l: LockNo, mode: Mode },
    /// The thread released the lock, and its section ends.
    Ends { l: LockNo, mode: Mode },
    /// The section of the lock of the condition variable or channel ends, and the thread sleeps.
    Leaves { c: ChanNo },
    /// The thread has slept, and a section of that one's lock begins, in the mode of the one that it left.
    TakesBack { c: ChanNo },
    /// A try found the lock busy, with that lock word.
    FindsBusy { l: LockNo, seen: u64 },
    /// A halt ended the take of the lock.
    IsHalted { l: LockNo },
    /// The take of the lock was refused, for a held lock of that class.
    IsRefused { l: LockNo, held: ClassNo },
}

impl Event {
    /// What it does at a key of a lock's table.
    pub fn at_table(self) -> OfTable
        ensures { result ≡ (facets self).table }
    {
        match self {
            Event::Set { l, key, value } => OfTable::SetsTo { l, key, value },
            Event::Added { l, key, amount } => OfTable::AddsTo { l, key, amount },
            Event::Got { l, key, found } => OfTable::Reads { l, key, found },
            Event::Locked { .. }
            | Event::Tried { .. }
            | Event::Busy { .. }
            | Event::Unlocked { .. }
            | Event::Base { .. }
            | Event::Shown { .. }
            | Event::Sleeps { .. }
            | Event::Woke { .. }
            | Event::HaltedChan { .. }
            | Event::HaltedLock { .. }
            | Event::WokeOne { .. }
            | Event::WokeAll { .. }
            | Event::Reversed { .. } => OfTable::NoTable,
        }
    }

    /// What it says of a lock.
    pub fn at_lock(self) -> LockFacet
        ensures { result ≡ lock_facet (facets self).section (facets self).take }
    {
        match self {
            Event::Locked { l, mode } | Event::Tried { l, mode } => LockFacet::Begins { l, mode },
            Event::Busy { l, seen } => LockFacet::FindsBusy { l, seen },
            Event::Unlocked { l, mode } => LockFacet::Ends { l, mode },
            Event::Sleeps { c } => LockFacet::Leaves { c },
            Event::Woke { c } | Event::HaltedChan { c } => LockFacet::TakesBack { c },
            Event::HaltedLock { l } => LockFacet::IsHalted { l },
            Event::Reversed { l, held } => LockFacet::IsRefused { l, held },
            Event::Set { .. }
            | Event::Added { .. }
            | Event::Got { .. }
            | Event::Base { .. }
            | Event::Shown { .. }
            | Event::WokeOne { .. }
            | Event::WokeAll { .. } => LockFacet::NoLock,
        }
    }

    /// The base priority that its thread has from there on, where it gives it one.
    pub fn new_base(self) -> Option<Prio>
        ensures { option_map (λ p. p.0) result ≡ new_base self }
    {
        match self {
            Event::Base { prio } => Some(prio),
            Event::Locked { .. }
            | Event::Tried { .. }
            | Event::Busy { .. }
            | Event::Unlocked { .. }
            | Event::Set { .. }
            | Event::Added { .. }
            | Event::Got { .. }
            | Event::Shown { .. }
            | Event::Sleeps { .. }
            | Event::Woke { .. }
            | Event::HaltedChan { .. }
            | Event::HaltedLock { .. }
            | Event::WokeOne { .. }
            | Event::WokeAll { .. }
            | Event::Reversed { .. } => None,
        }
    }

    /// The lock that it refuses to take, and the class of a held lock that forbids it, if it does.
    pub fn refused(self) -> Option<(LockNo, ClassNo)>
        ensures { option_map (λ r. (r.0.0, r.1.0)) result ≡ refused (facets self).take }
    {
        match self {
            Event::Reversed { l, held } => Some((l, held)),
            Event::Locked { .. }
            | Event::Tried { .. }
            | Event::Busy { .. }
            | Event::Unlocked { .. }
            | Event::Set { .. }
            | Event::Added { .. }
            | Event::Got { .. }
            | Event::Base { .. }
            | Event::Shown { .. }
            | Event::Sleeps { .. }
            | Event::Woke { .. }
            | Event::HaltedChan { .. }
            | Event::HaltedLock { .. }
            | Event::WokeOne { .. }
            | Event::WokeAll { .. } => None,
        }
    }

    /// Whether it is the refusal of a take.
    pub fn is_reversal(self) -> bool
        ensures { result ≡ is_reversal self }
    {
        self.refused().is_some()
    }

    /// Whether a halt ended its thread's sleep.
    pub fn is_halt(self) -> bool
        ensures { result ≡ is_halt self }
    {
        match self {
            Event::HaltedChan { .. } | Event::HaltedLock { .. } => true,
            Event::Locked { .. }
            | Event::Tried { .. }
            | Event::Busy { .. }
            | Event::Unlocked { .. }
            | Event::Set { .. }
            | Event::Added { .. }
            | Event::Got { .. }
            | Event::Base { .. }
            | Event::Shown { .. }
            | Event::Sleeps { .. }
            | Event::Woke { .. }
            | Event::WokeOne { .. }
            | Event::WokeAll { .. }
            | Event::Reversed { .. } => false,
        }
    }

    /// The condition variable or channel on which its thread goes to sleep, if it does.
    pub fn fell_asleep(self) -> Option<ChanNo>
        ensures { option_map (λ c. c.0) result ≡ fell_asleep (of_sleep self) }
    {
        match self {
            Event::Sleeps { c } => Some(c),
            Event::Locked { .. }
            | Event::Tried { .. }
            | Event::Busy { .. }
            | Event::Unlocked { .. }
            | Event::Set { .. }
            | Event::Added { .. }
            | Event::Got { .. }
            | Event::Base { .. }
            | Event::Shown { .. }
            | Event::Woke { .. }
            | Event::HaltedChan { .. }
            | Event::HaltedLock { .. }
            | Event::WokeOne { .. }
            | Event::WokeAll { .. }
            | Event::Reversed { .. } => None,
        }
    }

    /// The condition variable or channel whose sleepers its thread wakes, if it does.
    pub fn woken_chan(self) -> Option<ChanNo>
        ensures { option_map (λ c. c.0) result ≡ woken_chan (of_sleep self) }
    {
        match self {
            Event::WokeOne { c, .. } | Event::WokeAll { c, .. } => Some(c),
            Event::Locked { .. }
            | Event::Tried { .. }
            | Event::Busy { .. }
            | Event::Unlocked { .. }
            | Event::Set { .. }
            | Event::Added { .. }
            | Event::Got { .. }
            | Event::Base { .. }
            | Event::Shown { .. }
            | Event::Sleeps { .. }
            | Event::Woke { .. }
            | Event::HaltedChan { .. }
            | Event::HaltedLock { .. }
            | Event::Reversed { .. } => None,
        }
    }

    /// Whether it is a waking that found nobody asleep.
    pub fn wakes_nobody(self) -> bool
        ensures { result ≡ wakes_nobody self }
    {
        match self {
            Event::WokeOne { woken, .. } | Event::WokeAll { woken, .. } => woken == 0,
            Event::Locked { .. }
            | Event::Tried { .. }
            | Event::Busy { .. }
            | Event::Unlocked { .. }
            | Event::Set { .. }
            | Event::Added { .. }
            | Event::Got { .. }
            | Event::Base { .. }
            | Event::Shown { .. }
            | Event::Sleeps { .. }
            | Event::Woke { .. }
            | Event::HaltedChan { .. }
            | Event::HaltedLock { .. }
            | Event::Reversed { .. } => false,
        }
    }
}

/// An event of a thread, with its ticket: its place in the one history of all threads, from 0.
///
/// ```
/// let entry = Entry { ticket: 0, thread: ThreadNo(0), event: Event::Base { prio: Prio(50) } };
/// ```
#[derive(Clone, Copy, Debug, PartialEq, Eq, Hash)]
pub struct Entry {
    pub ticket: u32,
    pub thread: ThreadNo,
    pub event: Event,
}

/// A lock that a thread holds, and whether a try gained it.
///
/// ```
/// let held = Held { l: LockNo(0), mode: Mode::Excl, by_try: false };
/// ```
#[derive(Clone, Copy, Debug, PartialEq, Eq, Hash)]
pub struct Held {
    pub l: LockNo,
    pub mode: Mode,
    pub by_try: bool,
}

/// Where a lock stands among those that a thread holds, from 0. There is no place exactly where it isn't held.
pub fn place_held(l: LockNo, held: &[Held]) -> Option<usize>
    ensures { result ≡ position (λ h. h.l.0 == l.0) held.now }
{
    held.iter().position(|h| h.l == l)
}

/// A lock order that was refused: a lock of class `wanted` behind one of class `held`.
///
/// ```
/// let reversal = Reversal { held: ClassNo(1), wanted: ClassNo(0) };
/// ```
#[derive(Clone, Copy, Debug, PartialEq, Eq, Hash)]
pub struct Reversal {
    pub held: ClassNo,
    pub wanted: ClassNo,
}

/// A sleep that was ended because every live thread slept.
///
/// ```
/// let halted = Halted;
/// ```
#[derive(Clone, Copy, Debug, PartialEq, Eq, Hash)]
pub struct Halted;

/// Why a lock of sx(9), whose waiters may sleep without bound, wasn't gained.
///
/// ```
/// let refused = Refused::Halted(Halted);
/// ```
#[derive(Clone, Copy, Debug, PartialEq, Eq, Hash)]
pub enum Refused {
    /// The order of locks forbids it.
    Reversal(Reversal),
    /// The thread slept for it, and that sleep was ended because every live thread slept.
    Halted(Halted),
}

/// A try that failed, with the lock word that it saw.
///
/// ```
/// let busy = Busy { seen: 4 };
/// ```
#[derive(Clone, Copy, Debug, PartialEq, Eq, Hash)]
pub struct Busy {
    pub seen: u64,
}
