//! What a script of ticks says: who may sleep, and what happens, in order.

use lock_model::{Name, Prio, Sequence, ThreadNo};

/// A thread that may sleep, with the priority by which it is woken.
///
/// ```
/// let sleeper = SleeperDecl { name, prio: Prio(10) };
/// ```
#[derive(Clone, Copy, Debug)]
pub struct SleeperDecl {
    pub name: Name,
    pub prio: Prio,
}

/// Something that happens.
#[derive(Clone, Copy, Debug)]
pub enum TickEvent {
    /// A thread goes to sleep on a key. It times out after so many ticks, where these are given, and a signal ends the
    /// sleep where `sig` holds.
    Sleep {
        t: ThreadNo,
        key: u8,
        ticks: Option<u32>,
        sig: bool,
    },
    /// The most important sleeper of a key is woken.
    WakeOne {
        key: u8,
    },
    /// All sleepers of a key are woken.
    WakeAll {
        key: u8,
    },
    /// A signal is posted to a thread.
    Post {
        t: ThreadNo,
    },
    /// So many ticks pass.
    Tick {
        n: u32,
    },
}

/// Sleepers, numbered in order of declaration, and events.
#[derive(Drop, Debug)]
pub struct TickPlan {
    pub sleepers: Sequence<SleeperDecl>,
    pub events: Sequence<TickEvent>,
}

/// A thread that sleeps.
#[derive(Clone, Copy, Debug)]
pub struct TickSleeper {
    pub t: ThreadNo,
    pub prio: Prio,
    pub key: u8,
    /// The tick at which it times out, if it does.
    pub due: Option<u64>,
    /// Whether a signal ends its sleep.
    pub sig: bool,
}

/// What became of a thread that was to sleep.
#[derive(Clone, Copy, Debug, PartialEq, Eq)]
pub enum Slept {
    /// It sleeps.
    Queued,
    /// It slept already, and does so as before.
    Asleep,
    /// A signal was posted to it. The signal is gone, and the thread doesn't sleep.
    Interrupted,
}
