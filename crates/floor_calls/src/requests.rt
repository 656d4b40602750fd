//! What a caller can ask of a thread, and what may stand against it.

use lock_floor::{Change, TableCell};
use lock_model::{ChanNo, LockNo, Mode, Prio};

/// What a caller asks of a thread.
#[derive(Clone, Copy, Debug, PartialEq, Eq)]
pub enum Request {
    /// To begin a take of a lock in a mode.
    Take { l: LockNo, mode: Mode },
    /// To begin a try of a lock in a mode.
    Try { l: LockNo, mode: Mode },
    /// To begin a release of a lock that is held in a mode.
    Release { l: LockNo, mode: Mode },
    /// To change the value of a cell of the table of a lock that is held exclusively.
    Edit { cell: TableCell, change: Change },
    /// To read the value of a cell of the table of a lock that is held.
    Read { cell: TableCell },
    /// To set the thread's base priority.
    SetBase { prio: Prio },
    /// To show its base and its effective priority.
    Show,
    /// To begin a wake of a condition variable or channel: of its most important sleeper, or of all.
    WakeUp { c: ChanNo, all: bool },
    /// To begin a wait on a condition variable or channel, with its lock, which the thread gained last.
    Wait { c: ChanNo },
    /// To begin the thread's end.
    End,
    /// To go on with the call that it is in the middle of.
    GoOn,
}

/// Why a call isn't made.
#[derive(Clone, Copy, Debug, PartialEq, Eq)]
pub enum Cause {
    /// The thread has ended.
    Ended,
    /// It is in the middle of a call.
    InCall,
    /// It is in the middle of no call.
    AtRest,
    /// The floor has no such lock.
    NoLock(LockNo),
    /// The lock has no such mode: it is a mutex, which is never shared.
    NoMode(LockNo, Mode),
    /// The floor has no such condition variable or channel.
    NoChan(ChanNo),
    /// The floor has no such cell: that was found on another floor.
    NoCell(TableCell),
    /// The thread holds the lock already.
    Held(LockNo),
    /// The lock is an sx lock, and the thread holds a mutex or a reader-writer lock, over which it may not sleep.
    HoldsUnsleepable(LockNo),
    /// The lock of the condition variable or channel isn't the one that it gained last, or it gained that by a try.
    NotLast(ChanNo),
    /// Beside the lock of the condition variable or channel it holds a mutex or a reader-writer lock, over which it may
    /// not sleep.
    HoldsOthers(ChanNo),
    /// It doesn't hold the lock in that mode.
    NotHeld(LockNo, Mode),
    /// It doesn't hold the lock, in neither mode.
    Unheld(LockNo),
    /// It holds as many locks as a thread may.
    HoldsMost,
    /// It holds more locks than a thread may. No calls bring that about.
    HoldsMore,
    /// It holds a lock.
    HoldsSome,
    /// Its log has no room for an entry beside those that are kept for releases of the locks that it holds.
    Spent,
    /// It has none for two entries beside these.
    Short,
}
