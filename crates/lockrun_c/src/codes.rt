//! The numbers by which C asks and is answered. `include/lockrun.h` has the same.
ghost use Rattle.std.specs.Prelude.{◌≡◌};
ghost use Rattle.lockrun_c.specs.Codes.{base_of, byte_of, cell_of, code_of, code_of_cause, code_of_next, told_behind, told_behind_next};

use floor_calls::{Cause, Next, Request, TableCell};
use lock_model::{LockNo, Prio};

// The answers of calls that are made stand in `tell_next`, and what may stand against a call in `code_of_cause`.

pub(crate) const DONE: u32 = 0;

pub(crate) const SLEEP: u32 = 2;

pub(crate) const NO_MEMORY: u32 = 16;

pub(crate) const NOT_OPEN: u32 = 17;

pub(crate) const IS_OPEN: u32 = 18;

pub(crate) const NO_REQUEST: u32 = 19;

pub(crate) const NO_THREAD: u32 = 20;

pub(crate) const NOT_ENDED: u32 = 21;

pub(crate) const NOT_GATHERED: u32 = 22;

pub(crate) const NO_SPACE: u32 = 23;

pub(crate) const NOT_CLOSED: u32 = 24;

pub(crate) const NO_KEY: u32 = 25;

pub(crate) const STILL_SHARED: u32 = 31;

/// A cell of a lock's table, as it was found on a thread's floor.
#[repr(C)]
#[derive(Clone, Copy)]
pub struct Cell {
    pub key: u64,
    pub slot: usize,
    pub lock: u32,
}

/// What an answer tells beside its number: the word that a busy try saw, the value that was found, the thread to be
/// woken, the classes of a take that the order refused, or the priorities that were shown. The rest is 0 then. It stays
/// as it was where an answer tells nothing.
#[repr(C)]
#[derive(Clone, Copy)]
pub struct Told {
    pub word: u64,
    pub value: u64,
    pub thread: u32,
    pub held_class: u32,
    pub wanted_class: u32,
    pub base: u32,
    pub effective: u32,
}

// The request for that base priority, if there is such a one.
#[inline(always)]
pub(crate) fn base_of(number: u64) -> Option<Request>
    ensures { result ≡ base_of number }
{
    if number < 256 {
        Some(Request::SetBase {
            prio: Prio(number as u8),
        })
    } else {
        None
    }
}

// A cell as the floor's calls have it.
#[inline(always)]
pub(crate) fn cell_of(cell: Cell) -> TableCell
    ensures { result ≡ cell_of cell }
{
    TableCell {
        l: LockNo(byte_of(cell.lock)),
        key: cell.key,
        slot: cell.slot,
    }
}

// The number of a lock or channel, of which no floor has more than 64: a greater number than 255 is as good as that.
#[inline(always)]
pub(crate) fn byte_of(which: u32) -> u8
    ensures { result ≡ byte_of which }
{
    if which < 255 { which as u8 } else { 255 }
}

// Tells an answer: its number, and what it says beside that, if anything.
#[inline(always)]
pub(crate) fn tell(answer: Result<Next, Cause>, told: &mut Told) -> u32
    ensures code { result ≡ code_of answer }
    ensures told { told.new ≡ told_behind answer told.old }
{
    match answer {
        Ok(next) => tell_next(next, told),
        Err(cause) => code_of_cause(cause),
    }
}

#[inline(always)]
fn tell_next(next: Next, told: &mut Told) -> u32
    ensures code { result ≡ code_of_next next }
    ensures told { told.new ≡ told_behind_next next told.old }
{
    let nothing = Told {
        word: 0,
        value: 0,
        thread: 0,
        held_class: 0,
        wanted_class: 0,
        base: 0,
        effective: 0,
    };
    match next {
        Next::Done => DONE,
        Next::Again => 1,
        Next::Sleep => SLEEP,
        Next::Wake(t) => {
            *told = Told {
                thread: u32::from(t.0),
                ..nothing
            };
            3
        }
        Next::Busy(word) => {
            *told = Told { word, ..nothing };
            4
        }
        Next::Reversed(reversal) => {
            *told = Told {
                held_class: u32::from(reversal.held.0),
                wanted_class: u32::from(reversal.wanted.0),
                ..nothing
            };
            5
        }
        Next::Halted => 6,
        Next::Found(Some(value)) => {
            *told = Told { value, ..nothing };
            7
        }
        Next::Found(None) => 8,
        Next::Shown { base, eff } => {
            *told = Told {
                base: u32::from(base.0),
                effective: u32::from(eff.0),
                ..nothing
            };
            9
        }
        Next::Out => 10,
    }
}

#[inline(always)]
fn code_of_cause(cause: Cause) -> u32
    ensures { result ≡ code_of_cause cause }
{
    match cause {
        Cause::Ended => 32,
        Cause::InCall => 33,
        Cause::AtRest => 34,
        Cause::NoLock(_) => 35,
        Cause::NoMode(_, _) => 36,
        Cause::NoChan(_) => 37,
        Cause::Held(_) => 38,
        Cause::HoldsUnsleepable(_) => 39,
        Cause::NotLast(_) => 40,
        Cause::HoldsOthers(_) => 41,
        Cause::NotHeld(_, _) => 42,
        Cause::HoldsMost => 43,
        Cause::HoldsMore => 44,
        Cause::HoldsSome => 45,
        Cause::Spent => 46,
        Cause::Short => 47,
        Cause::NoCell(_) => 48,
        Cause::Unheld(_) => 49,
    }
}
