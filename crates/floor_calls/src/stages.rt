//! At which stage a thread is between two calls, and what a call answers.
ghost use Rattle.std.specs.Prelude.{◌≡◌};
ghost use Rattle.floor_calls.specs.Stages.{stage_behind, told, told_of_try};

use crate::waits::WaitOn;
use cond_vars::WaitAt;
use halting::EndAt;
use lock_calls::TryNext;
use lock_floor::{ReleaseAt, TakeAt};
use lock_model::{ChanNo, Prio, Reversal, ThreadNo};

/// At which stage a thread is between two calls.
#[derive(Clone, Copy, Debug, PartialEq, Eq)]
pub enum Stage {
    /// It is in the middle of no call.
    AtRest,
    /// It is in the middle of a take.
    Takes,
    /// It is in the middle of a try.
    Tries,
    /// It is in the middle of a release.
    Releases,
    /// It has begun a wake of a condition variable or channel, whose chain it is yet to take.
    ComesToWake {
        c: ChanNo,
        all: bool,
    },
    /// It has taken sleepers off a condition variable or channel, and wakes one after the other.
    Wakes,
    /// It is in the middle of a wait, and stands there.
    Waits {
        on: WaitOn,
        at: WaitAt,
    },
    /// Within a wait it has come to stand on the queue, and is yet to begin the release of its lock.
    ComesToGiveUp(WaitOn),
    /// Within a wait it releases its lock, and stands there.
    GivesUp {
        on: WaitOn,
        at: ReleaseAt,
    },
    /// Within a wait its sleep has ended, by an abort or not: it takes its lock back, and stands there.
    TakesBack {
        on: WaitOn,
        aborted: bool,
        at: TakeAt,
    },
    /// It is in the middle of its end, and stands there.
    Ends(EndAt),
    /// It has ended.
    Ended,
}

/// What the caller is to do next, where the call was made.
#[derive(Clone, Copy, Debug, PartialEq, Eq)]
pub enum Next {
    /// Nothing: the call is done.
    Done,
    /// Nothing: the read is done, and found that value, or none where the key is absent.
    Found(Option<u64>),
    /// Nothing: these are the thread's base and its effective priority.
    Shown { base: Prio, eff: Prio },
    /// Go on with the call, maybe after a pause.
    Again,
    /// Ask the same again, maybe after a pause: another thread had out what the call needs, and so it made nothing.
    Out,
    /// Sleep until the thread is woken, or for a while, and then go on with the call.
    Sleep,
    /// End the sleep of that thread, which was woken, and then go on with the call.
    Wake(ThreadNo),
    /// Nothing: the try found the lock busy, whose word was that one.
    Busy(u64),
    /// Nothing: the order of locks refused the take.
    Reversed(Reversal),
    /// Nothing: the sleep of the call was ended by an abort. The lock of a take isn't held then; that of a wait is.
    Halted,
}

// The stage behind a part of a call of a lock, which was gone on with at that stage.
#[inline(always)]
pub(crate) fn stage_behind(on: Stage, next: Next) -> Stage
    ensures { result ≡ stage_behind on next }
{
    match next {
        Next::Again | Next::Sleep | Next::Wake(_) => on,
        Next::Done
        | Next::Found(_)
        | Next::Shown { .. }
        | Next::Out
        | Next::Busy(_)
        | Next::Reversed(_)
        | Next::Halted => Stage::AtRest,
    }
}

// What a part of a take or of a release answered.
#[inline(always)]
pub(crate) fn told(part: lock_calls::Next) -> Next
    ensures { result ≡ told part }
{
    match part {
        lock_calls::Next::Done => Next::Done,
        lock_calls::Next::Again => Next::Again,
        lock_calls::Next::Sleep => Next::Sleep,
        lock_calls::Next::Wake(t) => Next::Wake(t),
        lock_calls::Next::Reversed(reversal) => Next::Reversed(reversal),
        lock_calls::Next::Halted => Next::Halted,
    }
}

// What a part of a try answered.
#[inline(always)]
pub(crate) fn told_of_try(part: TryNext) -> Next
    ensures { result ≡ told_of_try part }
{
    match part {
        TryNext::Gained => Next::Done,
        TryNext::Busy(seen) => Next::Busy(seen),
        TryNext::Again => Next::Again,
    }
}
