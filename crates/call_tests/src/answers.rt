//! Wrong calls are answered, and right ones go on: each row is a thread, what is asked of it, and what the rules of the
//! calls say that it answers. A row that goes on does so until that answers something else than to go on.
use crate::asking::ask;
use crate::floors::{Parts, opened};
use floor_calls::{Cause, Next, Request, Thread};
use lock_model::{ChanNo, ClassNo, LockNo, Mode, Reversal, ThreadNo};
use std::test::Fail;

// The threads have room for so many entries, which is just enough for what they do; locks 2 to 9 are sx locks.
const FLOOR: Parts = Parts {
    rooms: &[4, 2, 2, 16, 7, 4, 3, 2, 10],
    locks: 10,
    class: 9,
    channels: 1,
    keys: 0,
    tables: 0,
    first_once_more: false,
    chains: 1,
};

const M: LockNo = LockNo(0);

const RW: LockNo = LockNo(1);

const SX: LockNo = LockNo(2);

const OTHER_SX: LockNo = LockNo(3);

const NONE: LockNo = LockNo(10);

const TAKE_M: Request = Request::Take {
    l: M,
    mode: Mode::Excl,
};

const TAKE_M_SHARED: Request = Request::Take {
    l: M,
    mode: Mode::Shared,
};

const TRY_M: Request = Request::Try {
    l: M,
    mode: Mode::Excl,
};

const RELEASE_M: Request = Request::Release {
    l: M,
    mode: Mode::Excl,
};

const TAKE_RW: Request = Request::Take {
    l: RW,
    mode: Mode::Excl,
};

const TRY_RW_SHARED: Request = Request::Try {
    l: RW,
    mode: Mode::Shared,
};

const RELEASE_RW: Request = Request::Release {
    l: RW,
    mode: Mode::Excl,
};

const RELEASE_RW_SHARED: Request = Request::Release {
    l: RW,
    mode: Mode::Shared,
};

const TAKE_SX: Request = Request::Take {
    l: SX,
    mode: Mode::Excl,
};

const RELEASE_SX: Request = Request::Release {
    l: SX,
    mode: Mode::Excl,
};

const TAKE_OTHER_SX: Request = Request::Take {
    l: OTHER_SX,
    mode: Mode::Excl,
};

const RELEASE_OTHER_SX: Request = Request::Release {
    l: OTHER_SX,
    mode: Mode::Excl,
};

const TAKE_NONE: Request = Request::Take {
    l: NONE,
    mode: Mode::Excl,
};

// The condition variable of the mutex.
const C: ChanNo = ChanNo(0);

const WAIT: Request = Request::Wait { c: C };

const WAIT_NONE: Request = Request::Wait { c: ChanNo(1) };

const WAKE_ALL: Request = Request::WakeUp { c: C, all: true };

const WAKE_ONE: Request = Request::WakeUp { c: C, all: false };

const WAKE_NONE: Request = Request::WakeUp {
    c: ChanNo(1),
    all: true,
};

// A mutex's word has bit 2 where it is held, and from bit 3 on the number of who holds it: here thread 0.
const HELD: u64 = 4;

const REVERSAL: Reversal = Reversal {
    held: ClassNo(3),
    wanted: ClassNo(2),
};

// A thread, what is asked of it, and what it answers.
type Row = (usize, Request, Result<Next, Cause>);

const ROWS: &[Row] = &[
    // Nothing was begun, and nothing is held.
    (0, Request::GoOn, Err(Cause::AtRest)),
    (0, RELEASE_M, Err(Cause::NotHeld(M, Mode::Excl))),
    (0, TAKE_NONE, Err(Cause::NoLock(NONE))),
    (0, TAKE_M_SHARED, Err(Cause::NoMode(M, Mode::Shared))),
    (0, TAKE_M, Ok(Next::Done)),
    // The mutex is held, by thread 0.
    (0, TAKE_M, Err(Cause::Held(M))),
    (0, TRY_M, Err(Cause::Held(M))),
    (0, TAKE_SX, Err(Cause::HoldsUnsleepable(SX))),
    (0, Request::End, Err(Cause::HoldsSome)),
    (1, TRY_M, Ok(Next::Busy(HELD))),
    // Room for one entry is left: a gain would need another one for its release.
    (1, TRY_M, Err(Cause::Short)),
    (1, TAKE_RW, Err(Cause::Short)),
    (1, RELEASE_M, Err(Cause::NotHeld(M, Mode::Excl))),
    // Thread 2 must wait for it: it sleeps, until a release has woken it.
    (2, TAKE_M, Ok(Next::Again)),
    (2, TAKE_RW, Err(Cause::InCall)),
    (2, Request::End, Err(Cause::InCall)),
    (2, Request::GoOn, Ok(Next::Sleep)),
    (2, Request::GoOn, Ok(Next::Sleep)),
    (0, TRY_RW_SHARED, Ok(Next::Done)),
    (0, RELEASE_RW, Err(Cause::NotHeld(RW, Mode::Excl))),
    (0, RELEASE_RW_SHARED, Ok(Next::Done)),
    (0, RELEASE_M, Ok(Next::Again)),
    (0, TAKE_M, Err(Cause::InCall)),
    (0, Request::GoOn, Ok(Next::Wake(ThreadNo(2)))),
    (0, Request::GoOn, Ok(Next::Done)),
    (2, Request::GoOn, Ok(Next::Done)),
    (2, RELEASE_M, Ok(Next::Done)),
    (2, RELEASE_M, Err(Cause::NotHeld(M, Mode::Excl))),
    // Classes 2 and 3 are taken in this order, and so not the other way round.
    (4, TAKE_SX, Ok(Next::Done)),
    (4, TAKE_OTHER_SX, Ok(Next::Again)),
    (4, Request::GoOn, Ok(Next::Done)),
    (4, RELEASE_SX, Ok(Next::Done)),
    (4, TAKE_SX, Ok(Next::Again)),
    (4, Request::GoOn, Ok(Next::Reversed(REVERSAL))),
    (4, RELEASE_OTHER_SX, Ok(Next::Done)),
    // Nobody sleeps on the channel, so a wake finds nobody.
    (4, WAKE_NONE, Err(Cause::NoChan(ChanNo(1)))),
    (4, WAKE_ALL, Ok(Next::Again)),
    (4, WAKE_ONE, Err(Cause::InCall)),
    (4, Request::GoOn, Ok(Next::Done)),
    (4, WAKE_ONE, Ok(Next::Again)),
    (4, Request::GoOn, Ok(Next::Done)),
    (4, WAKE_ONE, Err(Cause::Spent)),
    // Who waits gives the mutex up and sleeps, until a wake.
    (5, WAIT_NONE, Err(Cause::NoChan(ChanNo(1)))),
    (5, WAIT, Err(Cause::NotLast(C))),
    (5, TAKE_M, Ok(Next::Done)),
    (5, WAIT, Ok(Next::Again)),
    (5, WAIT, Err(Cause::InCall)),
    (5, Request::GoOn, Ok(Next::Sleep)),
    (5, Request::GoOn, Ok(Next::Sleep)),
    (6, TAKE_M, Ok(Next::Done)),
    (6, WAKE_ONE, Ok(Next::Again)),
    (6, Request::GoOn, Ok(Next::Wake(ThreadNo(5)))),
    (6, Request::GoOn, Ok(Next::Done)),
    // The mutex is held by thread 6: to take it back it sleeps once more, until the release.
    (5, Request::GoOn, Ok(Next::Sleep)),
    (6, RELEASE_M, Ok(Next::Again)),
    (6, Request::GoOn, Ok(Next::Wake(ThreadNo(5)))),
    (6, Request::GoOn, Ok(Next::Done)),
    (5, Request::GoOn, Ok(Next::Done)),
    (5, TAKE_M, Err(Cause::Held(M))),
    (5, RELEASE_M, Ok(Next::Done)),
    // Thread 7 has room for one entry more, which is kept for the release.
    (7, TAKE_M, Ok(Next::Done)),
    (7, WAIT, Err(Cause::Short)),
    (7, TAKE_RW, Err(Cause::Short)),
    (7, TRY_RW_SHARED, Err(Cause::Short)),
    (7, WAKE_ONE, Err(Cause::Spent)),
    (7, Request::Show, Err(Cause::Spent)),
    (7, RELEASE_M, Ok(Next::Done)),
    (7, TAKE_M, Err(Cause::Short)),
    // A reader-writer lock isn't held over the sleep, and the mutex is that which was gained last, and not by a try.
    (8, TAKE_RW, Ok(Next::Done)),
    (8, TAKE_M, Ok(Next::Again)),
    (8, Request::GoOn, Ok(Next::Done)),
    (8, WAIT, Err(Cause::HoldsOthers(C))),
    (8, RELEASE_M, Ok(Next::Done)),
    (8, RELEASE_RW, Ok(Next::Done)),
    (8, TRY_M, Ok(Next::Done)),
    (8, WAIT, Err(Cause::NotLast(C))),
    (8, RELEASE_M, Ok(Next::Done)),
    (8, TAKE_M, Ok(Next::Done)),
    (8, TRY_RW_SHARED, Ok(Next::Done)),
    (8, WAIT, Err(Cause::NotLast(C))),
    (8, RELEASE_RW_SHARED, Ok(Next::Done)),
    (8, RELEASE_M, Ok(Next::Done)),
    // Others are awake when thread 0 ends. Once it has, it makes no call.
    (0, Request::End, Ok(Next::Done)),
    (0, Request::End, Err(Cause::Ended)),
    (0, Request::GoOn, Err(Cause::Ended)),
    (0, TAKE_M, Err(Cause::Ended)),
    (0, RELEASE_M, Err(Cause::Ended)),
];

#[test]
fn calls_are_answered(rt: HostRuntime) -> Result<(), Fail> {
    let (_open, mut threads) = opened(rt.alloc(), &FLOOR)?;
    for (row, asked) in ROWS.iter().enumerate() {
        assert!(rt; is_answered(threads.as_mut_slice(), asked), "in row {row}");
    }
    Ok(())
}

// Whether the thread of a row answers so. One that is refused stands where it stood.
fn is_answered(threads: &mut [Thread], row: &Row) -> bool {
    let (t, request, answer) = *row;
    let Some(thread) = threads.get_mut(t) else {
        return false;
    };
    let stage = thread.stage();
    ask(thread, request) == answer && (answer.is_ok() || thread.stage() == stage)
}

#[test]
fn a_thread_holds_eight_locks(rt: HostRuntime) -> Result<(), Fail> {
    let (_open, mut threads) = opened(rt.alloc(), &FLOOR)?;
    assert!(rt; holds_eight(threads.as_mut_slice()));
    Ok(())
}

fn holds_eight(threads: &mut [Thread]) -> bool {
    let Some(thread) = threads.get_mut(3) else {
        return false;
    };
    for l in 2..10 {
        if thread.begin_try(LockNo(l), Mode::Excl) != Ok(Next::Done) {
            return false;
        }
    }
    // eight entries were made, and as many are kept
    thread.spare() == 8 && thread.begin_take(M, Mode::Excl) == Err(Cause::HoldsMost)
}
