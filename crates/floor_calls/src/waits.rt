//! The parts of a wait, told in this crate's words, with the thread's stage behind each. The wait itself is that of
//! `cond_vars`; within it the lock is given up and taken back by the parts of `lock_calls`.
ghost use Rattle.std.specs.Prelude.{◌≡◌};
ghost use Rattle.cond_vars.specs.Waits.{MayWait};
ghost use Rattle.floor_calls.specs.Calls.{BeginsWait, GoesOn, MakesWaitPart};
ghost use Rattle.floor_calls.specs.Stages.{stage_of_giving_up, stage_of_taking_back, stage_of_wait, told_of_giving_up, told_of_taking_back, told_of_wait};
ghost use Rattle.floor_calls.specs.Threads.{IsAt};
ghost use Rattle.floor_calls.specs.Waits.{HoldsIts};
ghost use Rattle.floor_calls.specs.declared.stages.Stage.TheVariants.{Waits, ComesToGiveUp, GivesUp, TakesBack};
ghost use Rattle.lock_floor.specs.Passes.{IsReady};

use crate::stages::{Next, Stage};
use cond_vars::{WaitAt, WaitNext, go_on_waiting};
use lock_calls::{ReleaseNext, TakeNext, begin_giving_up, release_on, retake_on};
use lock_floor::{Floor, Pass, ReleaseAt, TakeAt};
use lock_model::{ChanNo, LockNo, Mode};

// How often a taking back looks before it takes the lock's chain, unless it gains the lock before.
const LOOKS: u32 = 48;

/// What a thread waits on, and with which lock: it held that in that mode.
#[derive(Clone, Copy, Debug, PartialEq, Eq)]
pub struct WaitOn {
    pub c: ChanNo,
    pub l: LockNo,
    pub mode: Mode,
}

// Begins a wait, with the lock that the thread gained last.
pub(crate) fn wait(floor: &Floor, pass: &mut Pass, c: ChanNo) -> (Next, Stage)
    requires ready { IsReady floor.now pass.old }
    requires may { MayWait floor.now.description c.0 pass.old.view }
    ensures at { IsAt floor.now result.1 pass.new }
    ensures did { BeginsWait floor.now.description c result.0 result.1 pass.old pass.new }
{
    let on = wait_on(floor, pass, c);
    go_on_in_wait(floor, pass, on, WaitAt::ComesTo)
}

// Goes on with a wait that stands there.
pub(crate) fn go_on_in_wait(floor: &Floor, pass: &mut Pass, on: WaitOn, at: WaitAt) -> (Next, Stage)
    requires there { IsAt floor.now (Waits on at) pass.old }
    ensures at { IsAt floor.now result.1 pass.new }
    ensures did { MakesWaitPart floor.now.description on at result.0 result.1 pass.old pass.new }
{
    let part = go_on_waiting(floor, pass, on.c, at);
    (told_of_wait(part), stage_of_wait(on, part))
}

// Looks at the lock of a wait, which the thread is to release.
pub(crate) fn come_to_give_up(floor: &Floor, pass: &mut Pass, on: WaitOn) -> (Next, Stage)
    requires there { IsAt floor.now (ComesToGiveUp on) pass.old }
    ensures at { IsAt floor.now result.1 pass.new }
    ensures did { GoesOn floor.now.description (ComesToGiveUp on) result.0 result.1
        pass.old pass.new }
{
    let at = begin_giving_up(floor, pass, on.l, on.mode);
    (Next::Again, Stage::GivesUp { on, at })
}

// Goes on with the release of that lock.
pub(crate) fn give_up(floor: &Floor, pass: &mut Pass, on: WaitOn, at: ReleaseAt) -> (Next, Stage)
    requires there { IsAt floor.now (GivesUp on at) pass.old }
    ensures at { IsAt floor.now result.1 pass.new }
    ensures did { GoesOn floor.now.description (GivesUp on at) result.0 result.1
        pass.old pass.new }
{
    let part = release_on(floor, pass, on.l, on.mode, at);
    (told_of_giving_up(part), stage_of_giving_up(on, part))
}

// Goes on with the taking back of that lock, behind a sleep that an abort ended, or a wake.
pub(crate) fn take_back(
    floor: &Floor,
    pass: &mut Pass,
    on: WaitOn,
    aborted: bool,
    at: TakeAt,
) -> (Next, Stage)
    requires one_chain { floor.now.description.chains ≡ 1 }
    requires there { IsAt floor.now (TakesBack on aborted at) pass.old }
    ensures at { IsAt floor.now result.1 pass.new }
    ensures did { GoesOn floor.now.description (TakesBack on aborted at) result.0 result.1
        pass.old pass.new }
{
    let part = retake_on(floor, pass, on.l, on.mode, at);
    (
        told_of_taking_back(part),
        stage_of_taking_back(on, aborted, part),
    )
}

// What a thread waits on that is to wait there: with the lock that it gained last, in the mode in which it holds it.
fn wait_on(floor: &Floor, pass: &Pass, c: ChanNo) -> WaitOn
    requires may { MayWait floor.now.description c.0 pass.now.view }
    ensures chan { result.c ≡ c }
    ensures its { HoldsIts floor.now.description result pass.now.view }
{
    let l = match pass.held().last() {
        Some(hold) => hold.l,
        None => unreachable!(),
    };
    match pass.mode(l) {
        Some(mode) => WaitOn { c, l, mode },
        None => unreachable!(),
    }
}

// What a part of a wait answered.
fn told_of_wait(part: WaitNext) -> Next
    ensures { result ≡ told_of_wait part }
{
    match part {
        WaitNext::Done => Next::Done,
        WaitNext::Halted => Next::Halted,
        WaitNext::Again(_) | WaitNext::Release | WaitNext::TakeBack(_) => Next::Again,
        WaitNext::Sleep => Next::Sleep,
        WaitNext::Wake(t, _) => Next::Wake(t),
    }
}

// The stage behind it.
fn stage_of_wait(on: WaitOn, part: WaitNext) -> Stage
    ensures { result ≡ stage_of_wait on part }
{
    match part {
        WaitNext::Done | WaitNext::Halted => Stage::AtRest,
        WaitNext::Again(at) | WaitNext::Wake(_, at) => Stage::Waits { on, at },
        WaitNext::Sleep => Stage::Waits {
            on,
            at: WaitAt::Sleeps,
        },
        WaitNext::Release => Stage::ComesToGiveUp(on),
        WaitNext::TakeBack(aborted) => Stage::TakesBack {
            on,
            aborted,
            at: TakeAt::Spins(LOOKS),
        },
    }
}

// What a part of the release within a wait answered.
fn told_of_giving_up(part: ReleaseNext) -> Next
    ensures { result ≡ told_of_giving_up part }
{
    match part {
        ReleaseNext::Done | ReleaseNext::At(_) => Next::Again,
        ReleaseNext::Wake(t) => Next::Wake(t),
    }
}

// The stage behind it.
fn stage_of_giving_up(on: WaitOn, part: ReleaseNext) -> Stage
    ensures { result ≡ stage_of_giving_up on part }
{
    match part {
        ReleaseNext::Done => Stage::Waits {
            on,
            at: WaitAt::Parks,
        },
        ReleaseNext::At(at) => Stage::GivesUp { on, at },
        ReleaseNext::Wake(_) => Stage::GivesUp {
            on,
            at: ReleaseAt::Wakes,
        },
    }
}

// What a part of the taking back within a wait answered.
fn told_of_taking_back(part: TakeNext) -> Next
    ensures { result ≡ told_of_taking_back part }
{
    match part {
        TakeNext::Gained => Next::Again,
        TakeNext::At(TakeAt::Sleeps) => Next::Sleep,
        TakeNext::At(
            TakeAt::Checks
            | TakeAt::Spins(_)
            | TakeAt::ComesIn
            | TakeAt::Contends(_)
            | TakeAt::Walks(_)
            | TakeAt::Hops(_)
            | TakeAt::Halts(_),
        ) => Next::Again,
        TakeNext::Wake(t, _) => Next::Wake(t),
    }
}

// The stage behind it.
fn stage_of_taking_back(on: WaitOn, aborted: bool, part: TakeNext) -> Stage
    ensures { result ≡ stage_of_taking_back on aborted part }
{
    match part {
        TakeNext::Gained => Stage::Waits {
            on,
            at: WaitAt::Notes(aborted),
        },
        TakeNext::At(at) | TakeNext::Wake(_, at) => Stage::TakesBack { on, aborted, at },
    }
}
