//! The parts of locks' calls and of a thread's end, told in this crate's words, with the thread's stage behind each.
ghost use Rattle.std.specs.Prelude.{◌≡◌};
ghost use Rattle.cond_vars.specs.Wakes.{MayWakeUp};
ghost use Rattle.floor_calls.specs.Calls.{GoesOn, HasMade, MakesEndPart, MakesWakePart, MayMake};
ghost use Rattle.floor_calls.specs.Stages.{IsInCall, stage_behind};
ghost use Rattle.floor_calls.specs.Threads.{IsAt, IsEndingAt, thread_at};
ghost use Rattle.floor_calls.specs.declared.requests.Request.TheVariants as request;
ghost use Rattle.floor_calls.specs.declared.stages.Stage.TheVariants.{AtRest, Takes, Tries, Releases, Wakes};
ghost use Rattle.lock_floor.specs.Passes.{IsReady};

use crate::stages::{Next, Stage, stage_behind, told, told_of_try};
use crate::waits::{come_to_give_up, give_up, go_on_in_wait, take_back, wait};
use cond_vars::{WakeNext, begin_wakeup, go_on_waking};
use halting::{EndAt, EndNext, go_on_ending};
use lock_calls::{
    begin_release, begin_take, begin_try, go_on_releasing, go_on_taking, go_on_trying,
};
use lock_floor::{Floor, Pass};
use lock_model::{ChanNo, LockNo, Mode};

// Comes to the stage behind a part, and hands on what that answered. It is kept apart from where a lock is free: there
// nothing of it is read or written.
#[cold]
#[inline(never)]
fn come_to(stage: &mut Stage, made: (Next, Stage)) -> Next
    ensures next { result ≡ made.0 }
    ensures stands { stage.new ≡ made.1 }
{
    *stage = made.1;
    made.0
}

// Begins a take.
#[inline(always)]
pub(crate) fn take(floor: &Floor, pass: &mut Pass, stage: &mut Stage, l: LockNo, mode: Mode) -> Next
    requires { MayMake (request.Take l mode) (thread_at floor.now stage.old pass.old) }
    ensures { HasMade (request.Take l mode) result (thread_at floor.now stage.old pass.old)
        (thread_at floor.now stage.new pass.new) }
{
    let part = begin_take(floor, pass, l, mode);
    begun(stage, Stage::Takes, told(part))
}

// Begins a try.
#[inline(always)]
pub(crate) fn attempt(
    floor: &Floor,
    pass: &mut Pass,
    stage: &mut Stage,
    l: LockNo,
    mode: Mode,
) -> Next
    requires { MayMake (request.Try l mode) (thread_at floor.now stage.old pass.old) }
    ensures { HasMade (request.Try l mode) result (thread_at floor.now stage.old pass.old)
        (thread_at floor.now stage.new pass.new) }
{
    let part = begin_try(floor, pass, l, mode);
    begun(stage, Stage::Tries, told_of_try(part))
}

// Begins a release.
#[inline(always)]
pub(crate) fn release(
    floor: &Floor,
    pass: &mut Pass,
    stage: &mut Stage,
    l: LockNo,
    mode: Mode,
) -> Next
    requires { MayMake (request.Release l mode) (thread_at floor.now stage.old pass.old) }
    ensures { HasMade (request.Release l mode) result (thread_at floor.now stage.old pass.old)
        (thread_at floor.now stage.new pass.new) }
{
    let part = begin_release(floor, pass, l, mode);
    begun(stage, Stage::Releases, told(part))
}

// Comes to stand in a call of a lock that was begun, unless that is done: then the thread stays at rest. Hands on what
// the begin answered.
#[inline(always)]
fn begun(stage: &mut Stage, on: Stage, next: Next) -> Next
    requires rest { stage.old ≡ AtRest }
    ensures next { result ≡ next }
    ensures stands { stage.new ≡ stage_behind on next }
{
    match next {
        Next::Done => Next::Done,
        Next::Found(_)
        | Next::Shown { .. }
        | Next::Again
        | Next::Out
        | Next::Sleep
        | Next::Wake(_)
        | Next::Busy(_)
        | Next::Reversed(_)
        | Next::Halted => come_to(stage, behind(on, next)),
    }
}

// Begins a wake.
pub(crate) fn begin_wake(
    floor: &Floor,
    pass: &mut Pass,
    stage: &mut Stage,
    c: ChanNo,
    all: bool,
) -> Next
    requires { MayMake (request.WakeUp c all) (thread_at floor.now stage.old pass.old) }
    ensures { HasMade (request.WakeUp c all) result (thread_at floor.now stage.old pass.old)
        (thread_at floor.now stage.new pass.new) }
{
    come_to(stage, wake_up(floor, pass, c, all))
}

// Begins a wait.
pub(crate) fn begin_wait(floor: &Floor, pass: &mut Pass, stage: &mut Stage, c: ChanNo) -> Next
    requires { MayMake (request.Wait c) (thread_at floor.now stage.old pass.old) }
    ensures { HasMade (request.Wait c) result (thread_at floor.now stage.old pass.old)
        (thread_at floor.now stage.new pass.new) }
{
    come_to(stage, wait(floor, pass, c))
}

// Begins the thread's end.
pub(crate) fn begin_end(floor: &Floor, pass: &mut Pass, stage: &mut Stage) -> Next
    requires { MayMake request.End (thread_at floor.now stage.old pass.old) }
    ensures { HasMade request.End result (thread_at floor.now stage.old pass.old)
        (thread_at floor.now stage.new pass.new) }
{
    come_to(stage, end(floor, pass, EndAt::Takes))
}

// Goes on with the call that the thread is in the middle of.
pub(crate) fn go_on(floor: &Floor, pass: &mut Pass, stage: &mut Stage) -> Next
    requires one_chain { floor.now.description.chains ≡ 1 }
    requires may { MayMake request.GoOn (thread_at floor.now stage.old pass.old) }
    ensures { HasMade request.GoOn result (thread_at floor.now stage.old pass.old)
        (thread_at floor.now stage.new pass.new) }
{
    let made = go_on_at(floor, pass, *stage);
    come_to(stage, made)
}

// Begins a wake, or begins it again where another thread had the channel's chain.
fn wake_up(floor: &Floor, pass: &mut Pass, c: ChanNo, all: bool) -> (Next, Stage)
    requires ready { IsReady floor.now pass.old }
    requires may { MayWakeUp floor.now.description c.0 pass.old.view }
    ensures at { IsAt floor.now result.1 pass.new }
    ensures did { MakesWakePart floor.now.description c all result.0 result.1 pass.old pass.new }
{
    match begin_wakeup(floor, pass, c, all) {
        None => (Next::Again, Stage::ComesToWake { c, all }),
        Some(_) => (Next::Again, Stage::Wakes),
    }
}

// Goes on with the end of a thread that stands there, and finishes its pass where that is done.
fn end(floor: &Floor, pass: &mut Pass, at: EndAt) -> (Next, Stage)
    requires there { IsEndingAt floor.now at pass.old }
    ensures at { IsAt floor.now result.1 pass.new }
    ensures did { MakesEndPart floor.now.description at result.0 result.1 pass.old pass.new }
{
    match go_on_ending(floor, pass, at) {
        EndNext::Done => {
            floor.finish(pass);
            (Next::Done, Stage::Ended)
        }
        EndNext::Again(to) => (Next::Again, Stage::Ends(to)),
        EndNext::Wake(t, to) => (Next::Wake(t), Stage::Ends(to)),
    }
}

// Goes on with the call that a thread at that stage is in the middle of.
fn go_on_at(floor: &Floor, pass: &mut Pass, stage: Stage) -> (Next, Stage)
    requires one_chain { floor.now.description.chains ≡ 1 }
    requires in_call { IsInCall stage }
    requires there { IsAt floor.now stage pass.old }
    ensures at { IsAt floor.now result.1 pass.new }
    ensures did { GoesOn floor.now.description stage result.0 result.1 pass.old pass.new }
{
    match stage {
        Stage::Takes => go_on_in_take(floor, pass),
        Stage::Tries => go_on_in_try(floor, pass),
        Stage::Releases => go_on_in_release(floor, pass),
        Stage::ComesToWake { c, all } => wake_up(floor, pass, c, all),
        Stage::Wakes => go_on_in_wake(floor, pass),
        Stage::Waits { on, at } => go_on_in_wait(floor, pass, on, at),
        Stage::ComesToGiveUp(on) => come_to_give_up(floor, pass, on),
        Stage::GivesUp { on, at } => give_up(floor, pass, on, at),
        Stage::TakesBack { on, aborted, at } => take_back(floor, pass, on, aborted, at),
        Stage::Ends(at) => end(floor, pass, at),
        Stage::AtRest | Stage::Ended => unreachable!(),
    }
}

// Goes on with a take.
#[inline(always)]
fn go_on_in_take(floor: &Floor, pass: &mut Pass) -> (Next, Stage)
    requires one_chain { floor.now.description.chains ≡ 1 }
    requires there { IsAt floor.now Takes pass.old }
    ensures at { IsAt floor.now result.1 pass.new }
    ensures did { GoesOn floor.now.description Takes result.0 result.1 pass.old pass.new }
{
    let part = go_on_taking(floor, pass);
    behind(Stage::Takes, told(part))
}

// Goes on with a try.
#[inline(always)]
fn go_on_in_try(floor: &Floor, pass: &mut Pass) -> (Next, Stage)
    requires there { IsAt floor.now Tries pass.old }
    ensures at { IsAt floor.now result.1 pass.new }
    ensures did { GoesOn floor.now.description Tries result.0 result.1 pass.old pass.new }
{
    let part = go_on_trying(floor, pass);
    behind(Stage::Tries, told_of_try(part))
}

// Goes on with a release.
#[inline(always)]
fn go_on_in_release(floor: &Floor, pass: &mut Pass) -> (Next, Stage)
    requires there { IsAt floor.now Releases pass.old }
    ensures at { IsAt floor.now result.1 pass.new }
    ensures did { GoesOn floor.now.description Releases result.0 result.1 pass.old pass.new }
{
    let part = go_on_releasing(floor, pass);
    behind(Stage::Releases, told(part))
}

// Goes on with a wake that has taken sleepers off.
fn go_on_in_wake(floor: &Floor, pass: &mut Pass) -> (Next, Stage)
    requires there { IsAt floor.now Wakes pass.old }
    ensures at { IsAt floor.now result.1 pass.new }
    ensures did { GoesOn floor.now.description Wakes result.0 result.1 pass.old pass.new }
{
    match go_on_waking(floor, pass) {
        WakeNext::Done => (Next::Done, Stage::AtRest),
        WakeNext::Again => (Next::Again, Stage::Wakes),
        WakeNext::Wake(t) => (Next::Wake(t), Stage::Wakes),
    }
}

// What a part of a lock's call answered, and the stage behind it.
#[inline(always)]
fn behind(on: Stage, next: Next) -> (Next, Stage)
    ensures { result ≡ (next, stage_behind on next) }
{
    (next, stage_behind(on, next))
}
