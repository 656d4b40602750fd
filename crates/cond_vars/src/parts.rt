//! A wait part by part, for threads of a runtime of one's own or of a kernel: no part waits. Where a wait stands, the
//! caller keeps. It releases the lock within the wait and takes it back by the parts of the lock's own crate.
ghost use Rattle.lock_floor.specs.Passes.{IsOf};
ghost use Rattle.cond_vars.specs.declared.parts.WaitAt.TheVariants.{ComesTo, ComesIn, Parks, Halts, Sleeps, Notes};
ghost use Rattle.cond_vars.specs.Parts.{IsThen, IsWaiting, WaitPart};

use crate::sleeping::{lie_down, note_end};
use halting::{Next, go_on_halting};
use lock_floor::{Count, Floor, HaltAt, Pass};
use lock_model::{ChanNo, QueueName, ThreadNo};

/// Where in a wait the thread is.
#[derive(Clone, Copy, Debug, PartialEq, Eq)]
pub enum WaitAt {
    /// It takes the channel's chain.
    ComesTo,
    /// It has the chain out, and takes its own record: then it comes to stand on the channel's queue, and gives both
    /// back.
    ComesIn,
    /// It stands on the queue, and its lock is released: it counts itself out.
    Parks,
    /// It has counted itself out, and that left nobody awake: it halts others.
    Halts(HaltAt),
    /// It has counted itself out: it runs again, if it was woken.
    Sleeps,
    /// It has its lock back: it notes whether an abort ended its sleep.
    Notes(bool),
}

/// What the caller is to do next.
#[derive(Clone, Copy, Debug, PartialEq, Eq)]
pub enum WaitNext {
    /// Nothing: the wait is done, and the pass is at rest.
    Done,
    /// Nothing: the sleep was ended by an abort. That is noted, the lock is held again, and the pass is at rest.
    Halted,
    /// Go on from there, maybe after a pause.
    Again(WaitAt),
    /// Sleep until the own wait word says that the thread was woken, or for a while, and then go on from `Sleeps`.
    Sleep,
    /// End the sleep of that thread, which was woken, and then go on from there.
    Wake(ThreadNo, WaitAt),
    /// Release the lock of the wait, without an entry, and then go on from `Parks`.
    Release,
    /// Take the lock back in its mode, without an entry, and then go on from `Notes`; whether an abort ended the sleep.
    TakeBack(bool),
}

/// Goes on with a wait on a channel that stands there. It begins at `ComesTo`, where the thread is at rest and may
/// wait. `Sleep` comes exactly where the thread has counted itself out, has nobody left to halt, and hasn't run again.
pub fn go_on_waiting(floor: &Floor, pass: &mut Pass, c: ChanNo, at: WaitAt) -> WaitNext
    requires own { IsOf floor.now pass.old }
    requires there { IsWaiting floor.now.description c at pass.old.view }
    ensures own { IsOf floor.now pass.new }
    ensures then { IsThen floor.now.description c result pass.new.view }
    ensures part { WaitPart floor.now.description c at result pass.old.view pass.new.view }
{
    match at {
        WaitAt::ComesTo => come_to(floor, pass, c),
        WaitAt::ComesIn => come_in(floor, pass, c),
        WaitAt::Parks => park(floor, pass, c),
        WaitAt::Halts(there) => halt_on(floor, pass, c, there),
        WaitAt::Sleeps => run_again(floor, pass, c),
        WaitAt::Notes(aborted) => note(floor, pass, c, aborted),
    }
}

// Takes the channel's chain, if it is at home.
fn come_to(floor: &Floor, pass: &mut Pass, c: ChanNo) -> WaitNext
    requires own { IsOf floor.now pass.old }
    requires there { IsWaiting floor.now.description c ComesTo pass.old.view }
    ensures own { IsOf floor.now pass.new }
    ensures then { IsThen floor.now.description c result pass.new.view }
    ensures part { WaitPart floor.now.description c ComesTo result pass.old.view pass.new.view }
{
    if floor.try_take_chain(pass, QueueName::Chan(c)) {
        WaitNext::Again(WaitAt::ComesIn)
    } else {
        WaitNext::Again(WaitAt::ComesTo)
    }
}

// Takes the own record, if it is at home, and lies down.
fn come_in(floor: &Floor, pass: &mut Pass, c: ChanNo) -> WaitNext
    requires own { IsOf floor.now pass.old }
    requires there { IsWaiting floor.now.description c ComesIn pass.old.view }
    ensures own { IsOf floor.now pass.new }
    ensures then { IsThen floor.now.description c result pass.new.view }
    ensures part { WaitPart floor.now.description c ComesIn result pass.old.view pass.new.view }
{
    let who = pass.thread();
    if !floor.try_take_rec(pass, who) {
        return WaitNext::Again(WaitAt::ComesIn);
    }
    lie_down(floor, pass, c);
    WaitNext::Release
}

// Counts itself out.
fn park(floor: &Floor, pass: &mut Pass, c: ChanNo) -> WaitNext
    requires own { IsOf floor.now pass.old }
    requires there { IsWaiting floor.now.description c Parks pass.old.view }
    ensures own { IsOf floor.now pass.new }
    ensures then { IsThen floor.now.description c result pass.new.view }
    ensures part { WaitPart floor.now.description c Parks result pass.old.view pass.new.view }
{
    if floor.count(pass, Count::Out) == 1 {
        WaitNext::Again(WaitAt::Halts(HaltAt::Finds))
    } else {
        WaitNext::Sleep
    }
}

// Goes on with the halting of others.
fn halt_on(floor: &Floor, pass: &mut Pass, c: ChanNo, there: HaltAt) -> WaitNext
    requires own { IsOf floor.now pass.old }
    requires there { IsWaiting floor.now.description c (Halts there) pass.old.view }
    ensures own { IsOf floor.now pass.new }
    ensures then { IsThen floor.now.description c result pass.new.view }
    ensures part { WaitPart floor.now.description c (Halts there) result pass.old.view pass.new.view }
{
    match go_on_halting(floor, pass, there) {
        Next::Done => WaitNext::Sleep,
        Next::Again(to) => WaitNext::Again(WaitAt::Halts(to)),
        Next::Wake(t, to) => WaitNext::Wake(t, WaitAt::Halts(to)),
    }
}

// Runs again, if it was woken.
fn run_again(floor: &Floor, pass: &mut Pass, c: ChanNo) -> WaitNext
    requires own { IsOf floor.now pass.old }
    requires there { IsWaiting floor.now.description c Sleeps pass.old.view }
    ensures own { IsOf floor.now pass.new }
    ensures then { IsThen floor.now.description c result pass.new.view }
    ensures part { WaitPart floor.now.description c Sleeps result pass.old.view pass.new.view }
{
    match floor.try_resume(pass) {
        Some(aborted) => WaitNext::TakeBack(aborted),
        None => WaitNext::Sleep,
    }
}

// Notes how its sleep ended.
fn note(floor: &Floor, pass: &mut Pass, c: ChanNo, aborted: bool) -> WaitNext
    requires own { IsOf floor.now pass.old }
    requires there { IsWaiting floor.now.description c (Notes aborted) pass.old.view }
    ensures own { IsOf floor.now pass.new }
    ensures then { IsThen floor.now.description c result pass.new.view }
    ensures part { WaitPart floor.now.description c (Notes aborted) result
        pass.old.view pass.new.view }
{
    note_end(floor, pass, c, aborted);
    if aborted {
        WaitNext::Halted
    } else {
        WaitNext::Done
    }
}
