//! How a thread ends, part by part, and a loop over the parts that waits.
ghost use Rattle.std.specs.Prelude.{◌≡◌, true, [], None};
ghost use Rattle.halting.specs.declared.ending.EndAt.TheVariants.{Takes};
ghost use Rattle.lock_floor.specs.Passes.{IsOf, IsReady};
ghost use Rattle.halting.specs.Ends.{EndsItself, GoesOnEnding, HasEnded, IsEnding};
ghost use Rattle.halting.specs.Halts.{kept_of};

use crate::halting::{Next, go_on_halting, halt_others};
use crossbeam_utils::Backoff;
use lock_floor::{Count, Floor, HaltAt, Pass};
use lock_model::ThreadNo;
use std::sync::Wait;

/// Where a thread is that ends.
#[derive(Clone, Copy, Debug, PartialEq, Eq)]
pub enum EndAt {
    /// It takes its own record, counts itself among those that have ended, gives the record back, and counts itself
    /// out.
    Takes,
    /// It was the last, and halts others.
    Halts(HaltAt),
}

/// What the caller is to do next.
#[derive(Clone, Copy, Debug, PartialEq, Eq)]
pub enum EndNext {
    /// Nothing: the thread has ended.
    Done,
    /// Go on from there, maybe after a pause.
    Again(EndAt),
    /// End the sleep of that thread, which was woken, and then go on from there.
    Wake(ThreadNo, EndAt),
}

/// Goes on with the end of a thread that stands there. It begins at `Takes`, where the thread is at rest and holds
/// nothing.
pub fn go_on_ending(floor: &Floor, pass: &mut Pass, at: EndAt) -> EndNext
    requires own { IsOf floor.now pass.old }
    requires there { IsEnding floor.now.description at pass.old.view }
    ensures own { IsOf floor.now pass.new }
    ensures went { GoesOnEnding floor.now.description at result pass.old.view pass.new.view }
{
    match at {
        EndAt::Takes => end(floor, pass),
        EndAt::Halts(there) => match go_on_halting(floor, pass, there) {
            Next::Done => EndNext::Done,
            Next::Again(to) => EndNext::Again(EndAt::Halts(to)),
            Next::Wake(t, to) => EndNext::Wake(t, EndAt::Halts(to)),
        },
    }
}

/// Ends the thread, which holds nothing: it counts itself among those that have ended and out of those that are awake,
/// and halts others where that left nobody awake. Its pass makes no step any more. It waits only for a chain or a
/// record that another thread has out.
pub fn end_thread<R: Wait>(floor: &Floor, rt: &R, pass: &mut Pass)
    requires ready { IsReady floor.now pass.old }
    requires unheld { pass.old.view.share.held ≡ [] }
    ensures own { IsOf floor.now pass.new }
    ensures ended { HasEnded floor.now.description pass.new.view }
    ensures kept { kept_of pass.new.view ≡ record (kept_of pass.old.view) { has_ended = true } }
    ensures no_last_look { pass.new.view.share.doing.last_look ≡ None }
    ensures steps { EndsItself floor.now.description pass.old.view pass.new.view }
{
    let backoff = Backoff::new();
    for _ in rt.forever() {
        match end(floor, pass) {
            EndNext::Done => return,
            EndNext::Again(EndAt::Takes) => backoff.snooze(),
            EndNext::Again(EndAt::Halts(_)) => {
                halt_others(floor, rt, pass);
                return;
            }
            EndNext::Wake(..) => unreachable!(),
        }
    }
    unreachable!()
}

// Where it has its own record at home.
fn end(floor: &Floor, pass: &mut Pass) -> EndNext
    requires own { IsOf floor.now pass.old }
    requires there { IsEnding floor.now.description Takes pass.old.view }
    ensures own { IsOf floor.now pass.new }
    ensures went { GoesOnEnding floor.now.description Takes result pass.old.view pass.new.view }
{
    let who = pass.thread();
    if !floor.try_take_rec(pass, who) {
        return EndNext::Again(EndAt::Takes);
    }
    floor.end(pass);
    floor.give_rec(pass, who);
    if floor.count(pass, Count::Out) == 1 {
        EndNext::Again(EndAt::Halts(HaltAt::Finds))
    } else {
        EndNext::Done
    }
}
