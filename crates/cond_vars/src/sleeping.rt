//! What the parts of a wait do, as `sleepq_lock`, `sleepq_add` and `sleepq_release` of FreeBSD's subr_sleepqueue.c: the
//! thread lies down on the channel's queue, and notes how its sleep ended.
ghost use Rattle.std.specs.Prelude.{◌≡◌};
ghost use Rattle.lock_floor.specs.Passes.{IsOf};
ghost use Rattle.lock_floor.specs.Resumes.{cause_of};
ghost use Rattle.lock_model.specs.Holds.{Holds};
ghost use Rattle.lock_model.specs.Operations.{hold_in};
ghost use Rattle.cond_vars.specs.Sleeping.{MayLieDown, LiesThere, IsBack, NotesEnd};
ghost use Rattle.cond_vars.specs.Waits.{MayWait, lock_of};

use lock_floor::{Floor, Pass};
use lock_model::{ChanNo, Event, LockNo, Mode, QueueName};

/// Lies down with the channel's chain and the own record out, and gives both back. It never waits.
pub fn lie_down(floor: &Floor, pass: &mut Pass, c: ChanNo)
    requires own { IsOf floor.now pass.old }
    requires may { MayLieDown floor.now.description c.0 pass.old.view }
    ensures own { IsOf floor.now pass.new }
    ensures lies { LiesThere floor.now.description c pass.old.view pass.new.view }
{
    let who = pass.thread();
    floor.ready(pass, QueueName::Chan(c), true);
    floor.stamp(pass, Event::Sleeps { c });
    floor.add(pass, c);
    floor.give_rec(pass, who);
    floor.give_chain(pass, QueueName::Chan(c));
}

/// Notes how the sleep ended, once the lock is held again.
pub fn note_end(floor: &Floor, pass: &mut Pass, c: ChanNo, aborted: bool)
    requires own { IsOf floor.now pass.old }
    requires back { IsBack floor.now.description c (cause_of aborted) pass.old.view }
    ensures own { IsOf floor.now pass.new }
    ensures notes { NotesEnd floor.now.description c (cause_of aborted)
        pass.old.view pass.new.view }
{
    if aborted {
        floor.stamp(pass, Event::HaltedChan { c });
    } else {
        floor.stamp(pass, Event::Woke { c });
    }
}

/// The lock of a channel, which the thread gained last.
pub fn last_held(floor: &Floor, pass: &Pass, c: ChanNo) -> LockNo
    requires may { MayWait floor.now.description c.0 pass.now.view }
    ensures { result.0 ≡ lock_of floor.now.description c.0 }
{
    match pass.held().last() {
        Some(hold) => hold.l,
        None => unreachable!(),
    }
}

/// The mode in which the thread holds that lock.
pub fn mode_of(floor: &Floor, pass: &Pass, c: ChanNo, l: LockNo) -> Mode
    requires may { MayWait floor.now.description c.0 pass.now.view }
    requires lock { l.0 ≡ lock_of floor.now.description c.0 }
    ensures { hold_in pass.now.view.share.held l.0 ≡ Holds result }
{
    match pass.mode(l) {
        Some(mode) => mode,
        None => unreachable!(),
    }
}
