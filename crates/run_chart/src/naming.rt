//! Whom the arrows and the sentence of a turn name, and which lock.
ghost use Rattle.std.specs.Prelude.{◌≡◌, ◌<◌, length, IfOk};
ghost use Rattle.lock_objects.specs.Represents.{wait_of};
ghost use Rattle.run_chart.specs.Runs.{IsTurnOf};
ghost use Rattle.run_chart.specs.Turns.{first_lock, fits, passes, those, wakes_up};

use crate::rows::{TurnOf, holds, stands_on, thread_in};
use lock_model::{ClassNo, LockNo, QueueName, ThreadNo};
use run_tracks::Wait;
use std::alloc::{AllocError, Global};

/// What is asked of the threads in a turn.
#[derive(Clone, Copy)]
pub enum Asked {
    /// Who holds the lock before it.
    Holds(LockNo),
    /// Who stood on the queue before it, and doesn't behind it.
    Leaves(QueueName),
    /// Who was queued before it, and is woken behind it.
    WakesUp,
}

/// The threads of which that is so, by number.
pub fn those(alloc: Global, at: &TurnOf<'_>, asked: Asked) -> Result<Vec<ThreadNo>, AllocError>
    requires { IsTurnOf at.now }
    ensures { IfOk result (λ named. named.items ≡ those at.now.plan.now at.now.turn asked) }
{
    (0..at.plan.threads.as_slice().len())
        .map(|t| ThreadNo(t as u8))
        .filter(|t| passes(at, asked, *t))
        .collect(alloc)
}

fn passes(at: &TurnOf<'_>, asked: Asked, t: ThreadNo) -> bool
    requires turn { IsTurnOf at.now }
    requires thread { t.0 < length at.now.rows.now.threads }
    ensures { result ≡ passes at.now.plan.now at.now.turn asked t.0 }
{
    match asked {
        Asked::Holds(l) => holds(at, at.turn, l, t),
        Asked::Leaves(q) => stands_on(at, at.turn, q, t) && !stands_on(at, at.turn + 1, q, t),
        Asked::WakesUp => wakes_up(
            thread_in(at, at.turn, t).wait,
            thread_in(at, at.turn + 1, t).wait,
        ),
    }
}

fn wakes_up(before: Wait, behind: Wait) -> bool
    ensures { result ≡ wakes_up (wait_of before) (wait_of behind) }
{
    match (before, behind) {
        (Wait::Queued, Wait::Woken(_)) => true,
        (Wait::Queued, Wait::Running | Wait::Queued) | (Wait::Running | Wait::Woken(_), _) => false,
    }
}

/// What is asked of the locks in a turn, and of its thread.
#[derive(Clone, Copy)]
pub enum Sought {
    /// Which it holds behind the turn, and didn't before it.
    Gained,
    /// Which it held before the turn, and doesn't behind it.
    GivenUp,
    /// Which it holds before the turn, of the class.
    OfClass(ClassNo),
}

/// The first lock of which that is so.
pub fn first_lock(at: &TurnOf<'_>, sought: Sought) -> Option<LockNo>
    requires { IsTurnOf at.now }
    ensures { result ≡ first_lock at.now.plan.now at.now.turn at.now.who.0 sought }
{
    (0..at.plan.locks.as_slice().len())
        .map(|l| LockNo(l as u8))
        .find(|l| fits(at, sought, *l))
}

fn fits(at: &TurnOf<'_>, sought: Sought, l: LockNo) -> bool
    requires { IsTurnOf at.now }
    ensures { result ≡ fits at.now.plan.now at.now.turn at.now.who.0 sought l.0 }
{
    let before = holds(at, at.turn, l, at.who);
    match sought {
        Sought::Gained => holds(at, at.turn + 1, l, at.who) && !before,
        Sought::GivenUp => before && !holds(at, at.turn + 1, l, at.who),
        Sought::OfClass(class) => before && at.plan.lock_class(l) == class,
    }
}
