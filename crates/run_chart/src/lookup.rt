//! What the rows of a run say of a turn: whom it lent to, on which lock its thread blocked, behind whom, and what it
//! noted.
ghost use Rattle.std.specs.Prelude.{◌≡◌, ◌≤◌, ◌==◌, Some, length, map, option_map, slice_get};
ghost use Rattle.std.specs.List.{find, list_any};
ghost use Rattle.lock_history.specs.Outcomes.{waiter_seen};
ghost use Rattle.run_chart.specs.Lines.{is_line_of, lists_of};
ghost use Rattle.run_chart.specs.Runs.{IsTurnOf};
ghost use Rattle.run_chart.specs.Turns.{blocked_on, event_in, first_writer, loan_in, lock_named, refused_in, state_in, went_behind};
ghost use Rattle.run_tracks.specs.Rows.{entry_in};
ghost use Rattle.lock_model.specs.Queues.{lock_queue};

use crate::rows::{TurnOf, named_by, owner_in, thread_in, turn_at};
use lock_history::QueueLine;
use lock_model::{ClassNo, Entry, Event, LockNo, Prio, QueueName, ThreadNo};
use run_tracks::Walk;

/// What a hop of a walk lent: to the owner of a lock, which ran as one priority before the turn and as the other behind
/// it.
#[derive(Clone, Copy, Debug)]
pub struct HopLoan {
    pub to: ThreadNo,
    pub lock: LockNo,
    pub before: Prio,
    pub prio: Prio,
}

/// What was lent in a turn, if its thread's walk stood at a lock that has an owner.
pub fn loan_in(at: &TurnOf<'_>) -> Option<HopLoan>
    requires { IsTurnOf at.now }
    ensures { result ≡ loan_in at.now.plan.now at.now.turn at.now.who.0 }
{
    match thread_in(at, at.turn, at.who).walk {
        Walk::AtLock(lock) => {
            let to = owner_in(at, at.turn, lock)?;
            Some(HopLoan {
                to,
                lock,
                before: thread_in(at, at.turn, to).effective,
                prio: thread_in(at, at.turn + 1, to).effective,
            })
        }
        Walk::None | Walk::AtThread(_) => None,
    }
}

/// The lock on which a turn blocked its thread.
pub fn blocked_on(at: &TurnOf<'_>) -> Option<LockNo>
    requires { IsTurnOf at.now }
    ensures { result ≡ blocked_on at.now.plan.now at.now.turn at.now.who.0 }
{
    lock_named(named_by(at, at.turn + 1, at.who))
}

/// The lock whose queue is named.
pub fn lock_named(q: Option<QueueName>) -> Option<LockNo>
    ensures { result ≡ lock_named q }
{
    match q? {
        QueueName::Lock(l) => Some(l),
        QueueName::Chan(_) => None,
    }
}

/// The writer that waits for a lock and came first, where a thread blocked on it to share it with others that share it.
#[tactic(auto, using(crate::proofs::Turns::unowned))]
pub fn went_behind(at: &TurnOf<'_>, l: LockNo) -> Option<ThreadNo>
    requires { IsTurnOf at.now }
    ensures { result ≡ went_behind at.now.plan.now at.now.turn l.0 at.now.who.0 }
{
    if owner_in(at, at.turn, l).is_some() {
        return None;
    }
    first_writer(line_in(at, at.turn + 1, l)?, at.who)
}

// The line of a lock's queue in a row.
fn line_in<'a>(at: &TurnOf<'a>, row: u32, l: LockNo) -> Option<&'a QueueLine>
    requires turn { IsTurnOf at.now }
    requires row { row ≤ length at.now.rows.now.turns }
    ensures { lists_of (option_map (λ line. line.now) result)
        ≡ (state_in at.now.plan.now row).lists (lock_queue l.0) }
{
    line_of(at.rows.queues.get(row).as_slice(), l)
}

fn line_of(lines: &[QueueLine], l: LockNo) -> Option<&QueueLine>
    ensures { option_map (λ line. line.now) result ≡ find (is_line_of l.0) lines.now }
{
    lines.iter().find(|line| line.q == QueueName::Lock(l))
}

// The first that waits to hold the lock alone, where the thread waits there to share it.
fn first_writer(line: &QueueLine, who: ThreadNo) -> Option<ThreadNo>
    ensures { result ≡ first_writer (lists_of (Some line.now)) who.0 }
{
    if waits_in(line.shared.as_slice(), who) {
        first_in(line.excl.as_slice())
    } else {
        None
    }
}

fn waits_in(waiters: &[(ThreadNo, Prio)], who: ThreadNo) -> bool
    ensures { result ≡ list_any (λ w. w.0.0 == who.0) waiters.now }
{
    waiters.iter().any(|waiter| waiter.0 == who)
}

fn first_in(waiters: &[(ThreadNo, Prio)]) -> Option<ThreadNo>
    ensures { result
        ≡ option_map (λ w. record { 0 = w.thread }) (slice_get (map waiter_seen waiters.now) 0) }
{
    Some(waiters.first()?.0)
}

/// The entry that a turn made.
pub fn entry_in(at: &TurnOf<'_>) -> Option<Entry>
    requires { IsTurnOf at.now }
    ensures { result ≡ entry_in at.now.plan.now at.now.turn }
{
    turn_at(at.rows, at.turn).entry
}

/// The event of that.
pub fn event_in(at: &TurnOf<'_>) -> Option<Event>
    requires { IsTurnOf at.now }
    ensures { result ≡ event_in at.now.plan.now at.now.turn }
{
    Some(entry_in(at)?.event)
}

/// The lock that its thread was refused, and the class of the held one that forbids it.
pub fn refused_in(at: &TurnOf<'_>) -> Option<(LockNo, ClassNo)>
    requires { IsTurnOf at.now }
    ensures { option_map (λ r. (r.0.0, r.1.0)) result ≡ refused_in at.now.plan.now at.now.turn }
{
    event_in(at)?.refused()
}
