//! Turns: which steps a thread makes when it has its turn. Each function is an action, or the operations of
//! one sort, and makes the steps of the definition's action (`lock_state`'s `specs/Run.antt`) one by one.
//!
//! - `walks`: the hops of a lending walk.
//! - `locks`: the operations that gain and release locks.
//! - `waits`: the operations that wait and wake, and the release after a wait's first turn.
ghost use Rattle.std.specs.Prelude.{◌≡◌, ◌<◌, false, length, Some};
ghost use Rattle.lock_model.specs.Operations.{IsProper};
ghost use Rattle.lock_state.specs.Run.{has_ended};
ghost use Rattle.run_laws.specs.OnTrack.{IsAtOperation};
ghost use Rattle.step_machine.specs.Steps.{HasKey};
ghost use Rattle.step_world.specs.Runs.{HasRun, Follows, MakesAction, KeepsWhereIdle, IsFree, IsNote, answer_of};

use lock_model::{Event, Op, Plan, StepKind, ThreadNo, Turn};
use lock_objects::Wait;
use locks::{give_last_back, release, take_in_order, try_lock};
use prio_lending::Walk;
use step_machine::Machine;
pub use waits::owes;
use waits::{by_release, sleep, wake};
use walks::{walk_at_lock, walk_at_thread};

mod locks;
mod waits;
mod walks;

/// What an operation comes to in a turn: the turn's answer, and how the thread goes on.
pub enum Made {
    /// The operation is still to make.
    Does(Turn),
    /// It is behind the thread.
    Ends(StepKind),
    /// It is a try that found its lock busy, and the thread goes on behind the block, at the operation of that number.
    Skips(u32),
}

/// One turn of a thread, which may have ended.
pub fn turn(machine: &mut Machine, plan: &Plan, t: ThreadNo) -> Turn
    requires proper { IsProper plan.now }
    requires thread { t.0 < length plan.now.threads }
    requires run { HasRun plan.now machine.old (λ r. Unit) }
    ensures follows { Follows plan.now t.0 machine.old machine.new result (λ r. Unit) }
    ensures unchanged { KeepsWhereIdle result machine.old machine.new }
{
    let thread = &machine.threads[usize::from(t.0)];
    if thread.has_ended(plan.operations_of(t)) {
        Turn::Ended
    } else {
        act(machine, plan, t)
    }
}

/// A turn of one that hasn't ended: a walk first, then the marked list, then a release after a wait's first turn, then
/// the wait word, and then its operation.
pub fn act(machine: &mut Machine, plan: &Plan, t: ThreadNo) -> Turn
    requires proper { IsProper plan.now }
    requires thread { t.0 < length plan.now.threads }
    requires run { HasRun plan.now machine.old (λ r. has_ended plan.now r t.0 ≡ false) }
    ensures follows { Follows plan.now t.0 machine.old machine.new result
        (λ r. has_ended plan.now r t.0 ≡ false) }
    ensures unchanged { KeepsWhereIdle result machine.old machine.new }
{
    let thread = &machine.threads[usize::from(t.0)];
    match thread.walk {
        Walk::AtLock(l) => walk_at_lock(machine, plan, t, l),
        Walk::AtThread(o) => walk_at_thread(machine, plan, t, o),
        Walk::None => {
            if thread.marked.is_empty() {
                by_release(machine, plan, t)
            } else {
                machine.mark(t);
                Turn::Did(StepKind::Mark)
            }
        }
    }
}

// A queued thread is idle, a woken one runs again, and a running one makes its operation, or was cut and gives back
// what it holds.
pub fn by_wait(machine: &mut Machine, plan: &Plan, t: ThreadNo) -> Turn
    requires proper { IsProper plan.now }
    requires thread { t.0 < length plan.now.threads }
    requires run { HasRun plan.now machine.old (λ r. IsFree plan.now r t.0) }
    ensures follows { Follows plan.now t.0 machine.old machine.new result
        (λ r. IsFree plan.now r t.0) }
    ensures unchanged { KeepsWhereIdle result machine.old machine.new }
{
    let thread = &machine.threads[usize::from(t.0)];
    match thread.wait {
        Wait::Queued => Turn::Idle,
        Wait::Woken(_) => {
            machine.resume(t);
            Turn::Did(StepKind::Resume)
        }
        Wait::Running if thread.cut => give_last_back(machine, plan, t),
        Wait::Running => match plan.operations_of(t).get(thread.next_op) {
            Some(op) => operate(machine, plan, t, *op),
            None => Turn::Idle,
        },
    }
}

// A running thread makes its operation, and goes on as that leaves it.
fn operate(machine: &mut Machine, plan: &Plan, t: ThreadNo, op: Op) -> Turn
    requires proper { IsProper plan.now }
    requires thread { t.0 < length plan.now.threads }
    requires run { HasRun plan.now machine.old (λ r. IsAtOperation plan.now r t.0 (Some op)) }
    ensures follows { Follows plan.now t.0 machine.old machine.new result
        (λ r. IsAtOperation plan.now r t.0 (Some op)) }
    ensures unchanged { KeepsWhereIdle result machine.old machine.new }
{
    let following = machine.threads[usize::from(t.0)].next_op + 1;
    match make_operation(machine, plan, t, op) {
        Made::Does(turn) => turn,
        Made::Ends(kind) => {
            machine.go_on(t, plan.operations_of(t), following);
            Turn::Did(kind)
        }
        Made::Skips(past) => {
            machine.go_on(t, plan.operations_of(t), past as usize);
            Turn::Did(StepKind::Note)
        }
    }
}

// The steps of a running thread's operation.
fn make_operation(machine: &mut Machine, plan: &Plan, t: ThreadNo, op: Op) -> Made
    requires proper { IsProper plan.now }
    requires thread { t.0 < length plan.now.threads }
    requires run { HasRun plan.now machine.old (λ r. IsAtOperation plan.now r t.0 (Some op)) }
    ensures makes { MakesAction plan.now t.0 machine.old machine.new result
        (λ r. IsAtOperation plan.now r t.0 (Some op)) }
    ensures unchanged { KeepsWhereIdle (answer_of result) machine.old machine.new }
{
    match op {
        Op::Take { l, mode } => take_in_order(machine, plan, t, l, mode),
        Op::Try { l, mode, past } => try_lock(machine, plan, t, l, mode, past),
        Op::Release { l } => release(machine, plan, t, l),
        Op::Set { l, key, value } => note(machine, plan, t, Event::Set { l, key, value }),
        Op::Add { l, key, amount } => note(machine, plan, t, Event::Added { l, key, amount }),
        Op::Get { l, key } => {
            let found = machine.tables.get(l, key);
            note(machine, plan, t, Event::Got { l, key, found })
        }
        Op::Base { prio } => note(machine, plan, t, Event::Base { prio }),
        Op::Show => {
            let record = &machine.threads[usize::from(t.0)].record;
            let base = record.base();
            let eff = record.eff();
            note(machine, plan, t, Event::Shown { base, eff })
        }
        Op::Sleep { c } => sleep(machine, plan, t, c),
        Op::WakeOne { c } => wake(machine, plan, t, c, false),
        Op::WakeAll { c } => wake(machine, plan, t, c, true),
        Op::EndTry => Made::Does(Turn::Idle),
    }
}

// An operation that only makes an entry, which the run may make. It is inlined, since each call knows its event.
#[inline(always)]
fn note(machine: &mut Machine, plan: &Plan, t: ThreadNo, event: Event) -> Made
    requires proper { IsProper plan.now }
    requires thread { t.0 < length plan.now.threads }
    requires run { HasRun plan.now machine.old (λ r. IsNote plan.now r t.0 event) }
    requires key { HasKey machine.old event }
    ensures makes { MakesAction plan.now t.0 machine.old machine.new result
        (λ r. IsNote plan.now r t.0 event) }
    ensures unchanged { KeepsWhereIdle (answer_of result) machine.old machine.new }
{
    machine.stamp(t, event);
    Made::Ends(StepKind::Note)
}
