//! What the machine keeps of a thread: its record, its wait word, and what it is in the middle of.
ghost use Rattle.std.specs.Prelude.{not, false, ◌≡◌, ◌<◌, ◌++◌, [], ◌∷◌, length, remove, None, IfOk};
ghost use Rattle.std.specs.Vec.{vec_capacity};
ghost use Rattle.lock_model.specs.Operations.{hold_in, without_lock};
ghost use Rattle.lock_state.specs.Run.{mode_held};
ghost use Rattle.lock_model.specs.Holds.{is_unheld};
ghost use Rattle.lock_objects.specs.Represents.{hold_of};
ghost use Rattle.step_machine.specs.Steps.{mode_left};
ghost use Rattle.step_machine.specs.Threads.{IsNew, thread_has_ended};

use lock_model::limits::HELD;
use lock_model::{ChanNo, Held, LockNo, Mode, Op, Prio, QueueName, ThreadNo, place_held};
use lock_objects::{Marked, Wait};
use prio_lending::Walk;
use std::alloc::{AllocError, Global};
use thread_records::ThreadRec;

/// A thread between two steps.
#[derive(Drop)]
pub struct Thread {
    pub record: Box<ThreadRec>,
    pub wait: Wait,
    pub walk: Walk,
    /// The locks that it holds, in order of acquisition. There is room for as many as a thread may hold.
    pub held: Vec<Held>,
    /// The mode in which it held the lock that it released last.
    pub left: Mode,
    /// The channel on which it waits, from its entry of that on, until the one that its wait is over.
    pub waits_on: Option<ChanNo>,
    /// Those that it took off a queue and has yet to wake, and that queue.
    pub marked: Marked,
    pub marked_from: QueueName,
    /// How many of its operations are behind it.
    pub next_op: usize,
    /// Whether it has a lock to gain: one that was admitted, or that of its wait, from its resume on.
    pub wants: bool,
    /// Whether a take of it was refused: its operations from there on are not made.
    pub cut: bool,
}

impl Thread {
    /// A thread at its begin: all its objects are at home.
    pub fn make(alloc: Global, t: ThreadNo, base: Prio) -> Result<Thread, AllocError>
        ensures { IfOk result (IsNew t.0 base.0) }
    {
        Ok(Thread {
            record: ThreadRec::make(alloc, t, base)?,
            wait: Wait::Running,
            walk: Walk::None,
            held: Vec::with_capacity(alloc, HELD)?,
            left: Mode::Excl,
            waits_on: None,
            marked: Marked::none(),
            marked_from: QueueName::Lock(LockNo(0)),
            next_op: 0,
            wants: false,
            cut: false,
        })
    }

    /// Whether all its operations are done or cut, it owes nothing and holds nothing.
    pub fn has_ended(&self, ops: &[Op]) -> bool
        ensures { result ≡ thread_has_ended (length ops.now) self.now }
    {
        (self.next_op >= ops.len() || self.cut)
            && self.walk == Walk::None
            && self.marked.is_empty()
            && self.held.is_empty()
    }

    /// The mode in which it holds the lock. There is none exactly where it doesn't.
    pub fn mode(&self, l: LockNo) -> Option<Mode>
        ensures { hold_of result ≡ hold_in self.now.held.items l.0 }
    {
        match place_held(l, &self.held) {
            Some(i) => Some(self.held[i].mode),
            None => None,
        }
    }

    /// The same, exclusive where it doesn't hold the lock.
    pub fn mode_held(&self, l: LockNo) -> Mode
        ensures { result ≡ mode_held (hold_in self.now.held.items l.0) }
    {
        self.mode(l).unwrap_or(Mode::Excl)
    }

    /// Whether it holds the lock.
    pub fn holds(&self, l: LockNo) -> bool
        ensures { result ≡ not (is_unheld (hold_in self.now.held.items l.0)) }
    {
        self.mode(l).is_some()
    }

    /// Takes the lock off those that it holds.
    #[tactic(auto, using(lock_model::proofs::HeldLocks::taken_out))]
    #[inline(always)]
    pub fn put_down(&mut self, l: LockNo)
        ensures held { self.new.held.items ≡ without_lock l.0 self.old.held.items }
        ensures room { vec_capacity self.new.held ≡ vec_capacity self.old.held }
        ensures left { self.new.left ≡ mode_left (hold_in self.old.held.items l.0) self.old.left }
        ensures others { self.new ≡ record self.old { held = self.new.held; left = self.new.left } }
    {
        if let Some(i) = place_held(l, &self.held) {
            self.left = self.held[i].mode;
            take_out(i, &mut self.held);
        }
    }

    /// Puts a lock behind those that it holds. There is no lock to gain any more.
    pub fn pick_up(&mut self, held: Held)
        requires { length self.old.held.items < vec_capacity self.old.held }
        ensures held { self.new.held.items ≡ self.old.held.items ++ held ∷ [] }
        ensures room { vec_capacity self.new.held ≡ vec_capacity self.old.held }
        ensures others { self.new ≡ record self.old { held = self.new.held; wants = false } }
    {
        self.held.push_reserved(held);
        self.wants = false;
    }
}

// Takes out what stands at a place. Mostly that is the last.
#[inline(always)]
fn take_out(i: usize, held: &mut Vec<Held>)
    requires { i < length held.old.items }
    ensures held { held.new.items ≡ remove held.old.items i }
    ensures room { vec_capacity held.new ≡ vec_capacity held.old }
{
    if i + 1 == held.len() {
        held.take_last();
    } else {
        held.remove(i);
    }
}
