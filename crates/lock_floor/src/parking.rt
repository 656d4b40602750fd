//! How a thread that stands on a queue sleeps until it is woken, and runs again, as at the end of `turnstile_wait` and
//! `sleepq_wait` of FreeBSD's subr_turnstile.c and subr_sleepqueue.c. It sleeps on its wait word: the system puts it to
//! sleep only where the word still says that it is queued, and who wakes it ends the sleep once the word says
//! otherwise.
ghost use Rattle.std.specs.Prelude.{◌≡◌, ◌<◌, ◌≤◌, false, length, IfNone, IfSome, bit_and};
ghost use Rattle.atomic_table.specs.Table.{Allows};
ghost use Rattle.floor_table.specs.Places.{spot, wait_line};
ghost use Rattle.floor_table.specs.Rule.{FloorHolds};
ghost use Rattle.floor_table.specs.Views.{seeing};
ghost use Rattle.lock_floor.specs.Passes.{IsOf};
ghost use Rattle.lock_floor.specs.Resumes.{cause_of, FindsQueued, FindsWhetherQueued, MayRunAgain, RunsAgain};

use crate::floor::FloorOf;
use crate::pass::Pass;
use floor_table::{
    Board, Description, FloorSeat, Law, Slot, Tells, View, keep_bits, load, wait_spot,
};
use lock_model::ThreadNo;
use std::marker::Brand;
use std::sync::Wait;

// What a wait word says of a thread that is queued.
const QUEUED: u64 = 1;

// And of one that an abort woke.
const ABORTED: u64 = 4;

impl FloorOf<Slot, View, Description, Law> {
    /// Runs again, where the thread was woken off the queue on which it stands, and answers whether an abort woke it.
    /// `None` comes only where the thread was still queued at a moment of this call. It is one atomic step and never
    /// waits.
    pub fn try_resume(&self, pass: &mut Pass) -> Option<bool>
        requires own { IsOf self.now pass.old }
        requires may { MayRunAgain self.now.description pass.old.view }
        ensures own { IsOf self.now pass.new }
        ensures woken { IfSome result (λ aborted.
            RunsAgain self.now.description (cause_of aborted) pass.old.view pass.new.view) }
        ensures left { IfNone result (pass.new.view
            ≡ seeing pass.new.view.seen pass.old.view) }
        ensures queued { IfNone result (FindsQueued self.now.description
            pass.old.view pass.new.view) }
    {
        let found = run_again::<Brand>(&self.board, &mut pass.seat, pass.who);
        if found == QUEUED {
            return None;
        }
        Some(found == ABORTED)
    }

    /// Sleeps while the thread's wait word says that it is queued. It is no step, and may end for no reason.
    pub fn sleep<R: Wait>(&self, rt: &R, pass: &Pass)
        requires { IsOf self.now pass.now }
    {
        self.board
            .shared
            .park(rt, wait_spot(pass.who), QUEUED as u32);
    }

    /// Ends the sleep of a thread on its wait word. It is no step, and a thread that doesn't sleep there takes no
    /// notice of it. It comes behind the mark, by which the word says that the thread was woken.
    pub fn unpark(&self, t: ThreadNo)
        requires { t.0 < length self.now.description.threads }
    {
        self.board.shared.wake_one(wait_spot(t));
    }

    /// Finds out whether a thread is queued, as who spins for a lock asks of its owner. A thread that the floor doesn't
    /// have never is. It is one atomic step, which is no step of the state, and never waits.
    pub fn find_queued(&self, pass: &mut Pass, t: ThreadNo) -> bool
        requires own { IsOf self.now pass.old }
        ensures own { IsOf self.now pass.new }
        ensures view { pass.new.view ≡ seeing pass.new.view.seen pass.old.view }
        ensures found { t.0 < length self.now.description.threads
            → FindsWhetherQueued self.now.description t.0 result pass.old.view pass.new.view }
        ensures beyond { length self.now.description.threads ≤ t.0
            → (result ≡ false) × (pass.new.view ≡ pass.old.view) }
    {
        if usize::from(t.0) >= self.description.threads.as_slice().len() {
            return false;
        }
        read_wait::<Brand>(&self.board, &mut pass.seat, t) == QUEUED
    }

    /// Whether a thread's wait word says that it is queued, by a plain load, which tells nothing: for a scheduler,
    /// which has no pass to step with. A thread that the floor doesn't have never is.
    pub fn is_queued(&self, t: ThreadNo) -> bool
        ensures { length self.now.description.threads ≤ t.0 → result ≡ false }
    {
        usize::from(t.0) < self.description.threads.as_slice().len()
            && self.board.shared.peek(wait_spot(t)) == QUEUED
    }
}

// Makes the thread's own wait word say that it runs, where it says that it was woken: the last bit of the word is kept,
// which only that of a queued thread has. Answers the word that it found.
fn run_again<J: Tells>(board: &Board, seat: &mut FloorSeat, who: ThreadNo) -> u64
    requires own { seat.old.table_id ≡ board.now.shared.table_id }
    requires within { spot (wait_line who.0) < board.now.shared.table_id.words }
    requires may { Allows (FloorHolds board.now.shared.key) board.now.shared.table_id.slots
        seat.old.id seat.old.me (spot (wait_line who.0)) (λ n. bit_and n 1)
        (J.told seat.old.me) }
    ensures own { seat.new.table_id ≡ seat.old.table_id }
    ensures told { J.told seat.old.me result seat.new.me }
{
    keep_bits::<J>(board, seat, wait_spot(who), 1)
}

// Reads a thread's wait word.
fn read_wait<J: Tells>(board: &Board, seat: &mut FloorSeat, t: ThreadNo) -> u64
    requires own { seat.old.table_id ≡ board.now.shared.table_id }
    requires within { spot (wait_line t.0) < board.now.shared.table_id.words }
    requires may { Allows (FloorHolds board.now.shared.key) board.now.shared.table_id.slots
        seat.old.id seat.old.me (spot (wait_line t.0)) (λ n. n) (J.told seat.old.me) }
    ensures own { seat.new.table_id ≡ seat.old.table_id }
    ensures told { J.told seat.old.me result seat.new.me }
{
    load::<J>(board, seat, wait_spot(t))
}
