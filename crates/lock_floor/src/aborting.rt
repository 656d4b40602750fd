//! How a thread at halting others takes a sleeper off a queue, as in `sleepq_abort` of FreeBSD's subr_sleepqueue.c. It
//! has the chain of sleep queues out in which the queue stands. It is one atomic step, never waits and takes no memory.
ghost use Rattle.std.specs.Prelude.{◌≡◌, ◌<◌, ◌^◌, ℕ, true, Some, ◌∷◌, IsSomeAnd};
ghost use Rattle.atomic_table.specs.Table.{Allows, rest};
ghost use Rattle.chain_table.specs.Chains.{head_of};
ghost use Rattle.lock_objects.specs.Aborts.{aborted_from, chain_aborted};
ghost use Rattle.sleep_queues.specs.Changes.{waits};
ghost use Rattle.floor_table.specs.declared.slot.Slot.TheVariants.{SleepQueues};
ghost use Rattle.floor_table.specs.Places.{spot, latch_line};
ghost use Rattle.floor_table.specs.Rule.{FloorHolds};
ghost use Rattle.lock_floor.specs.Aborts.{MayAbortSleeper, AbortsSleeper};
ghost use Rattle.lock_floor.specs.Passes.{IsOf};
ghost use Rattle.lock_floor.specs.Waits.{IsQueueOf};

use crate::floor::FloorOf;
use crate::pass::Pass;
use floor_table::{Board, Description, FloorSeat, Law, Slot, Tells, View, latch_spot, load};
use lock_model::{QueueName, ThreadNo};
use lock_objects::Marked;
use sleep_queues::SleepTaken;
use std::marker::Brand;

impl FloorOf<Slot, View, Description, Law> {
    /// Takes a sleeper off a queue by an abort: it alone is in the marked list then. The queue's chain was taken last.
    /// Of an sx lock's queue another sleeper stays on that side, so that the lock's word stays.
    pub fn abort(&self, pass: &mut Pass, q: QueueName, t: ThreadNo)
        requires own { IsOf self.now pass.old }
        requires queue { IsQueueOf self.now.description q }
        requires may { MayAbortSleeper self.now.description q t.0 pass.old.view }
        ensures own { IsOf self.now pass.new }
        ensures aborts { AbortsSleeper self.now.description q t.0 pass.old.view pass.new.view }
    {
        let at = self.chain_slot(q);
        abort_off::<Brand>(&self.board, &mut pass.seat, at, q, t);
        let woken = take_sleeper(&self.board, &mut pass.seat, at, q, t);
        pass.marked = Marked::AbortedSleepers(woken);
    }
}

// Reads the latch of a queue's chain, by which a sleeper is taken off the queue.
fn abort_off<J: Tells>(board: &Board, seat: &mut FloorSeat, at: usize, _q: QueueName, _t: ThreadNo)
    requires own { seat.old.table_id ≡ board.now.shared.table_id }
    requires slot { at < 2 ^ 32 }
    requires within { spot (latch_line at) < board.now.shared.table_id.words }
    requires may { Allows (FloorHolds board.now.shared.key) board.now.shared.table_id.slots
        seat.old.id seat.old.me (spot (latch_line at)) (λ n. n) (J.told seat.old.me) }
    ensures own { seat.new.table_id ≡ seat.old.table_id }
    ensures told { (n : ℕ) × J.told seat.old.me n seat.new.me }
{
    load::<J>(board, seat, latch_spot(at));
}

// Takes a sleeper off a queue in the chain of sleep queues that the seat has out first.
pub(crate) fn take_sleeper(
    board: &Board,
    seat: &mut FloorSeat,
    at: usize,
    q: QueueName,
    t: ThreadNo,
) -> SleepTaken
    requires own { seat.old.table_id ≡ board.now.shared.table_id }
    requires out { (chain : _)
        × (seat.old.me.1 ≡ (at, SleepQueues chain) ∷ rest seat.old.me.1)
        × IsSomeAnd (head_of q chain) (λ h. waits t.0 h.contents ≡ true) }
    ensures own { seat.new.table_id ≡ seat.old.table_id }
    ensures view { seat.new.me.0 ≡ seat.old.me.0 }
    ensures out { (chain : _) (h : _) → head_of q chain ≡ Some h
        → seat.old.me.1 ≡ (at, SleepQueues chain) ∷ rest seat.old.me.1
        → (seat.new.me.1 ≡ (at, SleepQueues (chain_aborted q t.0 h chain)) ∷ rest seat.old.me.1)
        × (result ≡ aborted_from t.0 h.contents) }
{
    let Slot::SleepQueues(chain) = seat.slot_mut(&board.shared, at) else {
        unreachable!()
    };
    lock_objects::abort(chain, q, t)
}
