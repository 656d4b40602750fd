//! How a thread goes to sleep on a channel, and how sleepers are taken off one, as in `sleepq_add`, `sleepq_signal` and
//! `sleepq_broadcast` of FreeBSD's subr_sleepqueue.c. The thread has the chain of sleep queues out in which the
//! channel's queue stands. Each is one atomic step, never waits and takes no memory.
ghost use Rattle.std.specs.Prelude.{◌≡◌, ◌≢◌, ◌<◌, ◌^◌, ℕ, [], ◌∷◌, Some, IfSome, IsSome, length};
ghost use Rattle.std.specs.Box.{with_value};
ghost use Rattle.atomic_table.specs.Table.{Allows, rest};
ghost use Rattle.chain_table.specs.Chains.{head_of};
ghost use Rattle.lock_objects.specs.Enters.{CanStand};
ghost use Rattle.lock_objects.specs.Sleeps.{sleeper_of, record_asleep, chain_asleep, woken_of, chain_woken};
ghost use Rattle.sleep_queues.specs.Changes.{all_waiters};
ghost use Rattle.floor_table.specs.declared.slot.Slot.TheVariants.{Record, SleepQueues};
ghost use Rattle.floor_table.specs.Places.{spot, latch_line};
ghost use Rattle.floor_table.specs.Rule.{FloorHolds};
ghost use Rattle.lock_floor.specs.Passes.{IsOf};
ghost use Rattle.lock_floor.specs.Sleeps.{MayWakeSleepers, WakesSleepers, MayAddItself, AddsItself};

use crate::floor::FloorOf;
use crate::pass::Pass;
use floor_table::{Board, Description, FloorSeat, Law, Slot, Tells, View, latch_spot, load};
use lock_model::{ChanNo, QueueName, Side};
use lock_objects::{Marked, bits_of, fall_asleep, take_off};
use sleep_queues::SleepTaken;
use std::marker::Brand;

impl FloorOf<Slot, View, Description, Law> {
    /// Takes the best sleeper off a channel's queue, or all: they are in the marked list then, and the entry of the
    /// wake is to be made next. Answers a bit for each of them. The channel's chain was taken last.
    pub fn wake(&self, pass: &mut Pass, d: ChanNo, all: bool) -> u64
        requires own { IsOf self.now pass.old }
        requires chan { d.0 < length self.now.description.chans }
        requires may { MayWakeSleepers self.now.description d.0 all pass.old.view }
        ensures own { IsOf self.now pass.new }
        ensures wakes { WakesSleepers self.now.description d.0 all result
            pass.old.view pass.new.view }
    {
        let at = self.chain_slot(QueueName::Chan(d));
        woken_off::<Brand>(&self.board, &mut pass.seat, at, d, all);
        let woken = take_sleepers(
            &self.board,
            &mut pass.seat,
            at,
            QueueName::Chan(d),
            Side::X,
            all,
        );
        let bits = bits_of(&woken);
        pass.marked = Marked::Sleepers(woken);
        bits
    }

    /// Stands at the tail of a channel's queue, by the thread's base priority. The thread is queued, and made its entry
    /// of the sleep with its last step. It took the channel's chain, and then its own record: it lends its sleep queue,
    /// and its record names the queue.
    pub fn add(&self, pass: &mut Pass, d: ChanNo)
        requires own { IsOf self.now pass.old }
        requires chan { d.0 < length self.now.description.chans }
        requires may { MayAddItself self.now.description d.0 pass.old.view }
        ensures own { IsOf self.now pass.new }
        ensures adds { AddsItself self.now.description d.0 pass.old.view pass.new.view }
    {
        let (own, at) = (usize::from(pass.who.0), self.chain_slot(QueueName::Chan(d)));
        added_to::<Brand>(&self.board, &mut pass.seat, at, d);
        lie_down(
            &self.board,
            &mut pass.seat,
            own,
            at,
            QueueName::Chan(d),
            Side::X,
        );
    }
}

// Reads the latch of a channel's chain, by which sleepers are taken off the channel's queue.
fn woken_off<J: Tells>(board: &Board, seat: &mut FloorSeat, at: usize, _d: ChanNo, _all: bool)
    requires own { seat.old.table_id ≡ board.now.shared.table_id }
    requires slot { at < 2 ^ 32 }
    requires within { spot (latch_line at) < board.now.shared.table_id.words }
    requires may { Allows (FloorHolds board.now.shared.key) board.now.shared.table_id.slots
        seat.old.id seat.old.me (spot (latch_line at)) (λ n. n) (J.told seat.old.me) }
    ensures own { seat.new.table_id ≡ seat.old.table_id }
    ensures told { (n : ℕ) × J.told seat.old.me n seat.new.me }
{
    load::<J>(board, seat, latch_spot(at));
}

// The same, by which the thread stands on the channel's queue.
fn added_to<J: Tells>(board: &Board, seat: &mut FloorSeat, at: usize, _d: ChanNo)
    requires own { seat.old.table_id ≡ board.now.shared.table_id }
    requires slot { at < 2 ^ 32 }
    requires within { spot (latch_line at) < board.now.shared.table_id.words }
    requires may { Allows (FloorHolds board.now.shared.key) board.now.shared.table_id.slots
        seat.old.id seat.old.me (spot (latch_line at)) (λ n. n) (J.told seat.old.me) }
    ensures own { seat.new.table_id ≡ seat.old.table_id }
    ensures told { (n : ℕ) × J.told seat.old.me n seat.new.me }
{
    load::<J>(board, seat, latch_spot(at));
}

// Takes sleepers of a side off a queue in the chain of sleep queues that the seat has out first, the best or all.
pub(crate) fn take_sleepers(
    board: &Board,
    seat: &mut FloorSeat,
    at: usize,
    q: QueueName,
    side: Side,
    all: bool,
) -> SleepTaken
    requires own { seat.old.table_id ≡ board.now.shared.table_id }
    requires out { (chain : _)
        × (seat.old.me.1 ≡ (at, SleepQueues chain) ∷ rest seat.old.me.1)
        × IfSome (head_of q chain) (λ h. all_waiters h.contents ≢ []) }
    ensures own { seat.new.table_id ≡ seat.old.table_id }
    ensures view { seat.new.me.0 ≡ seat.old.me.0 }
    ensures out { (chain : _) → seat.old.me.1 ≡ (at, SleepQueues chain) ∷ rest seat.old.me.1
        → (seat.new.me.1 ≡ (at, SleepQueues (chain_woken q all side (head_of q chain) chain))
        ∷ rest seat.old.me.1) × (result ≡ woken_of all side (head_of q chain)) }
{
    let Slot::SleepQueues(chain) = seat.slot_mut(&board.shared, at) else {
        unreachable!()
    };
    take_off(chain, q, side, all)
}

// Stands at the tail of a side of a queue, in the chain of sleep queues that was taken before the own record, which the
// seat has out first.
pub(crate) fn lie_down(
    board: &Board,
    seat: &mut FloorSeat,
    own: usize,
    at: usize,
    q: QueueName,
    side: Side,
)
    requires own { seat.old.table_id ≡ board.now.shared.table_id }
    requires out { (b : _) × (chain : _)
        × (seat.old.me.1 ≡ (own, Record b) ∷ (at, SleepQueues chain) ∷ [])
        × IsSome b.value.sleep_queue × CanStand b.value.thread (head_of q chain) }
    ensures own { seat.new.table_id ≡ seat.old.table_id }
    ensures view { seat.new.me.0 ≡ seat.old.me.0 }
    ensures out { (b : _) (chain : _) (x : ℕ) → b.value.sleep_queue ≡ Some x
        → seat.old.me.1 ≡ (own, Record b) ∷ (at, SleepQueues chain) ∷ []
        → seat.new.me.1 ≡ (own, Record (with_value b (record_asleep q b.value)))
        ∷ (at, SleepQueues (chain_asleep q side x (sleeper_of b.value) chain)) ∷ [] }
{
    // the record moves out, so that the chain can change beside it
    let mut first = board.shared.exchange(seat, own, Slot::Cell(None));
    seat.turn();
    let Slot::Record(rec) = &mut first else {
        unreachable!()
    };
    let Slot::SleepQueues(chain) = seat.slot_mut(&board.shared, at) else {
        unreachable!()
    };
    fall_asleep(chain, rec, q, side);
    seat.turn();
    board.shared.exchange(seat, own, first);
}
