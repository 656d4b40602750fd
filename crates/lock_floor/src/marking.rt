//! How a thread wakes those whom it took off a queue, as in `turnstile_unpend` of FreeBSD's subr_turnstile.c. For each
//! it takes the record of that thread; by one atomic step it gives it its object back and says in its wait word that it
//! was woken; then it gives the record back, and ends the sleep. No call waits, and none takes memory.
ghost use Rattle.std.specs.Prelude.{◌≡◌, ◌<◌, true, false, [], ◌∷◌, length, IfNone, IfSome, IsSome};
ghost use Rattle.std.specs.Box.{with_value};
ghost use Rattle.atomic_table.specs.Table.{Allows, rest};
ghost use Rattle.lock_model.specs.declared.plan.QueueName.{QueueName};
ghost use Rattle.lock_objects.specs.Marked.{IsAway, cause_by, node_of, places_of, record_woken};
ghost use Rattle.lock_state.specs.State as state;
ghost use Rattle.lock_state.specs.Steps.Items.{RecordOf};
ghost use Rattle.floor_table.specs.declared.slot.Slot.TheVariants.{Record};
ghost use Rattle.floor_table.specs.Places.{spot, wait_line};
ghost use Rattle.floor_table.specs.Represents.{wait_number};
ghost use Rattle.floor_table.specs.Rule.{FloorHolds};
ghost use Rattle.floor_table.specs.Views.{seeing};
ghost use Rattle.lock_floor.specs.Latches.{FindsOut};
ghost use Rattle.lock_floor.specs.Marks.{CanMark, MarksFirst, MayMark, WakesFirst};
ghost use Rattle.lock_floor.specs.Passes.{IsOf};

use crate::counts::Count;
use crate::floor::FloorOf;
use crate::pass::{Pass, PassOf};
use floor_table::{Board, Description, FloorSeat, Law, Slot, Tells, View, store, wait_spot};
use lock_model::ThreadNo;
use lock_objects::{Marked, Woken, wake};
use std::marker::Brand;

// What a wait word says of a thread that a signal woke.
const SIGNALLED: u64 = 2;

// And of one that an abort woke.
const ABORTED: u64 = 4;

impl FloorOf<Slot, View, Description, Law> {
    /// Wakes the first of the marked list, whose record was taken last, by one atomic step, and never waits. Answers
    /// who that is; its sleep is still to be ended, by `unpark`.
    pub fn mark(&self, pass: &mut Pass) -> ThreadNo
        requires own { IsOf self.now pass.old }
        requires may { MayMark self.now.description pass.old.view }
        ensures own { IsOf self.now pass.new }
        ensures marks { MarksFirst self.now.description result.0 pass.old.view pass.new.view }
    {
        let Some(woken) = pass.marked.pop() else {
            unreachable!()
        };
        let u = woken.thread();
        let word = word_for(&woken);
        hand_back(&self.board, &mut pass.seat, usize::from(u.0), woken);
        say_woken::<Brand>(&self.board, &mut pass.seat, u, word);
        u
    }

    /// Wakes the first of the marked list, who is that thread, if its record is at home: it takes the record, counts
    /// the thread in, marks it, and gives the record back. Its sleep is still to be ended, by `unpark`. `false` comes
    /// only where another thread had the record out at a moment between the pass's last step and this call's return, or
    /// the pass itself has it. It never waits.
    pub fn try_wake(&self, pass: &mut Pass, t: ThreadNo) -> bool
        requires own { IsOf self.now pass.old }
        requires may { CanMark pass.old.view }
        requires first { (m : _) × (ms : _) × (pass.old.view.share.doing.marked ≡ m ∷ ms)
            × (m.thread ≡ t.0) }
        requires thread { t.0 < length self.now.description.threads }
        ensures own { IsOf self.now pass.new }
        ensures woken { result ≡ true
            → WakesFirst self.now.description t.0 pass.old.view pass.new.view }
        ensures left { result ≡ false → pass.new.view
            ≡ seeing pass.new.view.seen pass.old.view }
        ensures elsewhere { result ≡ false
            → FindsOut self.now.description (RecordOf t.0) pass.old.view pass.new.view }
    {
        if !self.try_take_rec(pass, t) {
            return false;
        }
        self.count(pass, Count::In(t));
        self.mark(pass);
        self.give_rec(pass, t);
        true
    }
}

impl PassOf<Slot, View, Description, Law> {
    /// The first thread of the marked list: the one to be woken next. `None` comes exactly where nobody is left.
    pub fn first_marked(&self) -> Option<ThreadNo>
        ensures none { IfNone result (self.now.view.share.doing.marked ≡ []) }
        ensures some { IfSome result (λ t. (m : _) × (ms : _)
            × (self.now.view.share.doing.marked ≡ m ∷ ms) × (m.thread ≡ t.0)) }
        ensures of_floor { IfSome result (λ t. t.0 < length self.now.view.description.threads) }
    {
        first_of(&self.marked)
    }
}

// The first thread of the objects of a marked list. `None` comes exactly where there is none.
fn first_of(marked: &Marked) -> Option<ThreadNo>
    ensures none { IfNone result (places_of marked.now ≡ []) }
    ensures some { IfSome result (λ t. (p : _) × (ps : _) × (places_of marked.now ≡ p ∷ ps)
        × (p.thread ≡ t.0)) }
{
    match marked {
        Marked::Waiters(waiters) => Some(waiters.first()?.thread()),
        Marked::Sleepers(sleepers) => Some(sleepers.first()?.thread()),
        Marked::AbortedSleepers(sleepers) => Some(sleepers.first()?.thread()),
    }
}

// What the wait word of a thread says that was taken off a queue, from its mark on: by what it was taken off.
fn word_for(woken: &Woken) -> u64
    ensures { (q : QueueName) → result ≡ wait_number (state.Woken q (cause_by woken.now)) }
{
    match woken {
        Woken::Waiter(_) | Woken::Sleeper(_) => SIGNALLED,
        Woken::AbortedSleeper(_) => ABORTED,
    }
}

// Gives the object back to the record that was taken last, which is its thread's.
fn hand_back(board: &Board, seat: &mut FloorSeat, slot: usize, woken: Woken)
    requires own { seat.old.table_id ≡ board.now.shared.table_id }
    requires last { (b : _) × (seat.old.me.1 ≡ (slot, Record b) ∷ rest seat.old.me.1)
        × IsAway woken b.value × ((node_of woken).place.thread ≡ b.value.thread) }
    requires holds { IsSome (node_of woken).place.object }
    requires alone { (node_of woken).next ≡ [] }
    ensures own { seat.new.table_id ≡ seat.old.table_id }
    ensures view { seat.new.me.0 ≡ seat.old.me.0 }
    ensures value { (b : _) → seat.old.me.1 ≡ (slot, Record b) ∷ rest seat.old.me.1
        → seat.new.me.1 ≡ (slot, Record (with_value b (record_woken woken b.value)))
        ∷ rest seat.old.me.1 }
{
    match seat.slot_mut(&board.shared, slot) {
        Slot::Record(rec) => wake(rec, woken),
        Slot::Cell(_) | Slot::Turnstiles(_) | Slot::SleepQueues(_) | Slot::Graph(_) =>
            unreachable!(),
    }
}

// Makes the wait word of a thread say that it was woken, by that word.
fn say_woken<J: Tells>(board: &Board, seat: &mut FloorSeat, u: ThreadNo, word: u64)
    requires own { seat.old.table_id ≡ board.now.shared.table_id }
    requires within { spot (wait_line u.0) < board.now.shared.table_id.words }
    requires may { Allows (FloorHolds board.now.shared.key) board.now.shared.table_id.slots
        seat.old.id seat.old.me (spot (wait_line u.0)) (λ _. word)
        (λ _. J.told seat.old.me word) }
    ensures own { seat.new.table_id ≡ seat.old.table_id }
    ensures told { J.told seat.old.me word seat.new.me }
{
    store::<J>(board, seat, wait_spot(u), word);
}
