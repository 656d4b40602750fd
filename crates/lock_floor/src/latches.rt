//! Latches: a thread takes a record or a cell of a lock's table out of its home, and gives it back. Each try is one
//! atomic step, never waits and takes no memory.
ghost use Rattle.std.specs.Prelude.{ℕ, ◌≡◌, ◌<◌, ◌+◌, ◌^◌, ◌==◌, suc, ⊤, true, false, None, Some, [], ◌∷◌, length};
ghost use prog.Atomic.{either};
ghost use Rattle.atomic_table.specs.Table.{Allows, Me, rest};
ghost use Rattle.lock_state.specs.Steps.{TakesItem, GivesItem};
ghost use Rattle.lock_state.specs.Steps.Items.{Item, RecordOf, item_with};
ghost use Rattle.floor_table.specs.declared.slot.Slot.TheVariants.{Record};
ghost use Rattle.floor_table.specs.Places.{spot, latch_line, slots_for, slot_of};
ghost use Rattle.floor_table.specs.Rule.{FloorHolds};
ghost use Rattle.floor_table.specs.Steps.{MayMake, Makes};
ghost use Rattle.floor_table.specs.Views.{seeing};
ghost use Rattle.lock_floor.specs.Passes.{IsOf};
ghost use Rattle.lock_floor.specs.Latches.{FindsOut, Takes};
ghost use Rattle.lock_floor.specs.Views.{gave};

use crate::floor::FloorOf;
use crate::pass::Pass;
use floor_table::{
    Board, Description, FloorSeat, Law, Slot, Tells, View, exchange, latch_spot, store,
};
use lock_model::ThreadNo;
use std::marker::Brand;

/// Why a call didn't go through that needs a value of the floor's table: another thread had it out.
#[derive(Clone, Copy, Debug, PartialEq, Eq)]
pub struct Out;

impl FloorOf<Slot, View, Description, Law> {
    /// Takes the record of a thread, if it is at home. `false` comes only where another thread had it out at a moment
    /// between the pass's last step and this call's return, or the pass itself has it.
    pub fn try_take_rec(&self, pass: &mut Pass, t: ThreadNo) -> bool
        requires own { IsOf self.now pass.old }
        requires thread { t.0 < length self.now.description.threads }
        requires may { MayMake self.now.description pass.old.view (λ s. s.record_with t.0 ≡ None)
            (TakesItem pass.old.view.thread (RecordOf t.0) ∷ []) }
        ensures own { IsOf self.now pass.new }
        ensures out { result ≡ true
            → Takes self.now.description (RecordOf t.0) t.0 pass.old.view pass.new.view }
        ensures left { result ≡ false → pass.new.view
            ≡ seeing pass.new.view.seen pass.old.view }
        ensures elsewhere { result ≡ false
            → FindsOut self.now.description (RecordOf t.0) pass.old.view pass.new.view }
    {
        self.try_take(pass, usize::from(t.0))
    }

    /// Gives back the record of a thread, which was taken last.
    pub fn give_rec(&self, pass: &mut Pass, t: ThreadNo)
        requires own { IsOf self.now pass.old }
        requires thread { t.0 < length self.now.description.threads }
        requires last { (x : _) × (pass.old.view.out ≡ (t.0, Record x) ∷ rest pass.old.view.out) }
        requires may { MayMake self.now.description pass.old.view (λ s. ⊤)
            (GivesItem pass.old.view.thread (RecordOf t.0) ∷ []) }
        ensures own { IsOf self.now pass.new }
        ensures view { pass.new.view
            ≡ seeing pass.new.view.seen (gave pass.old.view (RecordOf t.0)) }
        ensures step { Makes self.now.description
            (GivesItem pass.old.view.thread (RecordOf t.0) ∷ [])
            pass.old.view pass.new.view }
    {
        self.give(pass, usize::from(t.0));
    }

    // Takes what a place has, if it is at home there.
    pub(crate) fn try_take(&self, pass: &mut Pass, slot: usize) -> bool
        requires own { IsOf self.now pass.old }
        requires may { (i : Item) × (slot_of self.now.description i ≡ Some slot)
            × MayMake self.now.description pass.old.view (λ s. item_with s i ≡ None)
            (TakesItem pass.old.view.thread i ∷ []) }
        ensures own { IsOf self.now pass.new }
        ensures out { result ≡ true → (i : Item) → slot_of self.now.description i ≡ Some slot
            → Takes self.now.description i slot pass.old.view pass.new.view }
        ensures left { result ≡ false → pass.new.view
            ≡ seeing pass.new.view.seen pass.old.view }
        ensures elsewhere { result ≡ false → (i : Item) → slot_of self.now.description i ≡ Some slot
            → FindsOut self.now.description i pass.old.view pass.new.view }
    {
        take_latch::<Brand>(&self.board, &mut pass.seat, pass.who, slot) == 0
    }

    // Gives back what was taken last.
    pub(crate) fn give(&self, pass: &mut Pass, slot: usize)
        requires own { IsOf self.now pass.old }
        requires last { (x : _) × (pass.old.view.out ≡ (slot, x) ∷ rest pass.old.view.out) }
        requires may { (i : Item) × (slot_of self.now.description i ≡ Some slot)
            × MayMake self.now.description pass.old.view (λ s. ⊤)
            (GivesItem pass.old.view.thread i ∷ []) }
        ensures own { IsOf self.now pass.new }
        ensures view { (i : Item) → slot_of self.now.description i ≡ Some slot
            → pass.new.view ≡ seeing pass.new.view.seen (gave pass.old.view i) }
        ensures step { (i : Item) → slot_of self.now.description i ≡ Some slot
            → Makes self.now.description (GivesItem pass.old.view.thread i ∷ [])
            pass.old.view pass.new.view }
    {
        give_latch::<Brand>(&self.board, &mut pass.seat, slot);
    }
}

// Makes a latch that is 0 one more than the thread's number. Answers the word that it found.
fn take_latch<J: Tells>(board: &Board, seat: &mut FloorSeat, who: ThreadNo, slot: usize) -> u64
    requires own { seat.old.table_id ≡ board.now.shared.table_id }
    requires slot { slot < 2 ^ 32 }
    requires within { spot (latch_line slot) < board.now.shared.table_id.words }
    requires may { Allows (FloorHolds board.now.shared.key) board.now.shared.table_id.slots
        seat.old.id seat.old.me (spot (latch_line slot)) (λ n. either (n == 0) (suc who.0) n)
        (J.told seat.old.me) }
    ensures own { seat.new.table_id ≡ seat.old.table_id }
    ensures told { J.told seat.old.me result seat.new.me }
{
    exchange::<J>(board, seat, latch_spot(slot), 0, u64::from(who.0) + 1)
}

// Makes a latch 0.
pub(crate) fn give_latch<J: Tells>(board: &Board, seat: &mut FloorSeat, slot: usize)
    requires own { seat.old.table_id ≡ board.now.shared.table_id }
    requires slot { slot < 2 ^ 32 }
    requires within { spot (latch_line slot) < board.now.shared.table_id.words }
    requires may { Allows (FloorHolds board.now.shared.key) board.now.shared.table_id.slots
        seat.old.id seat.old.me (spot (latch_line slot)) (λ _. 0)
        (λ _. J.told seat.old.me 0) }
    ensures own { seat.new.table_id ≡ seat.old.table_id }
    ensures told { J.told seat.old.me 0 seat.new.me }
{
    store::<J>(board, seat, latch_spot(slot), 0);
}
