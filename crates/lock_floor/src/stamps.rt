//! Entries in the log of a thread. Each takes the next ticket by one atomic step, never waits and takes no memory. An
//! entry that changes a priority or a table changes the value that was taken last first, and its step commits both.
ghost use Rattle.std.specs.Prelude.{ℕ, ◌≡◌, ◌≤◌, ◌<◌, ◌+◌, ◌-◌, ◌%◌, ◌^◌, ⊤, false, Some, [], ◌∷◌, ◌++◌};
ghost use Rattle.atomic_table.specs.Table.{Allows, Me, rest};
ghost use Rattle.lock_state.specs.Steps.{Stamps};
ghost use Rattle.lock_state.specs.Steps.Items.{Item};
ghost use Rattle.lock_state.specs.Steps.LockWords.{changes_base, changes_table};
ghost use Rattle.floor_table.specs.Descriptions.{config_in};
ghost use Rattle.floor_table.specs.Places.{spot, ticket_line, slot_of};
ghost use Rattle.floor_table.specs.Rule.{FloorHolds};
ghost use Rattle.floor_table.specs.Steps.{MayMake, Makes};
ghost use Rattle.floor_table.specs.Views.{Knowledge, seeing};
ghost use Rattle.lock_floor.specs.Changes.{IsChangeOf, cell_after, record_after, last_changed, stamped_change};
ghost use Rattle.lock_floor.specs.Passes.{IsOf};
ghost use Rattle.lock_floor.specs.Views.{entry_by, stamped};

use crate::floor::FloorOf;
use crate::pass::Pass;
use floor_table::{Board, Description, FloorSeat, Law, Slot, Tells, View, add, ticket_spot};
use lock_history::Log;
use lock_model::{Entry, Event, OfTable, ThreadNo};
use std::marker::Brand;
use thread_records::ThreadRec;

impl FloorOf<Slot, View, Description, Law> {
    /// Makes an entry of an event that changes no priority and no lock's table. Answers its ticket.
    pub fn stamp(&self, pass: &mut Pass, event: Event) -> u32
        requires own { IsOf self.now pass.old }
        requires room { 1 ≤ pass.old.view.spare }
        requires base { changes_base event ≡ false }
        requires table { changes_table event ≡ false }
        requires may { MayMake self.now.description pass.old.view (λ s. ⊤)
            (Stamps pass.old.view.thread event ∷ []) }
        ensures own { IsOf self.now pass.new }
        ensures view { pass.new.view ≡ seeing pass.new.view.seen
            (stamped (config_in self.now.description) pass.old.view
            (entry_by pass.old.view.thread result event)) }
        ensures step { Makes self.now.description (Stamps pass.old.view.thread event ∷ [])
            pass.old.view pass.new.view }
    {
        let ticket = next_ticket::<Brand>(&self.board, &mut pass.seat, event);
        put_entry(&mut pass.log, ticket, pass.who, event);
        ticket
    }

    // Changes the value that was taken last, which is that of the event's item, as the event says, and makes the entry
    // of the event, by one atomic step. Answers its ticket.
    pub(crate) fn stamp_change(&self, pass: &mut Pass, slot: usize, event: Event) -> u32
        requires own { IsOf self.now pass.old }
        requires room { 1 ≤ pass.old.view.spare }
        requires item { (i : Item) × IsChangeOf pass.old.view.thread event i
            × (slot_of self.now.description i ≡ Some slot) }
        requires last { (x : _) × (pass.old.view.out ≡ (slot, x) ∷ rest pass.old.view.out) }
        requires may { MayMake self.now.description pass.old.view (λ s. ⊤)
            (Stamps pass.old.view.thread event ∷ []) }
        ensures own { IsOf self.now pass.new }
        ensures view { pass.new.view ≡ seeing pass.new.view.seen
            (stamped_change (config_in self.now.description) pass.old.view
            (entry_by pass.old.view.thread result event)) }
        ensures step { Makes self.now.description (Stamps pass.old.view.thread event ∷ [])
            pass.old.view pass.new.view }
    {
        change(&self.board, &mut pass.seat, slot, event);
        let ticket = next_ticket::<Brand>(&self.board, &mut pass.seat, event);
        put_entry(&mut pass.log, ticket, pass.who, event);
        ticket
    }
}

// Changes the value that was taken last as an event says.
fn change(board: &Board, seat: &mut FloorSeat, slot: usize, event: Event)
    requires own { seat.old.table_id ≡ board.now.shared.table_id }
    requires last { (x : _) × (seat.old.me.1 ≡ (slot, x) ∷ rest seat.old.me.1) }
    ensures own { seat.new.table_id ≡ seat.old.table_id }
    ensures view { seat.new.me.0 ≡ seat.old.me.0 }
    ensures value { seat.new.me.1 ≡ last_changed event seat.old.me.1 }
{
    match seat.slot_mut(&board.shared, slot) {
        Slot::Cell(cell) => *cell = cell_behind(event, *cell),
        Slot::Record(rec) => note(rec, event),
        Slot::Turnstiles(_) | Slot::SleepQueues(_) | Slot::Graph(_) => {}
    }
}

// What an event makes of the value of a cell.
fn cell_behind(event: Event, before: Option<u64>) -> Option<u64>
    ensures { result ≡ cell_after event before }
{
    match event.at_table() {
        OfTable::SetsTo { value, .. } => Some(value),
        OfTable::AddsTo { amount, .. } => Some(before.unwrap_or(0).wrapping_add(amount)),
        OfTable::NoTable | OfTable::Reads { .. } => before,
    }
}

// Makes of a record what an event of its thread says.
fn note(rec: &mut ThreadRec, event: Event)
    ensures { rec.new ≡ record_after event rec.old }
{
    if let Some(prio) = event.new_base() {
        rec.set_base(prio);
    }
}

// The next ticket, for an event.
fn next_ticket<J: Tells>(board: &Board, seat: &mut FloorSeat, _event: Event) -> u32
    requires own { seat.old.table_id ≡ board.now.shared.table_id }
    requires within { spot ticket_line < board.now.shared.table_id.words }
    requires may { Allows (FloorHolds board.now.shared.key) board.now.shared.table_id.slots
        seat.old.id seat.old.me (spot ticket_line) (λ n. (n + 1) % 2 ^ 64) (J.told seat.old.me) }
    requires small { (n : ℕ) (behind : Me Slot Knowledge) → J.told seat.old.me n behind
        → n < 2 ^ 32 }
    ensures own { seat.new.table_id ≡ seat.old.table_id }
    ensures told { J.told seat.old.me result seat.new.me }
{
    add::<J>(board, seat, ticket_spot(), 1) as u32
}

// Makes the entry of an event that has its ticket, and puts it behind the others of a log. It isn't made before the
// step that takes the ticket: an atomic step waits for what was written before it.
fn put_entry(log: &mut Log, ticket: u32, who: ThreadNo, event: Event)
    requires { 1 ≤ log.old.spare }
    ensures { log.new ≡ record {
      entries = log.old.entries ++ entry_by who.0 ticket event ∷ [];
      spare = log.old.spare - 1;
    } }
{
    log.put(Entry {
        ticket,
        thread: who,
        event,
    });
}
