//! The end of a floor: its passes are taken in, and it is closed.
ghost use Rattle.std.specs.Prelude.{ℕ, ◌≡◌, ◌↔◌, ◌+◌, ◌<◌, ◌≤◌, ◌^◌, ◌++◌, true, false, None, Option, IfSome, IfNone, [], ◌∷◌, length, map, reverse, slice_index_or, vec_capacity, if◌then◌else◌};
ghost use Rattle.std.specs.FinMap.{empty, get, insert};
ghost use Rattle.std.specs.List.{Contains, list_any};
ghost use Rattle.std.specs.Mem.Slots.{slots_items, slots_filled, slots_len, IsFull};
ghost use Rattle.std.specs.Mem.Slots.Ownership.{Filled};
ghost use mathlib.Core.Option.{some};
ghost use lib.ListN.{get_elem?};
ghost use Rattle.atomic_table.specs.Table.{Allows};
ghost use Rattle.floor_table.specs.Places.{is_cell, spot, ticket_line, halt_line, word_at};
ghost use Rattle.floor_table.specs.Rule.{FloorHolds};
ghost use Rattle.floor_table.specs.declared.slot.Slot.TheVariants.{Record, Cell};
ghost use Rattle.lock_floor.specs.Closings.{IsClosing};
ghost use Rattle.lock_floor.specs.Passes.{IsKeeperOf, IsFinished};
ghost use Rattle.lock_floor.specs.Views.{longer};

use crate::floor::{Floor, FloorOf};
use crate::keeper::{HandOut, Keeper};
use crate::pass::{Pass, PassOf};
use atomic_table::{Closed, Join};
use floor_table::{
    Board, Description, FloorSeat, Law, Slot, Tells, Told, View, halt_spot, ticket_spot,
};
use lock_history::{Log, Tables};
use lock_model::LockNo;
use std::alloc::Global;
use std::marker::Brand;
use thread_records::ThreadRec;

/// What is left of a floor.
#[derive(Drop)]
pub struct Closing {
    pub(crate) recs: Vec<Box<ThreadRec>>,
    pub(crate) logs: Vec<Log>,
    pub(crate) tables: Tables,
    pub(crate) halted: bool,
}

impl Closing {
    /// The record of each thread, by its number.
    pub fn recs(&self) -> &[Box<ThreadRec>]
        ensures { result.now ≡ self.now.recs.items }
    {
        &self.recs
    }

    /// The logs of the threads, in the order in which their passes were taken in.
    pub fn logs(&self) -> &[Log]
        ensures { result.now ≡ self.now.logs.items }
    {
        &self.logs
    }

    /// The tables of the locks.
    pub fn tables(&self) -> &Tables
        ensures { result.now ≡ self.now.tables }
    {
        &self.tables
    }

    /// Whether a thread set the halt word: at a moment at which every other had ended or stood on a queue, unwoken.
    pub fn halted(&self) -> bool
        ensures { result ≡ self.now.halted }
    {
        self.halted
    }
}

impl Join<View> for HandOut {
    ghost use Rattle.floor_table.specs.Views.{nothing};
    ghost use Rattle.lock_floor.specs.Views.{with_pass_taken};

    ghost both = { with_pass_taken };

    ghost spent = { nothing };
}

impl Keeper {
    /// Takes in a pass that is finished, with its log. The keeper then has seen the steps that the pass has, where
    /// these are more. It never waits and takes no memory. By a load it learns that no more passes were taken in than
    /// the floor has threads, so that there is room for the log.
    pub fn gather(&mut self, floor: &Floor, pass: Pass)
        requires mine { IsKeeperOf floor.now self.old }
        requires finished { IsFinished floor.now pass }
        ensures mine { IsKeeperOf floor.entry.now self.new }
        ensures gathered { self.new.view.gathered
            ≡ self.old.view.gathered ++ (pass.view.thread, pass.view.share) ∷ [] }
        ensures seen { self.new.view.seen ≡ longer self.old.view.seen pass.view.seen }
        ensures few { length self.new.view.gathered ≤ length floor.entry.now.description.threads }
    {
        let PassOf {
            seat,
            who: _,
            held: _,
            marked: _,
            log,
            finished: _,
            law: _,
            call: _,
            apart: _,
        } = pass;
        floor
            .board
            .shared
            .join_seat::<HandOut>(&mut self.seat, seat);
        ask::<Brand>(&floor.board, &mut self.seat);
        self.logs.push_reserved(log);
    }
}

// Reads the ticket word, which is no lock's, so that the seat is told something that the rule says. It is no step of a
// thread.
fn ask<J: Tells>(board: &Board, seat: &mut FloorSeat) -> u64
    requires own { seat.old.table_id ≡ board.now.shared.table_id }
    requires within { spot ticket_line < board.now.shared.table_id.words }
    requires may { Allows (FloorHolds board.now.shared.key) board.now.shared.table_id.slots
        seat.old.id seat.old.me (spot ticket_line) (λ n. n) (J.told seat.old.me) }
    ensures own { seat.new.table_id ≡ seat.old.table_id }
    ensures id { seat.new.id ≡ seat.old.id }
    ensures told { J.told seat.old.me result seat.new.me }
{
    board.shared.load::<Told<J>>(seat, ticket_spot())
}

impl FloorOf<Slot, View, Description, Law> {
    /// Closes the floor once all its passes were taken in. The steps that were made on it are those that the keeper
    /// has seen. It never waits and takes no memory.
    pub fn close(self, keeper: Keeper) -> Closing
        requires mine { IsKeeperOf self keeper }
        requires all { length keeper.view.gathered ≡ length self.description.threads }
        ensures closing { (left : IsClosing self.description (map (λ g. g.0) keeper.view.gathered) result)
            × (left.past ≡ keeper.view.seen) }
        ensures logs { map (λ b. b.entries) result.logs.items
            ≡ map (λ g. reverse g.1.log) keeper.view.gathered }
    {
        let FloorOf { board, description } = self;
        let Keeper {
            seat,
            logs,
            mut recs,
            mut tables,
        } = keeper;
        let threads = description.threads.as_slice().len();
        let mut closed = board.close_with(seat);
        let halted = was_halted(&closed);
        take_records(&mut closed, threads, &mut recs);
        take_cells(
            &mut closed,
            threads,
            description.keys.as_slice(),
            &mut tables,
        );
        take_rest(&mut closed, threads + description.keys.as_slice().len());
        closed.free();
        Closing {
            recs,
            logs,
            tables,
            halted,
        }
    }
}

// Whether the halt word is 1.
fn was_halted(closed: &Closed<Slot, Global>) -> bool
    requires words { spot halt_line < slots_len closed.now.words }
    requires full { IsFull closed.now.words }
    ensures { (result ≡ true) ↔ (word_at (slots_items closed.now.words) halt_line ≡ 1) }
{
    closed.word(halt_spot()) == 1
}

// Takes the records of so many threads out of their places, in order.
fn take_records(closed: &mut Closed<Slot, Global>, threads: usize, recs: &mut Vec<Box<ThreadRec>>)
    requires full { IsFull closed.old.slots }
    requires places { threads ≤ slots_len closed.old.slots }
    requires records { (k : ℕ) → k < threads
        → (b : _) × (get_elem? (slots_items closed.old.slots) k ≡ some (Record b)) }
    requires none { recs.old.items ≡ [] }
    requires room { threads ≤ vec_capacity recs.old }
    ensures count { length recs.new.items ≡ threads }
    ensures records { (k : ℕ) (d : _) → k < threads
        → get_elem? (slots_items closed.old.slots) k
        ≡ some (Record (slice_index_or recs.new.items k d)) }
    ensures items { slots_items closed.new.slots ≡ slots_items closed.old.slots }
    ensures places { slots_len closed.new.slots ≡ slots_len closed.old.slots }
    ensures taken { (k : ℕ) → k < threads
        → slice_index_or (slots_filled closed.new.slots) k false ≡ false }
    ensures left { Filled (slots_filled closed.new.slots) threads (slots_len closed.new.slots) }
{
    for t in 0..threads {
        recs.push_reserved(record_from(closed.take(t)));
    }
}

// The record that a value is.
fn record_from(value: Slot) -> Box<ThreadRec>
    requires { (b : _) × (value ≡ Record b) }
    ensures { value ≡ Record result }
{
    match value {
        Slot::Record(rec) => rec,
        Slot::Cell(_) | Slot::Turnstiles(_) | Slot::SleepQueues(_) | Slot::Graph(_) => {
            unreachable!()
        }
    }
}

// The cell that a value is.
fn cell_from(value: Slot) -> Option<u64>
    requires { (x : _) × (value ≡ Cell x) }
    ensures { value ≡ Cell result }
{
    match value {
        Slot::Cell(cell) => cell,
        Slot::Record(_) | Slot::Turnstiles(_) | Slot::SleepQueues(_) | Slot::Graph(_) => {
            unreachable!()
        }
    }
}

// Takes the cells out of their places, which are behind those of so many threads, and puts the value of each at its
// key. What stands behind them stays in its place.
fn take_cells(
    closed: &mut Closed<Slot, Global>,
    threads: usize,
    keys: &[(u8, u64)],
    tables: &mut Tables,
)
    requires few { threads + length keys.now < 2 ^ 32 }
    requires places { threads + length keys.now ≤ slots_len closed.old.slots }
    requires taken { (k : ℕ) → k < threads
        → slice_index_or (slots_filled closed.old.slots) k false ≡ false }
    requires left { Filled (slots_filled closed.old.slots) threads (slots_len closed.old.slots) }
    requires cells { (i : ℕ) → i < length keys.now
        → (x : _) × (get_elem? (slots_items closed.old.slots) (threads + i) ≡ some (Cell x)) }
    requires none { tables.old.present ≡ empty }
    requires room { (l key : ℕ) → Contains keys.now (l, key)
        → Contains tables.old.places (l, key) }
    ensures values { (column : ℕ → ℕ → Option ℕ)
        → ((i : ℕ) (d : ℕ × ℕ) → i < length keys.now
        → get_elem? (slots_items closed.old.slots) (threads + i)
        ≡ some (Cell (column (slice_index_or keys.now i d).0 (slice_index_or keys.now i d).1)))
        → (l key : ℕ) → get tables.new.present (l, key)
        ≡ (if list_any (is_cell l key) keys.now then column l key else None) }
    ensures places { slots_len closed.new.slots ≡ slots_len closed.old.slots }
    ensures taken { (k : ℕ) → k < threads + length keys.now
        → slice_index_or (slots_filled closed.new.slots) k false ≡ false }
    ensures left { Filled (slots_filled closed.new.slots) (threads + length keys.now)
        (slots_len closed.new.slots) }
{
    for (i, (l, key)) in keys.iter().enumerate() {
        let value = cell_from(closed.take(threads + i));
        put(tables, LockNo(*l), *key, value);
    }
}

// Takes out what stands behind so many places: the chains, in which nothing is left, and the class graph.
fn take_rest(closed: &mut Closed<Slot, Global>, from: usize)
    requires places { from ≤ slots_len closed.old.slots }
    requires taken { (k : ℕ) → k < from
        → slice_index_or (slots_filled closed.old.slots) k false ≡ false }
    requires left { Filled (slots_filled closed.old.slots) from (slots_len closed.old.slots) }
    ensures taken { (k : ℕ) → k < slots_len closed.new.slots
        → slice_index_or (slots_filled closed.new.slots) k false ≡ false }
{
    for i in from..closed.slot_count() {
        drop(closed.take(i));
    }
}

// Puts the value of a cell at its key, where there is one.
fn put(tables: &mut Tables, l: LockNo, key: u64, value: Option<u64>)
    requires room { Contains tables.old.places (l.0, key) }
    ensures places { tables.new.places ≡ tables.old.places }
    ensures some { IfSome value (λ v. tables.new.present ≡ insert tables.old.present (l.0, key) v) }
    ensures none { IfNone value (tables.new.present ≡ tables.old.present) }
{
    if let Some(v) = value {
        tables.put(l, key, v);
    }
}
