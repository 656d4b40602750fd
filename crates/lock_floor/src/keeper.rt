//! Making a floor, with a pass for each thread.
ghost use Rattle.std.specs.Prelude.{◌≡◌, ℕ, ◌+◌, ◌<◌, ◌≤◌, ◌^◌, ◌++◌, [], None, length, replicate, slice_index_or, IfOk, OnOk, vec_capacity};
ghost use Rattle.lock_model.specs.Operations.{IsProper};
ghost use Rattle.floor_table.specs.Descriptions.{IsSized, description_of};
ghost use Rattle.floor_table.specs.Places.{slots_for};
ghost use Rattle.floor_table.specs.Views.{keeper};
ghost use Rattle.floor_table.specs.declared.slot.Slot.TheVariants.{Cell, Turnstiles, SleepQueues};
ghost use Rattle.lock_floor.specs.First.{AreFirstWords, IsFirst};
ghost use Rattle.lock_floor.specs.Passes.{IsKeeperOf, first_pass};

use crate::calls::Call;
use crate::floor::{Floor, FloorOf};
use crate::pass::{Pass, PassOf};
use atomic_table::Split;
use chain_table::Chain;
use floor_table::{Board, Description, FloorSeat, Law, Slot, View, awake_spot, words_for};
use lock_history::{Log, Tables};
use lock_model::limits::CLASSES;
use lock_model::{Plan, ThreadNo};
use lock_objects::Marked;
use std::alloc::{AllocError, Global};
use std::marker::{Model, PhantomData};
use thread_records::ThreadRec;
use witness_orders::Orders;

// Room for the locks that a thread holds: more than it may hold, so that two threads' rooms share no cache line.
const HELD_ROOM: usize = 64;

/// Who makes the passes of a floor and takes them in.
#[derive(Drop)]
pub struct Keeper {
    pub(crate) seat: FloorSeat,
    /// The logs of the passes that it took in, in that order.
    pub(crate) logs: Vec<Log>,
    /// Room for what a floor leaves when it is closed.
    pub(crate) recs: Vec<Box<ThreadRec>>,
    pub(crate) tables: Tables,
}

impl Model for Keeper {
    ghost use Rattle.lock_floor.specs.Floors.{Keeper as Seen};

    ghost Value = { Seen };

    ghost use Rattle.lock_floor.specs.Ties.{IsKept};

    ghost view = { λ k. record {
      table = k.seat.table_id;
      view = k.seat.me.0;
    } };

    ghost invariant = { λ k. IsKept k.logs k.recs k.tables k.seat.id k.seat.me };
}

pub(crate) struct HandOut;

impl Split<View> for HandOut {
    ghost use Rattle.lock_floor.specs.Views.{with_pass_made, new_pass};

    ghost left = { with_pass_made };

    ghost right = { new_pass };
}

impl FloorOf<Slot, View, Description, Law> {
    /// A floor for a plan, which is one that some script gives, with so many chains of each sort, and a pass for each
    /// of the plan's threads, in order: that of the description that the plan gives. There is room for every entry that
    /// the plan can make.
    pub fn make(
        alloc: Global,
        plan: &Plan,
        chains: u32,
    ) -> Result<(Floor, Keeper, Vec<Pass>), AllocError>
        requires proper { IsProper plan.now }
        requires some_chains { 1 ≤ chains }
        requires few_chains { chains ≤ 64 }
        ensures description { IfOk result (λ made.
            made.0.description ≡ description_of plan.now chains) }
        ensures keeper { IfOk result (λ made. IsKeeperOf made.0 made.1) }
        ensures none_gathered { IfOk result (λ made. made.1.view.gathered ≡ []) }
        ensures count { IfOk result (λ made. length made.2.items ≡ length plan.now.threads) }
        ensures passes { IfOk result (λ made. (t : ℕ) (d : _) → t < length plan.now.threads
            → slice_index_or made.2.items t d
            ≡ first_pass made.0.table (description_of plan.now chains) t) }
    {
        Floor::of_description(alloc, Description::of_plan(alloc, plan, chains)?)
    }

    /// A floor for a description, which fits a floor's table, and a pass for each of its threads, in order: all objects
    /// are at home, no lock is held and no entry made.
    pub fn of_description(
        alloc: Global,
        description: Description,
    ) -> Result<(Floor, Keeper, Vec<Pass>), AllocError>
        requires { IsSized description }
        ensures description { IfOk result (λ made. made.0.description ≡ description) }
        ensures keeper { IfOk result (λ made. IsKeeperOf made.0 made.1) }
        ensures none_gathered { IfOk result (λ made. made.1.view.gathered ≡ []) }
        ensures count { IfOk result (λ made.
            length made.2.items ≡ length description.threads) }
        ensures passes { IfOk result (λ made. (t : ℕ) (d : _) → t < length description.threads
            → slice_index_or made.2.items t d ≡ first_pass made.0.table description t) }
    {
        let count = description.threads.as_slice().len();
        let slots = first_slots(alloc, &description)?;
        let words = first_words(alloc, count, slots.len())?;
        let logs = Vec::with_capacity(alloc, count)?;
        let recs = Vec::with_capacity(alloc, count)?;
        let tables = Tables::with_room(alloc, description.keys.as_slice())?;
        let mut passes = Vec::with_capacity(alloc, count)?;
        let Ok((board, mut seat)) = Board::new(alloc, words.as_slice(), slots, &description) else {
            return Err(AllocError);
        };
        hand_out(alloc, &description, &board, &mut seat, &mut passes)?;
        let keeper = Keeper {
            seat,
            logs,
            recs,
            tables,
        };
        Ok((FloorOf { board, description }, keeper, passes))
    }
}

// The words: so many threads are awake, and every other word is 0.
fn first_words(alloc: Global, threads: usize, slots: usize) -> Result<Vec<u64>, AllocError>
    requires threads { threads < 2 ^ 8 }
    requires slots { slots < 2 ^ 32 }
    ensures { IfOk result (λ words. AreFirstWords threads slots words.items) }
{
    let mut words = vec![in alloc; 0; words_for(slots)]?;
    words[awake_spot()] = threads as u64;
    Ok(words)
}

// The records of the threads, a cell without a value for each key, the chains with nothing in them, and the class graph
// without an edge.
fn first_slots(alloc: Global, description: &Description) -> Result<Vec<Slot>, AllocError>
    requires { IsSized description.now }
    ensures count { IfOk result (λ slots. length slots.items ≡ slots_for description.now) }
    ensures each { IfOk result (λ slots. (j : ℕ) (d : _) → j < length slots.items
        → IsFirst description.now j (slice_index_or slots.items j d)) }
{
    let mut slots = first_records(alloc, description)?;
    push_cells(&mut slots, description.keys.as_slice().len())?;
    push_turnstiles(&mut slots, description.chains)?;
    push_sleep_queues(&mut slots, description.chains)?;
    let orders = Orders::make(alloc, CLASSES as u32)?;
    slots.push(Slot::Graph(Box::new(alloc, orders)?))?;
    Ok(slots)
}

// So many cells without a value.
fn push_cells(slots: &mut Vec<Slot>, count: usize) -> Result<(), AllocError>
    ensures { OnOk result (slots.new.items ≡ slots.old.items ++ replicate count (Cell None)) }
{
    for _ in 0..count {
        slots.push(Slot::Cell(None))?;
    }
    Ok(())
}

// So many chains of turnstiles with none in them.
fn push_turnstiles(slots: &mut Vec<Slot>, chains: u32) -> Result<(), AllocError>
    ensures { OnOk result (slots.new.items ≡ slots.old.items ++ replicate chains (Turnstiles [])) }
{
    for _ in 0..chains {
        slots.push(Slot::Turnstiles(Chain::empty()))?;
    }
    Ok(())
}

// So many chains of sleep queues with none in them.
fn push_sleep_queues(slots: &mut Vec<Slot>, chains: u32) -> Result<(), AllocError>
    ensures { OnOk result (slots.new.items ≡ slots.old.items ++ replicate chains (SleepQueues [])) }
{
    for _ in 0..chains {
        slots.push(Slot::SleepQueues(Chain::empty()))?;
    }
    Ok(())
}

// The records of the threads.
fn first_records(alloc: Global, description: &Description) -> Result<Vec<Slot>, AllocError>
    requires { length description.now.threads < 2 ^ 8 }
    ensures count { IfOk result (λ slots. length slots.items ≡ length description.now.threads) }
    ensures each { IfOk result (λ slots. (j : ℕ) (d : _) → j < length slots.items
        → IsFirst description.now j (slice_index_or slots.items j d)) }
{
    let threads = description.threads.as_slice();
    let mut slots = Vec::with_capacity(alloc, threads.len())?;
    for (t, thread) in threads.iter().enumerate() {
        let rec = ThreadRec::make(alloc, ThreadNo(t as u8), thread.base)?;
        slots.push(Slot::Record(rec))?;
    }
    Ok(slots)
}

// Makes the passes of all threads.
fn hand_out(
    alloc: Global,
    description: &Description,
    board: &Board,
    seat: &mut FloorSeat,
    passes: &mut Vec<Pass>,
) -> Result<(), AllocError>
    requires few { length description.now.threads ≤ 32 }
    requires key { board.now.shared.key ≡ description.now }
    requires own { seat.old.table_id ≡ board.now.shared.table_id }
    requires words { 0 < board.now.shared.table_id.words }
    requires first { seat.old.id ≡ 0 }
    requires keeper { seat.old.me ≡ (keeper description.now, []) }
    requires none { passes.old.items ≡ [] }
    requires room { length description.now.threads ≤ vec_capacity passes.old }
    ensures own { OnOk result (seat.new.table_id ≡ seat.old.table_id) }
    ensures first { OnOk result (seat.new.id ≡ 0) }
    ensures keeper { OnOk result (seat.new.me ≡ (
      record (keeper description.now) {
        made = length description.now.threads;
        spare = 0;
      },
      [],
    )) }
    ensures count { OnOk result (length passes.new.items ≡ length description.now.threads) }
    ensures passes { OnOk result ((t : ℕ) (d : _) → t < length description.now.threads
        → slice_index_or passes.new.items t d
        ≡ first_pass seat.old.table_id description.now t) }
{
    for (t, thread) in description.threads.as_slice().iter().enumerate() {
        let held = Vec::with_capacity(alloc, HELD_ROOM)?;
        let mut log = Log::make(alloc, thread.room)?;
        log.touch();
        let mine = board.shared.split_seat::<HandOut>(seat);
        passes.push_reserved(PassOf {
            seat: mine,
            who: ThreadNo(t as u8),
            held,
            marked: Marked::none(),
            log,
            finished: false,
            call: Call::None,
            law: PhantomData,
            apart: [0; 16],
        });
    }
    Ok(())
}
