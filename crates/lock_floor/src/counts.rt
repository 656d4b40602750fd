//! How a thread counts itself out before it parks, and another in before it wakes it: the awake word says how many
//! threads are awake or about to be. Where a counting out leaves nobody, every other thread has ended or stands on a
//! queue. FreeBSD keeps no such count. Each is one atomic step, never waits and takes no memory.
ghost use Rattle.std.specs.Prelude.{◌≡◌, ◌+◌, ◌<◌, ◌%◌, ◌^◌, ⊤, [], ◌∷◌};
ghost use Rattle.atomic_table.specs.Table.{Allows};
ghost use Rattle.floor_table.specs.Places.{spot, awake_line};
ghost use Rattle.floor_table.specs.Rule.{FloorHolds};
ghost use Rattle.floor_table.specs.Steps.{MayMake, Makes};
ghost use Rattle.floor_table.specs.Views.{seeing};
ghost use Rattle.lock_floor.specs.Counts.{added_by, counted, counts_by};
ghost use Rattle.lock_floor.specs.Passes.{IsOf};

use crate::floor::FloorOf;
use crate::pass::Pass;
use floor_table::{Board, Description, FloorSeat, Law, Slot, Tells, View, add, awake_spot};
use lock_model::ThreadNo;
use std::marker::Brand;

/// Who is counted, and how.
#[derive(Clone, Copy, Debug, PartialEq, Eq)]
pub enum Count {
    /// The thread itself out: it parks next.
    Out,
    /// Another thread in: the first of the marked list, whose record was taken last. It is marked next.
    In(ThreadNo),
    /// The thread itself in, whose counting out left nobody awake: it halts others next.
    SelfIn,
}

impl FloorOf<Slot, View, Description, Law> {
    /// Counts, and answers how many were awake before. Who counts itself out and is answered 1 is the last.
    pub fn count(&self, pass: &mut Pass, how: Count) -> u64
        requires own { IsOf self.now pass.old }
        requires may { MayMake self.now.description pass.old.view (λ s. ⊤)
            (counts_by how pass.old.view.thread ∷ []) }
        ensures own { IsOf self.now pass.new }
        ensures view { pass.new.view ≡ seeing pass.new.view.seen
            (counted how result pass.old.view) }
        ensures step { Makes self.now.description (counts_by how pass.old.view.thread ∷ [])
            pass.old.view pass.new.view }
        ensures found { (m : Makes self.now.description (counts_by how pass.old.view.thread ∷ [])
            pass.old.view pass.new.view)
            × (m.state.awake ≡ result) }
    {
        add_awake::<Brand>(&self.board, &mut pass.seat, how, added(how))
    }
}

// What a counting adds to the awake word: the greatest number takes 1 off.
fn added(how: Count) -> u64
    ensures { result ≡ added_by how }
{
    match how {
        Count::Out => u64::MAX,
        Count::In(_) | Count::SelfIn => 1,
    }
}

// Adds to the awake word. Answers what it was.
fn add_awake<J: Tells>(board: &Board, seat: &mut FloorSeat, _how: Count, n: u64) -> u64
    requires own { seat.old.table_id ≡ board.now.shared.table_id }
    requires within { spot awake_line < board.now.shared.table_id.words }
    requires may { Allows (FloorHolds board.now.shared.key) board.now.shared.table_id.slots
        seat.old.id seat.old.me (spot awake_line) (λ found. (found + n) % 2 ^ 64)
        (J.told seat.old.me) }
    ensures own { seat.new.table_id ≡ seat.old.table_id }
    ensures told { J.told seat.old.me result seat.new.me }
{
    add::<J>(board, seat, awake_spot(), n)
}
