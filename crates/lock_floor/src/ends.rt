//! How a thread counts itself among those that have ended, and how another finds out that one hasn't: the ended word
//! says how many have. FreeBSD keeps no such count. Each is one atomic step, never waits and takes no memory.
ghost use Rattle.std.specs.Prelude.{◌≡◌, ◌+◌, ◌<◌, ◌%◌, ◌^◌, ⊤, [], ◌∷◌};
ghost use Rattle.atomic_table.specs.Table.{Allows};
ghost use Rattle.lock_state.specs.Steps.{CountsEnd};
ghost use Rattle.floor_table.specs.Places.{spot, ended_line};
ghost use Rattle.floor_table.specs.Rule.{FloorHolds};
ghost use Rattle.floor_table.specs.Steps.{MayMake, Makes};
ghost use Rattle.floor_table.specs.Views.{seeing};
ghost use Rattle.lock_floor.specs.Ends.{FindsWhetherLeft, ended};
ghost use Rattle.lock_floor.specs.Passes.{IsOf};

use crate::floor::FloorOf;
use crate::pass::Pass;
use floor_table::{Board, Description, FloorSeat, Law, Slot, Tells, View, add, ended_spot, load};
use std::marker::Brand;

impl FloorOf<Slot, View, Description, Law> {
    /// Counts the thread among those that have ended. It runs, holds and wants nothing, and took its own record last.
    /// It then gives the record back, counts itself out, and halts others where it was the last.
    pub fn end(&self, pass: &mut Pass)
        requires own { IsOf self.now pass.old }
        requires may { MayMake self.now.description pass.old.view (λ s. ⊤)
            (CountsEnd pass.old.view.thread ∷ []) }
        ensures own { IsOf self.now pass.new }
        ensures view { pass.new.view ≡ seeing pass.new.view.seen (ended pass.old.view) }
        ensures step { Makes self.now.description (CountsEnd pass.old.view.thread ∷ [])
            pass.old.view pass.new.view }
    {
        add_ended::<Brand>(&self.board, &mut pass.seat);
    }

    /// Finds out whether a thread is left that hasn't ended. It is one atomic step, which is no step of the state.
    pub fn find_left(&self, pass: &mut Pass) -> bool
        requires own { IsOf self.now pass.old }
        ensures own { IsOf self.now pass.new }
        ensures view { pass.new.view ≡ seeing pass.new.view.seen pass.old.view }
        ensures found { FindsWhetherLeft self.now.description result pass.old.view pass.new.view }
    {
        let ended = read_ended::<Brand>(&self.board, &mut pass.seat);
        ended < self.description.threads.as_slice().len() as u64
    }
}

// Adds one to the ended word. Answers what it was.
fn add_ended<J: Tells>(board: &Board, seat: &mut FloorSeat) -> u64
    requires own { seat.old.table_id ≡ board.now.shared.table_id }
    requires within { spot ended_line < board.now.shared.table_id.words }
    requires may { Allows (FloorHolds board.now.shared.key) board.now.shared.table_id.slots
        seat.old.id seat.old.me (spot ended_line) (λ found. (found + 1) % 2 ^ 64)
        (J.told seat.old.me) }
    ensures own { seat.new.table_id ≡ seat.old.table_id }
    ensures told { J.told seat.old.me result seat.new.me }
{
    add::<J>(board, seat, ended_spot(), 1)
}

// Reads the ended word.
fn read_ended<J: Tells>(board: &Board, seat: &mut FloorSeat) -> u64
    requires own { seat.old.table_id ≡ board.now.shared.table_id }
    requires within { spot ended_line < board.now.shared.table_id.words }
    requires may { Allows (FloorHolds board.now.shared.key) board.now.shared.table_id.slots
        seat.old.id seat.old.me (spot ended_line) (λ n. n) (J.told seat.old.me) }
    ensures own { seat.new.table_id ≡ seat.old.table_id }
    ensures told { J.told seat.old.me result seat.new.me }
{
    load::<J>(board, seat, ended_spot())
}
