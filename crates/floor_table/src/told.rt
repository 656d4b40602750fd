//! The atomic steps of a floor's table. Each never waits and takes no memory; it asks that whatever the table is when
//! the word changes, the seat may step so that the rule holds again, and tells what the call that makes it picks.
ghost use Rattle.std.specs.Prelude.{◌≡◌, ◌+◌, ◌%◌, ◌^◌, ◌<◌, ◌==◌, bit_and};
ghost use prog.Atomic.{either};
ghost use Rattle.atomic_table.specs.Table.{Allows};
ghost use Rattle.floor_table.specs.Rule.{FloorHolds};

use crate::board::{Board, FloorSeat};
use crate::slot::Slot;
use crate::view::View;
use atomic_table::Play;
use std::marker::{Brand, PhantomData};

/// What a step tells: what holds of the seat before, the number that was found, and the seat after. The call that makes
/// the step picks it.
pub trait Tells {
    ghost use Rattle.std.specs.Prelude.{ℕ};
    ghost use Rattle.atomic_table.specs.Table.{Me};
    ghost use Rattle.floor_table.specs.declared.slot.Slot.{Slot as Value};
    ghost use Rattle.floor_table.specs.Views.{Knowledge};

    ghost told: { Me Value Knowledge → ℕ → Me Value Knowledge → Type 0 };
}

impl Tells for Brand {
    ghost use Rattle.std.specs.Prelude.{⊤};

    ghost told = { λ _ _ _. ⊤ };
}

/// A step that tells what was picked.
pub struct Told<J> {
    by: PhantomData<J>,
}

impl<J: Tells> Play<Slot, View> for Told<J> {
    ghost then = { λ _ before found after. J.told before found after };
}

/// Reads a word.
pub fn load<J: Tells>(board: &Board, seat: &mut FloorSeat, word: usize) -> u64
    requires own { seat.old.table_id ≡ board.now.shared.table_id }
    requires within { word < board.now.shared.table_id.words }
    requires may { Allows (FloorHolds board.now.shared.key) board.now.shared.table_id.slots
        seat.old.id seat.old.me word (λ n. n) (J.told seat.old.me) }
    ensures own { seat.new.table_id ≡ seat.old.table_id }
    ensures told { J.told seat.old.me result seat.new.me }
{
    board.shared.load::<Told<J>>(seat, word)
}

/// Makes a word `new` where it is `old`, and answers what it was.
pub fn exchange<J: Tells>(
    board: &Board,
    seat: &mut FloorSeat,
    word: usize,
    old: u64,
    new: u64,
) -> u64
    requires own { seat.old.table_id ≡ board.now.shared.table_id }
    requires within { word < board.now.shared.table_id.words }
    requires may { Allows (FloorHolds board.now.shared.key) board.now.shared.table_id.slots
        seat.old.id seat.old.me word (λ n. either (n == old) new n) (J.told seat.old.me) }
    ensures own { seat.new.table_id ≡ seat.old.table_id }
    ensures told { J.told seat.old.me result seat.new.me }
{
    board
        .shared
        .compare_exchange::<Told<J>>(seat, word, old, new)
}

/// Adds to a word, and answers what it was.
pub fn add<J: Tells>(board: &Board, seat: &mut FloorSeat, word: usize, n: u64) -> u64
    requires own { seat.old.table_id ≡ board.now.shared.table_id }
    requires within { word < board.now.shared.table_id.words }
    requires may { Allows (FloorHolds board.now.shared.key) board.now.shared.table_id.slots
        seat.old.id seat.old.me word (λ found. (found + n) % 2 ^ 64) (J.told seat.old.me) }
    ensures own { seat.new.table_id ≡ seat.old.table_id }
    ensures told { J.told seat.old.me result seat.new.me }
{
    board.shared.fetch_add::<Told<J>>(seat, word, n)
}

/// Keeps those bits of a word that `mask` has, and answers what it was.
pub fn keep_bits<J: Tells>(board: &Board, seat: &mut FloorSeat, word: usize, mask: u64) -> u64
    requires own { seat.old.table_id ≡ board.now.shared.table_id }
    requires within { word < board.now.shared.table_id.words }
    requires may { Allows (FloorHolds board.now.shared.key) board.now.shared.table_id.slots
        seat.old.id seat.old.me word (λ found. bit_and found mask) (J.told seat.old.me) }
    ensures own { seat.new.table_id ≡ seat.old.table_id }
    ensures told { J.told seat.old.me result seat.new.me }
{
    board.shared.fetch_and::<Told<J>>(seat, word, mask)
}

/// Makes a word `new`.
pub fn store<J: Tells>(board: &Board, seat: &mut FloorSeat, word: usize, new: u64)
    requires own { seat.old.table_id ≡ board.now.shared.table_id }
    requires within { word < board.now.shared.table_id.words }
    requires may { Allows (FloorHolds board.now.shared.key) board.now.shared.table_id.slots
        seat.old.id seat.old.me word (λ _. new) (λ _. J.told seat.old.me new) }
    ensures own { seat.new.table_id ≡ seat.old.table_id }
    ensures told { J.told seat.old.me new seat.new.me }
{
    board.shared.store::<Told<J>>(seat, word, new);
}
