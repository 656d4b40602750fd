//! The one table that the threads of a running floor share, and what holds of it between any two of their steps.
//!
//! The table has a word for each lock, latches, and a word for the next ticket, each on a cache line of its own
//! (`specs/Places.antt`). Behind latches lie the records of threads and the cells of the locks' tables (`slot`): the
//! thread that has the latch has the value out. Each thread steps with a seat, which knows the thread's share of the
//! state (`view`).
//!
//! The rule (`specs/Rule.antt`) is that the table represents a lawful state of `lock_state`: its words, what is at home
//! and what is out, and what the seats know say what the columns say (`specs/Represents.antt`). So each atomic step of
//! a thread has to be a step of `lock_state`, and `lock_laws` shows that this keeps the state lawful.
//!
//! - `description`: what a floor is made for, and what a plan gives.
//! - `board`: the table and its rule. What it is told once is a description.
//! - `places`: where its words are.
//! - `told`: its atomic steps, each of which tells the call that makes it what it did.
//! - `laws`: what a plan gives fits a table and says what the plan says, and a state has no column that nothing tells.
//!
//! `proofs/` has one lemma for each kind of word: a table in which such a word was changed by a step of `lock_state`
//! represents the state behind it.
#![tactic(auto)]

mod board;
mod description;
pub mod laws;
mod places;
mod slot;
mod told;
mod view;

pub use board::{Board, FloorSeat, Law};
pub use description::{Description, LockPart, ThreadPart};
pub use places::{
    awake_spot, ended_spot, halt_spot, latch_spot, lock_spot, ticket_spot, wait_spot, words_for,
};
pub use slot::Slot;
pub use told::{Tells, Told, add, exchange, keep_bits, load, store};
pub use view::View;
