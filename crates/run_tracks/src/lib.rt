//! The rows of a scheduled run, as data: who had each turn and what it answered, and what each thing of the run was
//! between turns. Row 0 is the begin, and row n is behind n turns. Here are the types, and what they tell of a run
//! (`specs/Rows.antt`); `run_rows` makes them.
//!
//! - `track`: what one thing was, row by row, kept as its changes.
//! - `threads`: what a thread was in a row.
//! - `rows`: a whole run.
#![tactic(auto)]

mod rows;
mod threads;
mod track;

pub use lock_objects::Wait;
pub use prio_lending::Walk;
pub use rows::{QueueRows, Rows, TurnRow};
pub use threads::{ThreadRow, ThreadRows};
pub use track::{Noted, Track, count_up_to};
