//! The scheduled run, row by row: who had each turn and what it answered, and what each thing of the run was between
//! turns. Row 0 is the begin, and row n is behind n turns. The rows are the types of `run_tracks`.
//!
//! - `each`: things of which there is one for each number.
//! - `columns`: the tracks of a run's threads, locks and queues, and how they are noted behind a turn.
//! - `rows`: the run itself, turn by turn.
#![tactic(auto)]

mod columns;
mod each;
mod rows;

pub use rows::rows_of;
pub use run_tracks::{Noted, QueueRows, Rows, ThreadRow, ThreadRows, Track, TurnRow};
