//! The books of a run, and its printed text.
//!
//! - `log`: entries of one thread, in memory that was taken beforehand.
//! - `history`: the entries of all threads, in order of their tickets.
//! - `tables`: the value at each key of a lock's table.
//! - `merging`: the history that logs make.
//! - `outcome`: what a run leaves to be printed.
//! - `text`: the printed text of a run, that of a script that is only read, and that of a fault in one.
#![tactic(auto)]

mod history;
mod log;
mod merging;
mod outcome;
mod tables;
mod text;

pub use history::History;
pub use log::Log;
pub use merging::merge;
pub use outcome::{Last, Outcome, QueueLine};
pub use tables::Tables;
pub use text::{last_word, print, print_counts, print_fault};
