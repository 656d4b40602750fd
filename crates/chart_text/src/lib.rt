//! A chart as lines of text, one for each turn, for a terminal and for grep: the turn's number, that of its entry in
//! the history, its thread, what it did, and what the chart says of it: on whom it blocked, to whom it lent and from
//! which priority to which, and whom it woke.
//!
//! - `lines`: the whole text.
//! - `turns`: the line of a turn.
//! - `said`: what is said of each turn.
//! - `columns`: words in columns.
#![tactic(auto)]

mod columns;
mod lines;
mod said;
mod turns;

pub use lines::text;
