//! The chart of a scheduled run: from the rows of the run to the bars, steps, arrows, marks and sentences that stand in
//! a drawing of it.
//!
//! - `spans`: the rows over which a value stays the same, the one mechanism of bars and steps.
//! - `rows`, `lookup`, `naming`: what the rows of a run say of a row, and of a turn, and whom it names.
//! - `bars`: what the bars of a thread show in a window; `threads`: all that the threads do.
//! - `adding`: adding to what is shown.
//! - `marks`, `arrows`, `saying`: what a turn shows; `window`: what the turns of a window show.
//! - `ending`: how the run ended.
//! - `charting`: the chart of a run.
#![tactic(auto)]

mod adding;
mod arrows;
mod bars;
mod charting;
mod ending;
mod lookup;
mod marks;
mod naming;
mod rows;
mod saying;
mod spans;
mod threads;
mod window;

pub use charting::{chart, threads_wait_where_they_stand};
