//! Running a plan: a thread of its own makes the operations of each of the plan's threads, beside the others, on one
//! floor.
//!
//! - `worker`: making the operations of one thread; `channels`: those that sleep and wake.
//! - `run`: starting the workers, closing the floor, and what is to be printed of it.
#![tactic(auto)]

mod channels;
mod run;
mod worker;

pub use run::run_plan;
pub use worker::work;
