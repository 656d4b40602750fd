//! The laws of scheduled runs, over definitions alone: functions with empty bodies whose contracts are theorems.
//!
//! - `runs`: each state of a scheduled run of a proper plan is lawful.
//! - `legal`: each history of such a run is legal.
#![tactic(auto)]

pub mod legal;
pub mod runs;
