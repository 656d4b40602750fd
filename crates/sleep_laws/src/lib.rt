//! The laws of sleepers, over definitions alone: functions with empty bodies whose contracts are theorems.
//!
//! - `sleeps`: on a running floor, and in the turns of a scheduled run, each waking names the sleepers whom it should.
//! - `legal`: the history of a running floor keeps the law, as far as that says nothing of operations.
#![tactic(auto)]

pub mod legal;
pub mod sleeps;
