//! The laws of scripts and their plans: functions with empty bodies whose contracts are theorems.
//!
//! - `scripts`: each script's plan is proper: its operations fit what their threads hold; and reading the canonical
//!   text of a plan gives the plan again.
#![tactic(auto)]

pub mod scripts;
