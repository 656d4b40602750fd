//! The laws of busy words, over definitions alone: functions with empty bodies whose contracts are theorems.
//!
//! - `busy`: who holds a lock that a thread finds busy has a section of it in the history, or has yet to begin it; so a
//!   whole history explains each busy word.
#![tactic(auto)]

pub mod busy;
