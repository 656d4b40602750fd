//! The laws of counting and of halts, over definitions alone: functions with empty bodies whose contracts are theorems.
//!
//! - `counts`: on a running floor the awake count is the number of threads that are awake or about to be, so that a
//!   thread whose counting out left nobody is alone.
//! - `halts`: a halt comes only where each thread has ended, or sleeps, or waits for a lock that another has; and the
//!   history tells so.
#![tactic(auto)]

pub mod counts;
pub mod halts;
