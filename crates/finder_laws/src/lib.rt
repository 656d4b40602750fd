//! The laws of a finder on a floor, a thread whose counting out left nobody awake: functions with empty bodies whose
//! contracts are theorems.
//!
//! - `finders`: while there is a finder each step is its own, so that what it found of the other threads is so still at
//!   its next step.
#![tactic(auto)]

pub mod finders;
