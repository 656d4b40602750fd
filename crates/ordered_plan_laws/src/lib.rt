//! The laws of ordered plans on a running floor, over definitions alone: functions with empty bodies whose contracts
//! are theorems.
//!
//! - `histories`: a legal history of an ordered plan's threads has no refusal and no halt.
//! - `ordered`: the same of each moment of a run. Where each take is of a lock that is declared behind all that its
//!   thread holds, and nobody sleeps on a channel, no take is refused, and the halt word is never set.
#![tactic(auto)]

pub mod histories;
pub mod ordered;
